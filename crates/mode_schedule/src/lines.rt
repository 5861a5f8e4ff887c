//! The lines of a schedule.
ghost use Rattle.std.specs.Prelude.{◌≡◌, ◌+◌, ◌<◌, ◌≤◌, ◌^◌, ◌++◌, ◌∷◌, false, length, IfSome, IfNone};
ghost use Rattle.outside.specs.Lines.{lines_of};
ghost use Rattle.mode_file.specs.Lines.{IsCutBefore};
ghost use Rattle.mode_schedule.specs.Grammar.{is_slice_line, AreInBlock, BeginWithSlice};

use mode_file::{Split, first_word, next_line};

/// Whether a line's first word is that of a slice.
pub(crate) fn is_slice_line(line: &[u8]) -> bool
    ensures { result ≡ is_slice_line line.now }
{
    first_word(line) == b"slice".as_slice()
}

/// The first line that isn't one of a slice, and what follows it.
fn next_other_line(bytes: &[u8]) -> Option<Split<'_>>
    ensures line { IfSome result (λ r. lines_of bytes.now ≡ r.front.now ∷ lines_of r.rest.now) }
    ensures is_other { IfSome result (λ r. is_slice_line r.front.now ≡ false) }
    ensures cut { IfSome result (λ r. IsCutBefore bytes.now r.rest.now) }
    ensures shorter { IfSome result (λ r. length r.rest.now < length bytes.now) }
    ensures none { IfNone result (BeginWithSlice (lines_of bytes.now)) }
{
    let split = next_line(bytes)?;
    if is_slice_line(split.front) {
        return None;
    }
    Some(split)
}

/// Lines none of which is that of a slice, how many they are, and what follows them.
#[derive(Clone, Copy, Drop)]
pub(crate) struct Body<'a> {
    pub bytes: &'a [u8],
    pub count: u32,
    pub rest: &'a [u8],
}

/// The lines before the first one of a slice.
pub(crate) fn split_body(bytes: &[u8]) -> Body<'_>
    requires { length bytes.now ≤ 2 ^ 24 }
    ensures lines { lines_of bytes.now ≡ lines_of result.bytes.now ++ lines_of result.rest.now }
    ensures body { AreInBlock (lines_of result.bytes.now) }
    ensures count { result.count ≡ length (lines_of result.bytes.now) }
    ensures behind { BeginWithSlice (lines_of result.rest.now) }
    ensures length { length result.bytes.now ≤ length bytes.now }
    ensures room { result.count + length result.rest.now ≤ length bytes.now }
{
    let mut rest = bytes;
    let mut count = 0;
    while let Some(split) = next_other_line(rest) {
        count += 1;
        rest = split.rest;
    }
    Body {
        bytes: &bytes[..bytes.len() - rest.len()],
        count,
        rest,
    }
}
