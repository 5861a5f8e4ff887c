//! The lines of a text.

ghost use Rattle.std.specs.Prelude.{◌≡◌, ◌+◌, ◌<◌, ◌≤◌, ◌^◌, ◌∷◌, [], length, IfOk, IfErr, IfSome, IfNone, drop};
ghost use Rattle.refute_text.specs.Internal.Reader.{is_no_feed};
ghost use Rattle.outside.specs.Fronts.{front, behind_front};
ghost use Rattle.outside.specs.Lines.{lines_of};
ghost use Rattle.refute_text.specs.Reading.{is_start, is_end_mark, HasNoStart};
ghost use Rattle.refute_text.specs.Internal.Places.{BehindStart};

/// Bytes of a text, and the number of the line that begins with them.
#[derive(Clone, Copy, Drop)]
pub(crate) struct Place<'a> {
    pub line: usize,
    pub bytes: &'a [u8],
}

/// A line, and what follows it.
#[derive(Clone, Copy, Drop)]
pub(crate) struct Cut<'a> {
    pub line: &'a [u8],
    pub rest: &'a [u8],
}

/// The bytes before the first line feed, and those from it on.
fn until_feed(bytes: &[u8]) -> Cut<'_>
    ensures line { result.line.now ≡ front is_no_feed bytes.now }
    ensures rest { result.rest.now ≡ behind_front is_no_feed bytes.now }
    ensures length { length result.rest.now ≤ length bytes.now }
{
    let mut end = 0;
    while end < bytes.len() && bytes[end] != b'\n' {
        end += 1;
    }
    Cut {
        line: &bytes[..end],
        rest: &bytes[end..],
    }
}

/// The first line.
pub(crate) fn next_line(bytes: &[u8]) -> Option<Cut<'_>>
    ensures line { IfSome result (λ r. lines_of bytes.now ≡ r.line.now ∷ lines_of r.rest.now) }
    ensures shorter { IfSome result (λ r. length r.rest.now < length bytes.now) }
    ensures none { IfNone result (bytes.now ≡ []) }
{
    if bytes.is_empty() {
        return None;
    }
    let cut = until_feed(bytes);
    match cut.rest {
        [] => Some(cut),
        [_, rest @ ..] => Some(Cut {
            line: cut.line,
            rest,
        }),
    }
}

fn is_start(line: &[u8]) -> bool
    ensures { result ≡ is_start line.now }
{
    line.starts_with(b"% SZS output start Refutation for ")
}

pub(crate) fn is_end(line: &[u8]) -> bool
    ensures { result ≡ is_end_mark line.now }
{
    line.starts_with(b"% SZS output end Refutation for ")
}

/// What follows the start line; or else the number of the line past the last.
pub(crate) fn behind_start(bytes: &[u8]) -> Result<Place<'_>, usize>
    ensures found { IfOk result (λ p. BehindStart (lines_of bytes.now) p.line (lines_of p.bytes.now)) }
    ensures room { IfOk result (λ p. p.line + length p.bytes.now ≤ length bytes.now + 1) }
    ensures none { IfErr result (HasNoStart (lines_of bytes.now)) }
{
    let mut rest = bytes;
    let mut line = 1;
    while let Some(cut) = next_line(rest) {
        line += 1;
        rest = cut.rest;
        if is_start(cut.line) {
            return Ok(Place { line, bytes: rest });
        }
    }
    Err(line)
}
