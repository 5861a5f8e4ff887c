//! A line of a mode file.
ghost use Rattle.std.specs.Prelude.{◌≡◌, ◌≤◌, MatchResult, false, None, is_some};
ghost use Rattle.std.specs.List.{list_all};
ghost use Rattle.mode_file.specs.Lines.{is_blank};
ghost use Rattle.mode_file.specs.Keys.{greatest, key_of};
ghost use Rattle.mode_file.specs.Given.{number_given};
ghost use Rattle.mode_file.specs.Grammar.{says_nothing, first_word, Sets, IsBadFor};

use crate::given::Given;
use crate::keys::Key;
use crate::number::{NumberRefused, first_word, read_number};
use crate::refused::Cause;

fn is_blank(line: &[u8]) -> bool
    ensures { result ≡ list_all is_blank line.now }
{
    line.iter()
        .all(|c| *c == b' ' || *c == b'\t' || *c == b'\r')
}

/// Whether a line is blank or a comment.
pub fn says_nothing(line: &[u8]) -> bool
    ensures { result ≡ says_nothing line.now }
{
    is_blank(line) || line.starts_with(b"%")
}

/// Whether the first word of a line is a key.
pub fn begins_with_key(line: &[u8]) -> bool
    ensures { result ≡ is_some (key_of (first_word line.now)) }
{
    Key::named(first_word(line)).is_some()
}

/// A key with its number.
#[derive(Clone, Copy)]
pub(crate) struct Setting {
    pub key: Key,
    pub number: u64,
}

/// What a line sets that says something, behind lines that gave these numbers.
pub(crate) fn read_line(line: &[u8], given: &Given) -> Result<Setting, Cause>
    requires { says_nothing line.now ≡ false }
    ensures { MatchResult result
        (λ s. Sets line.now s.key s.number × (number_given given.now s.key ≡ None) × (s.number ≤ greatest s.key))
        (IsBadFor given.now line.now) }
{
    let Some(key) = Key::named(first_word(line)) else {
        return Err(Cause::UnknownKey);
    };
    if given.has(key) {
        return Err(Cause::Twice);
    }
    let number = match read_number(line) {
        Ok(number) => number,
        Err(NumberRefused::Missing) => return Err(Cause::BadNumber),
        Err(NumberRefused::TooGreat) => return Err(Cause::OutOfRange),
    };
    if number > key.greatest() {
        return Err(Cause::OutOfRange);
    }
    Ok(Setting { key, number })
}
