//! Reads numbers and names.

ghost use Rattle.std.specs.Prelude.{◌≡◌, ◌++◌, ◌≤◌, ◌<◌, ◌^◌, length, option_map, IfSome, Some, None, nat_lt, ◌+◌, true, if◌then◌else◌};
ghost use Rattle.std.specs.List.{list_all};
ghost use Rattle.thf_grammar.specs.Bytes.{is_word_byte};
ghost use Rattle.thf_grammar.specs.Printable.{is_printable};
ghost use Rattle.refute_text.specs.Internal.Reader.{behind_text, has_no_leading_zero, number_at, escaped_character, character_at, characters_at, needs_quotes, plain_at, name_at};
ghost use Rattle.outside.specs.Fronts.{front, behind_front};
ghost use Rattle.outside.specs.Decimal.{is_digit, number_from};
ghost use Rattle.refute_text.specs.Internal.Refusals.{AnswersReader};

use crate::refusal::Refusal;
use outside::Bytes;
use std::alloc::Global;
use std::str;
use thf_names::{is_lower_word, is_word_byte};

/// What follows the text, where the bytes begin with it.
pub(crate) fn behind<'a>(text: &[u8], bytes: &'a [u8]) -> Option<&'a [u8]>
    ensures { option_map (λ rest. rest.now) result ≡ behind_text text.now bytes.now }
{
    if bytes.starts_with(text) {
        Some(&bytes[text.len()..])
    } else {
        None
    }
}

/// A prefix of bytes, and what follows it.
#[derive(Drop)]
struct Split<'a> {
    front: &'a [u8],
    rest: &'a [u8],
}

fn is_digit(byte: u8) -> bool
    ensures { result ≡ is_digit byte }
{
    byte.is_ascii_digit()
}

/// The digits at the front.
fn digits(bytes: &[u8]) -> Split<'_>
    ensures front { result.front.now ≡ front is_digit bytes.now }
    ensures rest { result.rest.now ≡ behind_front is_digit bytes.now }
{
    let mut end = 0;
    while end < bytes.len() && is_digit(bytes[end]) {
        end += 1;
    }
    Split {
        front: &bytes[..end],
        rest: &bytes[end..],
    }
}

/// The letters, digits and `_` at the front.
fn word(bytes: &[u8]) -> Split<'_>
    ensures front { result.front.now ≡ front is_word_byte bytes.now }
    ensures rest { result.rest.now ≡ behind_front is_word_byte bytes.now }
{
    let mut end = 0;
    while end < bytes.len() && is_word_byte(bytes[end]) {
        end += 1;
    }
    Split {
        front: &bytes[..end],
        rest: &bytes[end..],
    }
}

/// Whether the digits are a number without leading zeros.
fn is_decimal(digits: &[u8]) -> bool
    ensures { result ≡ has_no_leading_zero digits.now }
{
    match digits {
        [] => false,
        [_] => true,
        [first, ..] => *first != b'0',
    }
}

/// A number, and what follows it.
#[derive(Drop)]
pub(crate) struct NumberRead<'a> {
    pub number: u64,
    pub rest: &'a [u8],
}

/// The number of digits, where it is below 2^64.
fn value(digits: &[u8]) -> Option<u64>
    requires digits { list_all is_digit digits.now ≡ true }
    requires some { 0 < length digits.now }
    ensures { result ≡ (if nat_lt (number_from 0 digits.now) (2 ^ 64) then Some (number_from 0 digits.now) else None) }
{
    let Ok(text) = str::from_utf8(digits) else {
        return None;
    };
    match text.parse::<u64>() {
        Ok(number) => Some(number),
        Err(_) => None,
    }
}

/// A number up to the greatest one.
#[tactic(auto, unfolding(crate::specs::Internal::Reader::number_at))]
pub(crate) fn number(greatest: u64, bytes: &[u8]) -> Option<NumberRead<'_>>
    ensures read { option_map (λ r. (r.number, r.rest.now)) result ≡ number_at (greatest + 1) bytes.now }
    ensures bound { IfSome result (λ r. r.number ≤ greatest) }
{
    let split = digits(bytes);
    if !is_decimal(split.front) {
        return None;
    }
    let number = value(split.front)?;
    if number <= greatest {
        Some(NumberRead {
            number,
            rest: split.rest,
        })
    } else {
        None
    }
}

fn is_printable(byte: u8) -> bool
    ensures { result ≡ is_printable byte }
{
    (b' '..=b'~').contains(&byte)
}

/// A character of a name in quotes, and what follows it.
#[derive(Drop)]
struct CharacterRead<'a> {
    character: u8,
    rest: &'a [u8],
}

fn escaped(bytes: &[u8]) -> Option<CharacterRead<'_>>
    ensures read { option_map (λ r. (r.character, r.rest.now)) result ≡ escaped_character bytes.now }
    ensures shorter { IfSome result (λ r. length r.rest.now < length bytes.now) }
{
    let [character, rest @ ..] = bytes else {
        return None;
    };
    if *character == b'\'' || *character == b'\\' {
        Some(CharacterRead {
            character: *character,
            rest,
        })
    } else {
        None
    }
}

fn character(bytes: &[u8]) -> Option<CharacterRead<'_>>
    ensures read { option_map (λ r. (r.character, r.rest.now)) result ≡ character_at bytes.now }
    ensures shorter { IfSome result (λ r. length r.rest.now < length bytes.now) }
{
    let [character, rest @ ..] = bytes else {
        return None;
    };
    if *character == b'\\' {
        escaped(rest)
    } else if is_printable(*character) {
        Some(CharacterRead {
            character: *character,
            rest,
        })
    } else {
        None
    }
}

/// A name, and what follows it.
#[derive(Drop)]
pub(crate) struct NameRead<'a> {
    pub name: Bytes,
    pub rest: &'a [u8],
}

/// The characters up to the closing quote.
fn characters(alloc: Global, bytes: &[u8]) -> Result<NameRead<'_>, Refusal>
    ensures { AnswersReader (λ r. (r.name, r.rest.now)) result (characters_at bytes.now) }
{
    let mut name = Bytes::new(alloc);
    let mut rest = bytes;
    loop {
        if let Some(rest) = behind(b"'", rest) {
            return Ok(NameRead { name, rest });
        }
        let Some(read) = character(rest) else {
            return Err(Refusal::Form);
        };
        name.push(read.character)?;
        rest = read.rest;
    }
}

fn needs_quotes(name: &[u8]) -> bool
    ensures { result ≡ needs_quotes name.now }
{
    !name.is_empty() && !is_lower_word(name)
}

/// A name that is a lower word.
fn plain(alloc: Global, bytes: &[u8]) -> Result<NameRead<'_>, Refusal>
    ensures { AnswersReader (λ r. (r.name, r.rest.now)) result (plain_at bytes.now) }
{
    let split = word(bytes);
    if !is_lower_word(split.front) {
        return Err(Refusal::Form);
    }
    Ok(NameRead {
        name: Bytes::from_slice(alloc, split.front)?,
        rest: split.rest,
    })
}

/// A name.
#[tactic(auto, unfolding(crate::specs::Internal::Reader::name_at))]
pub(crate) fn name(alloc: Global, bytes: &[u8]) -> Result<NameRead<'_>, Refusal>
    ensures { AnswersReader (λ r. (r.name, r.rest.now)) result (name_at bytes.now) }
{
    let Some(rest) = behind(b"'", bytes) else {
        return plain(alloc, bytes);
    };
    let read = characters(alloc, rest)?;
    if needs_quotes(read.name.as_slice()) {
        Ok(read)
    } else {
        Err(Refusal::Form)
    }
}
