//! The number of a line.
ghost use Rattle.std.specs.Prelude.{◌≡◌, ◌^◌, ◌&&◌, option_map, true, None, Some, nat_lt, IfOk, IfErr, if◌then◌else◌};
ghost use Rattle.std.specs.List.{list_all};
ghost use Rattle.outside.specs.Decimal.{is_digit, is_decimal, number_from};
ghost use Rattle.mode_file.specs.Grammar.{first_word, Assigns, HasNoNumber};
ghost use Rattle.mode_file.specs.Internal.Reader.{is_ending, digits_in};

use crate::bytes::{ByteClass, split_front};
use std::str;

/// Why a line's number isn't read.
#[derive(Clone, Copy, PartialEq, Eq)]
pub enum NumberRefused {
    /// The first word isn't followed by spaces, a number, any spaces, and at most one carriage return.
    Missing,
    /// The number doesn't fit into 64 bits.
    TooGreat,
}

/// What stands before the first blank byte of a line.
pub fn first_word(line: &[u8]) -> &[u8]
    ensures { result.now ≡ first_word line.now }
{
    split_front(ByteClass::InWord, line).front
}

fn are_digits(bytes: &[u8]) -> bool
    ensures { result ≡ list_all is_digit bytes.now }
{
    bytes.iter().all(|c| c.is_ascii_digit())
}

fn is_decimal(digits: &[u8]) -> bool
    ensures { result ≡ is_decimal digits.now }
{
    match digits {
        [] => false,
        [only] => only.is_ascii_digit(),
        [first, ..] => *first != b'0' && are_digits(digits),
    }
}

fn is_ending(bytes: &[u8]) -> bool
    ensures { result ≡ is_ending bytes.now }
{
    match bytes {
        [] => true,
        [only] => *only == b'\r',
        [_, _, ..] => false,
    }
}

/// The digits of the number behind a word.
fn digits_in(bytes: &[u8]) -> Option<&[u8]>
    ensures { option_map (λ digits. digits.now) result ≡ digits_in bytes.now }
{
    let gap = split_front(ByteClass::Space, bytes);
    let number = split_front(ByteClass::Digit, gap.rest);
    let spaces = split_front(ByteClass::Space, number.rest);
    if !gap.front.is_empty() && is_decimal(number.front) && is_ending(spaces.rest) {
        Some(number.front)
    } else {
        None
    }
}

/// The number of digits, where it is below 2^64.
fn value(digits: &[u8]) -> Option<u64>
    requires { is_decimal digits.now ≡ true }
    ensures { result ≡ (if nat_lt (number_from 0 digits.now) (2 ^ 64) then Some (number_from 0 digits.now) else None) }
{
    let Ok(text) = str::from_utf8(digits) else {
        return None;
    };
    match text.parse::<u64>() {
        Ok(number) => Some(number),
        Err(_) => None,
    }
}

/// The number that a line assigns to its first word.
pub fn read_number(line: &[u8]) -> Result<u64, NumberRefused>
    ensures number { IfOk result (Assigns line.now (first_word line.now)) }
    ensures refused { IfErr result (HasNoNumber line.now) }
{
    let word = split_front(ByteClass::InWord, line);
    let Some(digits) = digits_in(word.rest) else {
        return Err(NumberRefused::Missing);
    };
    let Some(number) = value(digits) else {
        return Err(NumberRefused::TooGreat);
    };
    Ok(number)
}
