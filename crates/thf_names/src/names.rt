//! Names as they are spelled.
ghost use Rattle.std.specs.Prelude.{◌≡◌, OnOk, OnErr};
ghost use Rattle.std.specs.Char.{is_ascii_digit};
ghost use Rattle.std.specs.List.{flat_map, list_all};
ghost use Rattle.thf_grammar.specs.Bytes as lex;
ghost use Rattle.thf_names.specs.Names as spec;
ghost use Rattle.outside.specs.Writing.{Took, Stopped};

use crate::write_bytes::write;
use outside::{Failed, Sink};

/// Whether the byte is a letter, a digit or `_`.
pub fn is_word_byte(byte: u8) -> bool
    ensures { result ≡ lex.is_word_byte byte }
{
    byte.is_ascii_alphanumeric() || byte == b'_'
}

fn are_word_bytes(bytes: &[u8]) -> bool
    ensures { result ≡ list_all lex.is_word_byte bytes.now }
{
    bytes.iter().all(|&byte| is_word_byte(byte))
}

/// Whether the name is a lower-case letter, and then letters, digits and `_`.
pub fn is_lower_word(name: &[u8]) -> bool
    ensures { result ≡ spec.is_lower_word name.now }
{
    match name {
        [first, others @ ..] => first.is_ascii_lowercase() && are_word_bytes(others),
        [] => false,
    }
}

fn are_all_digits(bytes: &[u8]) -> bool
    ensures { result ≡ list_all is_ascii_digit bytes.now }
{
    bytes.iter().all(|byte| byte.is_ascii_digit())
}

fn are_digits(bytes: &[u8]) -> bool
    ensures { result ≡ spec.are_digits bytes.now }
{
    match bytes {
        [first, others @ ..] => first.is_ascii_digit() && are_all_digits(others),
        [] => false,
    }
}

fn is_integer(name: &[u8]) -> bool
    ensures { result ≡ spec.is_integer name.now }
{
    match name {
        [first, others @ ..] => are_digits(name) || (is_sign(*first) && are_digits(others)),
        [] => false,
    }
}

fn is_sign(byte: u8) -> bool
    ensures { result ≡ lex.is_sign byte }
{
    byte == b'+' || byte == b'-'
}

fn write_escaped<S: Sink>(sink: &mut S, byte: u8) -> Result<(), Failed>
    ensures took { OnOk result (Took S.tells S.written S.faults sink.old sink.new (spec.escaped byte)) }
    ensures stopped { OnErr result (Stopped S.tells S.written S.faults sink.old sink.new (spec.escaped byte)) }
{
    if byte == b'\'' || byte == b'\\' {
        write(sink, &[b'\\', byte])?;
    } else {
        write(sink, &[byte])?;
    }
    Ok(())
}

fn write_characters<S: Sink>(sink: &mut S, name: &[u8]) -> Result<(), Failed>
    ensures took { OnOk result (Took S.tells S.written S.faults sink.old sink.new (flat_map spec.escaped name.now)) }
    ensures stopped { OnErr result (Stopped S.tells S.written S.faults sink.old sink.new (flat_map spec.escaped name.now)) }
{
    for byte in name {
        write_escaped(sink, *byte)?;
    }
    Ok(())
}

pub fn write_quoted<S: Sink>(sink: &mut S, name: &[u8]) -> Result<(), Failed>
    ensures took { OnOk result (Took S.tells S.written S.faults sink.old sink.new (spec.quoted name.now)) }
    ensures stopped { OnErr result (Stopped S.tells S.written S.faults sink.old sink.new (spec.quoted name.now)) }
{
    write(sink, b"'")?;
    write_characters(sink, name)?;
    write(sink, b"'")?;
    Ok(())
}

/// Writes a name, in quotes unless it is a lower word.
pub fn write_name<S: Sink>(sink: &mut S, name: &[u8]) -> Result<(), Failed>
    ensures took { OnOk result (Took S.tells S.written S.faults sink.old sink.new (spec.name_text name.now)) }
    ensures stopped { OnErr result (Stopped S.tells S.written S.faults sink.old sink.new (spec.name_text name.now)) }
{
    if is_lower_word(name) {
        write(sink, name)
    } else {
        write_quoted(sink, name)
    }
}

/// Writes the name of a statement, in quotes unless it is a lower word or an integer.
pub fn write_label<S: Sink>(sink: &mut S, name: &[u8]) -> Result<(), Failed>
    ensures took { OnOk result (Took S.tells S.written S.faults sink.old sink.new (spec.label_text name.now)) }
    ensures stopped { OnErr result (Stopped S.tells S.written S.faults sink.old sink.new (spec.label_text name.now)) }
{
    if is_lower_word(name) || is_integer(name) {
        write(sink, name)
    } else {
        write_quoted(sink, name)
    }
}
