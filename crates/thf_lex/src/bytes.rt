//! The bytes that fill tokens.
ghost use Rattle.std.specs.Prelude.{◌≡◌, ◌≤◌, length};
ghost use Rattle.std.specs.List.{prefix_len};
ghost use Rattle.std.specs.Char.{is_ascii_digit};
ghost use Rattle.thf_grammar.specs.Bytes as spec;

pub fn is_plain(quote: u8, byte: u8) -> bool
    ensures { result ≡ spec.is_plain quote byte }
{
    (32..=126).contains(&byte) && byte != quote && byte != b'\\'
}

pub fn is_escaped(quote: u8, byte: u8) -> bool
    ensures { result ≡ spec.is_escaped quote byte }
{
    byte == quote || byte == b'\\'
}

pub fn is_sign(byte: u8) -> bool
    ensures { result ≡ spec.is_sign byte }
{
    byte == b'+' || byte == b'-'
}

fn is_word_byte(byte: u8) -> bool
    ensures { result ≡ spec.is_word_byte byte }
{
    byte.is_ascii_alphanumeric() || byte == b'_'
}

pub fn is_white_space(byte: u8) -> bool
    ensures { result ≡ spec.is_white_space byte }
{
    matches!(byte, b'\t'..=b'\r' | b' ')
}

/// How many bytes at the front are letters, digits or `_`.
pub fn word_len(bytes: &[u8]) -> usize
    ensures len { result ≡ prefix_len spec.is_word_byte bytes.now }
    ensures within { result ≤ length bytes.now }
{
    bytes.iter().take_while(|b| is_word_byte(**b)).count()
}

/// How many bytes at the front are digits.
pub fn digits_len(bytes: &[u8]) -> usize
    ensures len { result ≡ prefix_len is_ascii_digit bytes.now }
    ensures within { result ≤ length bytes.now }
{
    bytes.iter().take_while(|b| b.is_ascii_digit()).count()
}

/// How many bytes at the front are white space.
pub fn white_space_len(bytes: &[u8]) -> usize
    ensures len { result ≡ prefix_len spec.is_white_space bytes.now }
    ensures within { result ≤ length bytes.now }
{
    bytes.iter().take_while(|b| is_white_space(**b)).count()
}

/// How many bytes stand before the first line feed, or all of them where there is none.
pub fn line_len(bytes: &[u8]) -> usize
    ensures len { result ≡ prefix_len spec.is_in_line bytes.now }
    ensures within { result ≤ length bytes.now }
{
    bytes.iter().take_while(|b| **b != b'\n').count()
}
