//! What stands at the front of the bytes that are left.
ghost use Rattle.std.specs.Prelude.{◌≡◌, ◌<◌, ◌⊎◌, length, slice_index};
ghost use Rattle.thf_grammar.specs.Internal.Kind.{kind_of, IsQuoteOf};
ghost use Rattle.thf_lex.specs.Internal.Piece.{IsFirst};

use crate::bytes::{digits_len, is_sign, is_white_space, line_len, white_space_len, word_len};
use crate::comment::block_comment_len;
use crate::quoted::quoted_len;
use crate::symbol::symbol_len;
use thf_grammar::TokenKind;

/// A piece with its number of bytes.
#[derive(Clone, Copy)]
pub enum Piece {
    /// White space or a comment.
    Gap(usize),
    Word(TokenKind, usize),
    /// A byte that begins nothing.
    Bad,
    End,
}

/// The piece at the front: the longest token, the longest white space, or the comment.
pub fn first_piece(bytes: &[u8]) -> Piece
    ensures { IsFirst bytes.now result }
{
    let Some(first) = bytes.first() else {
        return Piece::End;
    };
    match kind_of(*first) {
        TokenKind::Lower => word(bytes, TokenKind::Lower),
        TokenKind::Upper => word(bytes, TokenKind::Upper),
        TokenKind::Integer => integer(bytes),
        TokenKind::Quoted => quoted(bytes, TokenKind::Quoted, b'\''),
        TokenKind::Distinct => quoted(bytes, TokenKind::Distinct, b'"'),
        TokenKind::Dollar => dollar_word(bytes),
        TokenKind::Symbol => symbol(bytes),
        TokenKind::End | TokenKind::Bad => gap(bytes),
    }
}

/// The kind of the tokens that begin with this byte, or `Bad` where no token does.
fn kind_of(byte: u8) -> TokenKind
    ensures { result ≡ kind_of byte }
{
    match byte {
        b'a'..=b'z' => TokenKind::Lower,
        b'A'..=b'Z' => TokenKind::Upper,
        b'0'..=b'9' | b'+' | b'-' => TokenKind::Integer,
        b'\'' => TokenKind::Quoted,
        b'"' => TokenKind::Distinct,
        b'$' => TokenKind::Dollar,
        b'('
        | b')'
        | b'['
        | b']'
        | b','
        | b'.'
        | b':'
        | b'>'
        | b'~'
        | b'&'
        | b'|'
        | b'='
        | b'<'
        | b'!'
        | b'?'
        | b'^'
        | b'@' => TokenKind::Symbol,
        _ => TokenKind::Bad,
    }
}

fn word(bytes: &[u8], kind: TokenKind) -> Piece
    requires some { 0 < length bytes.now }
    requires kind { kind_of (slice_index bytes.now 0) ≡ kind }
    requires letters { (kind ≡ TokenKind.Lower) ⊎ (kind ≡ TokenKind.Upper) }
    ensures { IsFirst bytes.now result }
{
    Piece::Word(kind, word_len(bytes))
}

fn integer(bytes: &[u8]) -> Piece
    requires some { 0 < length bytes.now }
    requires kind { kind_of (slice_index bytes.now 0) ≡ TokenKind.Integer }
    ensures { IsFirst bytes.now result }
{
    if !is_sign(bytes[0]) {
        return Piece::Word(TokenKind::Integer, digits_len(bytes));
    }
    match digits_len(&bytes[1..]) {
        0 => Piece::Bad,
        digits => Piece::Word(TokenKind::Integer, 1 + digits),
    }
}

fn quoted(bytes: &[u8], kind: TokenKind, quote: u8) -> Piece
    requires some { 0 < length bytes.now }
    requires opened { slice_index bytes.now 0 ≡ quote }
    requires kind { IsQuoteOf kind quote }
    ensures { IsFirst bytes.now result }
{
    match quoted_len(bytes, quote) {
        Some(len) => Piece::Word(kind, len),
        None => Piece::Bad,
    }
}

fn dollar_word(bytes: &[u8]) -> Piece
    requires some { 0 < length bytes.now }
    requires kind { kind_of (slice_index bytes.now 0) ≡ TokenKind.Dollar }
    ensures { IsFirst bytes.now result }
{
    match bytes {
        [_, b'a'..=b'z', ..] => Piece::Word(TokenKind::Dollar, 1 + word_len(&bytes[1..])),
        _ => Piece::Bad,
    }
}

fn symbol(bytes: &[u8]) -> Piece
    requires some { 0 < length bytes.now }
    requires kind { kind_of (slice_index bytes.now 0) ≡ TokenKind.Symbol }
    ensures { IsFirst bytes.now result }
{
    match symbol_len(bytes) {
        0 => Piece::Bad,
        len => Piece::Word(TokenKind::Symbol, len),
    }
}

fn gap(bytes: &[u8]) -> Piece
    requires some { 0 < length bytes.now }
    requires kind { kind_of (slice_index bytes.now 0) ≡ TokenKind.Bad }
    ensures { IsFirst bytes.now result }
{
    match bytes[0] {
        b'%' => Piece::Gap(line_len(bytes)),
        b'/' => match block_comment_len(bytes) {
            Some(len) => Piece::Gap(len),
            None => Piece::Bad,
        },
        byte if is_white_space(byte) => Piece::Gap(white_space_len(bytes)),
        _ => Piece::Bad,
    }
}
