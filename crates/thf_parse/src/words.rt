//! The first of some tokens.
ghost use Rattle.std.specs.Prelude.{◌≡◌, ℕ, List, length, slice_range, IfOk};
ghost use Rattle.thf_grammar.specs.Words.{lexemes, unescaped, name_in};
ghost use Rattle.thf_parse.specs.Internal.Outcome as spec;
ghost use Rattle.thf_grammar.specs.Terminals.{of_kind};

use crate::terminal::terminal_of;
use outside::Bytes;
use std::alloc::{AllocError, Global};
use thf_grammar::Terminal;
use thf_lex::{Token, TokenKind};

/// The bytes of a token.
fn text<'b>(bytes: &'b [u8], token: &Token) -> &'b [u8]
    ensures { result.now ≡ slice_range bytes.now token.now.from token.now.to }
{
    clipped(bytes, token.from as usize, token.to as usize)
}

/// The part of the bytes between two places.
fn clipped(bytes: &[u8], from: usize, to: usize) -> &[u8]
    ensures { result.now ≡ slice_range bytes.now from to }
{
    let to = to.min(bytes.len());
    let from = from.min(to);
    &bytes[from..to]
}

/// The terminal of a token. Words are told by their kind, without their text.
fn terminal(bytes: &[u8], token: &Token) -> Terminal
    ensures { result ≡ of_kind token.now.kind (slice_range bytes.now token.now.from token.now.to) }
{
    match token.kind {
        TokenKind::Lower => Terminal::Lower,
        TokenKind::Upper => Terminal::Upper,
        kind => terminal_of(kind, text(bytes, token)),
    }
}

/// The terminal of the first token.
#[tactic(auto, unfolding(crate::specs::Internal::Outcome::first_terminal, thf_grammar::specs::Words::terminal_of))]
pub fn first_terminal(bytes: &[u8], tokens: &[Token]) -> Terminal
    ensures { result ≡ spec.first_terminal (lexemes bytes.now tokens.now) }
{
    match tokens {
        [token, ..] => terminal(bytes, token),
        [] => Terminal::Other,
    }
}

/// The bytes of the first token.
#[tactic(auto, unfolding(crate::specs::Internal::Outcome::first_text))]
pub fn first_text<'b>(bytes: &'b [u8], tokens: &[Token]) -> &'b [u8]
    ensures { result.now ≡ spec.first_text (lexemes bytes.now tokens.now) }
{
    match tokens {
        [token, ..] => text(bytes, token),
        [] => &[],
    }
}

/// The place of the first token.
#[tactic(auto, unfolding(crate::specs::Internal::Outcome::place_of_first))]
pub fn first_place(tokens: &[Token]) -> u32
    ensures { (bytes : List ℕ) → result ≡ spec.place_of_first (lexemes bytes tokens.now) }
{
    match tokens {
        [token, ..] => token.from,
        [] => 0,
    }
}

/// The characters of a quoted name, without the backslashes before them.
fn unescaped(alloc: Global, text: &[u8]) -> Result<Bytes, AllocError>
    ensures { IfOk result (λ name. name ≡ unescaped text.now) }
{
    let mut name = Bytes::new(alloc);
    let mut rest = text;
    while let [byte, more @ ..] = rest {
        match more {
            [next, after @ ..] if *byte == b'\\' => {
                name.push(*next)?;
                rest = after;
            }
            _ => {
                name.push(*byte)?;
                rest = more;
            }
        }
    }
    Ok(name)
}

/// The name that a token of this kind with this text is.
fn name_in(alloc: Global, kind: TokenKind, text: &[u8]) -> Result<Bytes, AllocError>
    ensures { IfOk result (λ name. name ≡ name_in kind text.now) }
{
    match kind {
        TokenKind::Quoted => unescaped(alloc, clipped(text, 1, text.len().saturating_sub(1))),
        TokenKind::Lower
        | TokenKind::Upper
        | TokenKind::Dollar
        | TokenKind::Integer
        | TokenKind::Distinct
        | TokenKind::Symbol
        | TokenKind::End
        | TokenKind::Bad => Bytes::from_slice(alloc, text),
    }
}

/// The name that the first token is.
#[tactic(auto, unfolding(crate::specs::Internal::Outcome::first_name, thf_grammar::specs::Words::name_of))]
pub fn first_name(alloc: Global, bytes: &[u8], tokens: &[Token]) -> Result<Bytes, AllocError>
    ensures { IfOk result (λ name. name ≡ spec.first_name (lexemes bytes.now tokens.now)) }
{
    match tokens {
        [token, ..] => name_in(alloc, token.kind, text(bytes, token)),
        [] => Ok(Bytes::new(alloc)),
    }
}
