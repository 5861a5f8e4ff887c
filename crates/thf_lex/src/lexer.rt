//! The reading of bytes into tokens.
ghost use Rattle.std.specs.Prelude.{◌≡◌, ◌^◌, ◌≤◌, length, IfOk};
ghost use Rattle.thf_grammar.specs.Reading.{AreTokens, token_at};

use crate::piece::{Piece, first_piece};
use std::alloc::{AllocError, Global};
use thf_grammar::{Token, TokenKind, Tokens};

/// The tokens of a file.
pub fn lex(alloc: Global, bytes: &[u8]) -> Result<Tokens, AllocError>
    requires { length bytes.now ≤ 2 ^ 24 }
    ensures { IfOk result (AreTokens bytes.now) }
{
    let mut tokens = Tokens::new(alloc);
    let mut at = 0;
    loop {
        match first_piece(&bytes[at..]) {
            Piece::Gap(len) => at += len,
            Piece::Word(kind, len) => {
                tokens.push(token(kind, at, at + len))?;
                at += len;
            }
            Piece::Bad => {
                tokens.push(token(TokenKind::Bad, at, at + 1))?;
                return Ok(tokens);
            }
            Piece::End => {
                tokens.push(token(TokenKind::End, at, at))?;
                return Ok(tokens);
            }
        }
    }
}

fn token(kind: TokenKind, from: usize, to: usize) -> Token
    requires from { from ≤ 2 ^ 24 }
    requires to { to ≤ 2 ^ 24 }
    ensures { result ≡ token_at kind from to }
{
    Token {
        kind,
        from: from as u32,
        to: to as u32,
    }
}
