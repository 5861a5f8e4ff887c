//! Tokens and lists of them.
ghost use Rattle.std.specs.Prelude.{◌≡◌, [], ◌∷◌, ◌++◌, OnOk, OnErr};

use std::alloc::{AllocError, Global};
use std::marker::Model;

/// What a token is. Which symbol or which dollar word it is follows from its bytes.
#[derive(Clone, Copy, PartialEq, Eq)]
pub enum TokenKind {
    Lower,
    Upper,
    Quoted,
    Dollar,
    Integer,
    Distinct,
    Symbol,
    /// The end of the bytes.
    End,
    /// A byte at which no token begins.
    Bad,
}

/// A token from the byte `from` up to, but not including, the byte `to`.
#[derive(Clone, Copy, PartialEq, Eq)]
pub struct Token {
    pub kind: TokenKind,
    pub from: u32,
    pub to: u32,
}

/// Tokens in their order.
#[derive(Drop)]
pub struct Tokens {
    items: Vec<Token>,
}

impl Model for Tokens {
    ghost use Rattle.std.specs.Prelude.{List};
    ghost use Rattle.thf_grammar.specs.declared.token.Token.{Token};

    ghost Value = { List Token };

    ghost view = { λ t. t.items.items };
}

impl Tokens {
    pub fn new(alloc: Global) -> Self
        ensures { result ≡ [] }
    {
        Tokens {
            items: Vec::new(alloc),
        }
    }

    pub fn push(&mut self, token: Token) -> Result<(), AllocError>
        ensures ok { OnOk result (self.new ≡ self.old ++ token ∷ []) }
        ensures err { OnErr result (self.new ≡ self.old) }
    {
        self.items.push(token)?;
        Ok(())
    }

    pub fn as_slice(&self) -> &[Token]
        ensures { result.now ≡ self.now }
    {
        &self.items
    }
}
