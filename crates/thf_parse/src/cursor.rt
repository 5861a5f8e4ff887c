//! The tokens that are left to read.
ghost use Rattle.std.specs.Prelude.{◌≡◌, IfOk};
ghost use Rattle.thf_grammar.specs.Words.{lexemes};
ghost use Rattle.thf_parse.specs.Internal.Outcome as spec;
ghost use Rattle.thf_parse.specs.Internal.Passes.{Passes};

use crate::refusal::Refusal;
use crate::words::{first_name, first_place, first_terminal, first_text};
use outside::Bytes;
use std::alloc::{AllocError, Global};
use std::marker::Model;
use thf_grammar::{Mark, Terminal};
use thf_lex::Token;

/// The tokens that are left to read, with the terminal of the first.
#[derive(Drop)]
pub struct Cursor<'a> {
    bytes: &'a [u8],
    tokens: &'a [Token],
    found: Terminal,
}

impl<'a> Model for Cursor<'a> {
    ghost use Rattle.std.specs.Prelude.{◌≡◌, List};
    ghost use Rattle.thf_grammar.specs.Words.{Lexeme, lexemes};
    ghost use Rattle.thf_parse.specs.Internal.Outcome.{first_terminal};

    ghost Value = { List Lexeme };

    ghost view = { λ c. lexemes c.bytes.now c.tokens.now };

    ghost invariant = { λ c. c.found ≡ first_terminal (lexemes c.bytes.now c.tokens.now) };
}

impl<'a> Cursor<'a> {
    pub fn new(bytes: &'a [u8], tokens: &'a [Token]) -> Self
        ensures { result ≡ lexemes bytes.now tokens.now }
    {
        Cursor {
            bytes,
            tokens,
            found: first_terminal(bytes, tokens),
        }
    }

    /// The terminal of the first token.
    pub fn found(&self) -> Terminal
        ensures { result ≡ spec.first_terminal self.now }
    {
        self.found
    }

    /// The place of the first token.
    pub fn place(&self) -> u32
        ensures { result ≡ spec.place_of_first self.now }
    {
        first_place(self.tokens)
    }

    /// The bytes of the first token.
    pub fn text(&self) -> &[u8]
        ensures { result.now ≡ spec.first_text self.now }
    {
        first_text(self.bytes, self.tokens)
    }

    /// The name that the first token is.
    pub fn name(&self, alloc: Global) -> Result<Bytes, AllocError>
        ensures { IfOk result (λ name. name ≡ spec.first_name self.now) }
    {
        first_name(alloc, self.bytes, self.tokens)
    }

    /// Passes the first token.
    #[tactic(auto, unfolding(crate::specs::Internal::Outcome::lexemes_behind))]
    pub fn advance(&mut self)
        ensures { self.new ≡ spec.lexemes_behind self.old }
    {
        if let [_, rest @ ..] = self.tokens {
            self.found = first_terminal(self.bytes, rest);
            self.tokens = rest;
        }
    }

    /// Passes the mark that the tokens begin with.
    #[tactic(auto, unfolding(crate::specs::Internal::Outcome::expect))]
    pub fn expect(&mut self, mark: Mark) -> Result<(), Refusal>
        ensures { Passes self.new result (spec.expect mark self.old) }
    {
        if !self.found().is_mark(mark) {
            return Err(Refusal::Wrong);
        }
        self.advance();
        Ok(())
    }
}
