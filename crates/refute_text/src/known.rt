//! The literals of branches that were read, by their texts.

ghost use Rattle.std.specs.Prelude.{◌≡◌, ◌<◌, ◌++◌, ◌∷◌, [], true, Some, length, slice_get, OnOk, IfOk, IfErr, IfSome, IsTrue};
ghost use Rattle.refute_print.specs.Trees.{LiteralTree};
ghost use Rattle.refute_print.specs.Limits.{IsLiteralText};
ghost use Rattle.refute_print.specs.Text.{literal_text};
ghost use Rattle.refute_text.specs.Internal.Known.{ends_literal};
ghost use Rattle.refute_text.specs.Internal.LineReader.{literal_text_at};
ghost use Rattle.refute_text.specs.Internal.Refusals.{IsReaderRefusal, AppendsRead};

use crate::read_rule::read_literal;
use crate::refusal::Refusal;
use indexmap::IndexSet;
use refute_print::{TextLit, TextLits};
use std::alloc::{AllocError, Global};
use std::marker::Model;

/// A prefix of bytes, and what follows it.
#[derive(Drop)]
struct Split<'a> {
    front: &'a [u8],
    rest: &'a [u8],
}

/// Whether a comma follows, or the bracket behind the last literal of a branch.
fn is_behind_literal(bytes: &[u8]) -> bool
    ensures { IsTrue result → ends_literal bytes.now ≡ true }
{
    match bytes {
        [b',', ..] => true,
        [b']', b' ', b'[', ..] => true,
        _ => false,
    }
}

/// A prefix that is the text of the literal there, unless a name in quotes has a comma or brackets.
fn until_end(bytes: &[u8]) -> Split<'_>
    ensures whole { result.front.now ++ result.rest.now ≡ bytes.now }
    ensures ends { ends_literal result.rest.now ≡ true }
{
    let mut end = 0;
    while end < bytes.len() && !is_behind_literal(&bytes[end..]) {
        end += 1;
    }
    Split {
        front: &bytes[..end],
        rest: &bytes[end..],
    }
}

/// Literals, each once, and their texts in the same order.
#[derive(Drop)]
pub(crate) struct Known<'a> {
    texts: IndexSet<&'a [u8]>,
    literals: TextLits,
}

impl<'a> Model for Known<'a> {
    ghost use Rattle.std.specs.Prelude.{List};
    ghost use Rattle.std.specs.Coded.{coded_list};
    ghost use Rattle.refute_print.specs.Trees.{LiteralTree};
    ghost use Rattle.refute_print.specs.Internal.LiteralCode.{literal_tree_code};
    ghost use Rattle.refute_text.specs.Internal.Known.{AreTexts};

    ghost Value = { List LiteralTree };

    ghost coded = { coded_list literal_tree_code };

    ghost view = { λ k. k.literals };

    ghost invariant = { λ k. AreTexts k.literals k.texts.keys };
}

impl<'a> Known<'a> {
    pub(crate) fn new(alloc: Global) -> Self {
        Known {
            texts: IndexSet::new(alloc),
            literals: TextLits::new(alloc),
        }
    }

    /// The place of a literal, which is kept where it isn't there yet.
    fn place_of(&mut self, text: &'a [u8], lit: TextLit) -> Result<usize, AllocError>
        requires text { text.now ≡ literal_text lit }
        requires literal { IsLiteralText lit }
        ensures { IfOk result (λ place. slice_get self.new place ≡ Some lit) }
    {
        let (place, is_new) = self.texts.insert_full(text)?;
        if is_new {
            if let Err(error) = self.literals.push(lit) {
                self.texts.truncate(self.literals.len());
                return Err(error);
            }
        } else {
            drop(lit);
        }
        Ok(place)
    }

    /// Appends the literal of a place to the list, which shares it.
    fn share(&self, place: usize, literals: &mut TextLits) -> Result<(), AllocError>
        requires { place < length self.now }
        ensures { OnOk result ((lit : LiteralTree) → slice_get self.now place ≡ Some lit → literals.new ≡ literals.old ++ lit ∷ []) }
    {
        literals.share(&self.literals, place)?;
        Ok(())
    }

    /// The place of the literal with this text, where it was read before.
    fn find(&self, text: &[u8]) -> Option<usize>
        ensures { IfSome result (λ place. (lit : LiteralTree) × (slice_get self.now place ≡ Some lit) × (literal_text lit ≡ text.now)
            × IsLiteralText lit) }
    {
        self.texts.get_index_of(&text)
    }

    /// Reads the literal at the front of the bytes, which may be there already, and appends it to the list. Answers what follows it.
    fn read_new(
        &mut self,
        alloc: Global,
        literals: &mut TextLits,
        bytes: &'a [u8],
    ) -> Result<&'a [u8], Refusal>
        ensures read { IfOk result (λ rest. AppendsRead literals.old literals.new (literal_text_at bytes.now) rest.now) }
        ensures refused { IfErr result (λ e. IsReaderRefusal e (literal_text_at bytes.now)) }
    {
        let read = read_literal(alloc, bytes)?;
        let text = &bytes[..bytes.len() - read.rest.len()];
        let place = self.place_of(text, read.literal)?;
        self.share(place, literals)?;
        Ok(read.rest)
    }

    /// Appends the literal at the front of the bytes to the list, and answers what follows it. A literal whose text was read before is
    /// shared.
    pub(crate) fn read(
        &mut self,
        alloc: Global,
        literals: &mut TextLits,
        bytes: &'a [u8],
    ) -> Result<&'a [u8], Refusal>
        ensures read { IfOk result (λ rest. AppendsRead literals.old literals.new (literal_text_at bytes.now) rest.now) }
        ensures refused { IfErr result (λ e. IsReaderRefusal e (literal_text_at bytes.now)) }
    {
        let split = until_end(bytes);
        match self.find(split.front) {
            Some(place) => {
                self.share(place, literals)?;
                Ok(split.rest)
            }
            None => self.read_new(alloc, literals, bytes),
        }
    }
}
