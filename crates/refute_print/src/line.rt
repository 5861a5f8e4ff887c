//! The lines of a text.

ghost use Rattle.std.specs.Prelude.{◌≡◌, ◌++◌, [], ◌∷◌, OnOk, OnErr, ◌<◌, Some, length, slice_get};
ghost use Rattle.refute_print.specs.Trees.{LiteralTree};

use crate::tree::{TextTerm, TextTerms};
use outside::Bytes;
use std::alloc::{AllocError, Global};
use std::marker::Model;
use std::rc::Rc;
use tableau_calculus::{Children, RuleUse};

/// A formula with a sign. Contracts see it as the plain tree that it is.
#[derive(Drop)]
pub struct TextLit {
    pub positive: bool,
    pub atom: TextTerm,
}

impl Model for TextLit {
    ghost use Rattle.refute_print.specs.Trees.{LiteralTree};
    ghost use Rattle.refute_print.specs.Internal.LiteralCode.{literal_tree_code};

    ghost Value = { LiteralTree };

    ghost coded = { literal_tree_code };

    ghost view = { λ l. record { positive = l.positive; atom = l.atom } };
}

/// A literal, and the place in the list to which it was pushed.
#[derive(Drop)]
struct Pushed {
    lit: TextLit,
    place: usize,
}

/// A list of literals. Lists share their literals.
#[derive(Drop)]
pub struct TextLits {
    items: Vec<Rc<Pushed>>,
    alloc: Global,
}

impl Model for TextLits {
    ghost use Rattle.std.specs.Prelude.{List, map};
    ghost use Rattle.std.specs.Coded.{coded_list};
    ghost use Rattle.refute_print.specs.Trees.{LiteralTree};
    ghost use Rattle.refute_print.specs.Internal.LiteralCode.{literal_tree_code};

    ghost Value = { List LiteralTree };

    ghost coded = { coded_list literal_tree_code };

    ghost view = { λ a. map (λ p. p.value.lit) a.items.items };
}

impl TextLits {
    pub fn new(alloc: Global) -> TextLits
        ensures { result ≡ [] }
    {
        TextLits {
            items: Vec::new(alloc),
            alloc,
        }
    }

    pub fn push(&mut self, lit: TextLit) -> Result<(), AllocError>
        ensures ok { OnOk result (self.new ≡ self.old ++ lit ∷ []) }
        ensures err { OnErr result (self.new ≡ self.old) }
    {
        let place = self.items.len();
        let shared = Rc::new(self.alloc, Pushed { lit, place })?;
        self.items.push(shared)?;
        Ok(())
    }

    /// Appends the literal at a place of another list, which shares it from then on.
    pub fn share(&mut self, other: &TextLits, i: usize) -> Result<(), AllocError>
        requires { i < length other.now }
        ensures ok { OnOk result ((lit : LiteralTree) → slice_get other.now i ≡ Some lit → self.new ≡ self.old ++ lit ∷ []) }
        ensures err { OnErr result (self.new ≡ self.old) }
    {
        let shared = Rc::clone(&other.items[i])?;
        self.items.push(shared)?;
        Ok(())
    }

    pub fn len(&self) -> usize
        ensures { result ≡ length self.now }
    {
        self.items.len()
    }

    /// The literal at a place of the list.
    pub fn at(&self, i: usize) -> &TextLit
        requires { i < length self.now }
        ensures { slice_get self.now i ≡ Some result.now }
    {
        &self.items[i].lit
    }

    /// The place in the list to which the literal at this place was pushed first, by which lists that share their literals may be read
    /// fast.
    pub fn pushed_at(&self, i: usize) -> usize
        requires { i < length self.now }
    {
        self.items[i].place
    }
}

/// A rule with what its instance takes. A place counts from 0.
pub type TextRule = RuleUse<usize, TextTerm, TextLit>;

/// A line: a branch, and the rule that closes it with the children.
#[derive(Drop)]
pub struct TextLine {
    pub branch: TextLits,
    pub rule: TextRule,
    pub children: Children,
}

/// The lines of a text.
#[derive(Drop)]
pub struct TextLines {
    items: Vec<TextLine>,
}

impl Model for TextLines {
    ghost use Rattle.std.specs.Prelude.{List};
    ghost use Rattle.std.specs.Coded.{codes};
    ghost use Rattle.refute_print.specs.Internal.TreeCode.{term_tree_code};
    ghost use Rattle.refute_print.specs.Internal.LiteralCode.{literal_tree_code};
    ghost use Rattle.refute_print.specs.declared.line.TextLine.{TextLine};

    ghost Value = { List TextLine };

    ghost coded = { Prim.hlevel (codes, term_tree_code, literal_tree_code) };

    ghost view = { λ a. a.items.items };
}

impl TextLines {
    pub fn new(alloc: Global) -> TextLines
        ensures { result ≡ [] }
    {
        TextLines {
            items: Vec::new(alloc),
        }
    }

    pub fn push(&mut self, line: TextLine) -> Result<(), AllocError>
        ensures ok { OnOk result (self.new ≡ self.old ++ line ∷ []) }
        ensures err { OnErr result (self.new ≡ self.old) }
    {
        self.items.push(line)?;
        Ok(())
    }

    pub fn len(&self) -> usize
        ensures { result ≡ length self.now }
    {
        self.items.len()
    }

    /// The line at a place of the list.
    pub fn at(&self, i: usize) -> &TextLine
        requires { i < length self.now }
        ensures { slice_get self.now i ≡ Some result.now }
    {
        &self.items[i]
    }
}

/// Names, as bytes.
#[derive(Drop)]
pub struct TextNames {
    items: Vec<Bytes>,
}

impl Model for TextNames {
    ghost use Rattle.std.specs.Prelude.{List, ℕ};
    ghost use Rattle.std.specs.Coded.{coded_list, coded_ℕ};

    ghost Value = { List (List ℕ) };

    ghost coded = { coded_list (coded_list coded_ℕ) };

    ghost view = { λ a. a.items.items };
}

impl TextNames {
    pub fn new(alloc: Global) -> TextNames
        ensures { result ≡ [] }
    {
        TextNames {
            items: Vec::new(alloc),
        }
    }

    pub fn push(&mut self, name: Bytes) -> Result<(), AllocError>
        ensures ok { OnOk result (self.new ≡ self.old ++ name ∷ []) }
        ensures err { OnErr result (self.new ≡ self.old) }
    {
        self.items.push(name)?;
        Ok(())
    }

    pub fn len(&self) -> usize
        ensures { result ≡ length self.now }
    {
        self.items.len()
    }

    /// The name at a place of the list.
    pub fn at(&self, i: usize) -> &[u8]
        requires { i < length self.now }
        ensures { slice_get self.now i ≡ Some result.now }
    {
        self.items[i].as_slice()
    }
}

/// A refutation as it is written: its version, which is 2 where definitions are unfolded and else 1, the names of these definitions, the
/// predicates of the witness rows, and the lines. `names_at` is the number of the file line behind the version, and `first` that at
/// which the first row stands, or else the first line, or else the end line.
#[derive(Drop)]
pub struct RefutationText {
    pub version: u32,
    pub names: TextNames,
    pub names_at: usize,
    pub witnesses: TextTerms,
    pub lines: TextLines,
    pub first: usize,
}
