//! Refutations as they are written: trees whose names are bytes.

ghost use Rattle.std.specs.Prelude.{◌≡◌, ◌++◌, [], ◌∷◌, OnOk, OnErr, ◌<◌, Some, length, slice_get};

use outside::Bytes;
use std::alloc::{AllocError, Global};
use std::marker::Model;

/// A type: `$o`, `$i`, a base type by its name, or the functions from the first type to the second.
#[derive(Drop)]
pub enum TextTy {
    Form,
    Indiv,
    Named(Bytes),
    Arrow(Box<TextTy>, Box<TextTy>),
}

/// What stands at the head of a term.
pub enum TextHead {
    Bound(u32),
    Name(Bytes),
    Wit(u32),
    False,
    Not,
    Imp,
    All(TextTy),
    Eq(TextTy),
    Choice(TextTy),
    Desc(TextTy),
}

// Written out, so that a proof takes a drop as one call.
impl Drop for TextHead {
    fn drop(self) {
        match self {
            TextHead::Bound(_)
            | TextHead::Name(_)
            | TextHead::Wit(_)
            | TextHead::False
            | TextHead::Not
            | TextHead::Imp
            | TextHead::All(_)
            | TextHead::Eq(_)
            | TextHead::Choice(_)
            | TextHead::Desc(_) => {}
        }
    }
}

/// A term. Contracts see it as the plain tree that it is.
#[derive(Drop)]
#[cycle(text_term)]
pub struct TextTerm {
    pub node: TextNode,
}

/// A function, whose argument has the type, or a head with its arguments.
#[derive(Drop)]
#[cycle(text_term)]
pub enum TextNode {
    Lam(TextTy, Box<TextTerm>),
    App(TextHead, TextTerms),
}

/// A list of terms.
#[derive(Drop)]
#[cycle(text_term)]
pub struct TextTerms {
    items: Vec<TextTerm>,
}

impl Model for TextTerm {
    ghost use Rattle.refute_print.specs.Trees.{TermTree};
    ghost use Rattle.refute_print.specs.Internal.TreeCode.{term_tree_code};

    ghost Value = { TermTree };

    ghost coded = { term_tree_code };

    ghost use Rattle.refute_print.specs.Internal.TreeSizes.{tree_node_count};
    ghost use Rattle.refute_print.specs.TreeView.{the_text_node};

    ghost view = { λ a. the_text_node a.node };

    ghost size = { tree_node_count };

    ghost use Rattle.std.proofs.Common.{arith};
    ghost use Rattle.refute_print.specs.Internal.TreeFalls.{text_node_falls};

    ghost size_decreases = { λ a h. omega (arith, text_node_falls a.node) };
}

impl Model for TextTerms {
    ghost use Rattle.std.specs.Prelude.{List};
    ghost use Rattle.std.specs.Coded.{coded_list};
    ghost use Rattle.refute_print.specs.Trees.{TermTree};
    ghost use Rattle.refute_print.specs.Internal.TreeCode.{term_tree_code};

    ghost Value = { List TermTree };

    ghost coded = { coded_list term_tree_code };

    ghost view = { λ a. a.items.items };

    ghost use Rattle.std.proofs.Common.{arith};
    ghost use Rattle.refute_print.specs.Internal.TreeSizes.{tree_node_counts, terms_fall};

    ghost size = { tree_node_counts };

    ghost size_decreases = { λ a h. omega (arith, terms_fall a.items.items) };
}

impl TextTerms {
    pub fn new(alloc: Global) -> TextTerms
        ensures { result ≡ [] }
    {
        TextTerms {
            items: Vec::new(alloc),
        }
    }

    /// Most terms with arguments have one or two, so that room for one is taken at first.
    pub fn push(&mut self, term: TextTerm) -> Result<(), AllocError>
        ensures ok { OnOk result (self.new ≡ self.old ++ term ∷ []) }
        ensures err { OnErr result (self.new ≡ self.old) }
    {
        if self.items.is_empty() {
            self.items.reserve_exact(1)?;
        }
        self.items.push(term)?;
        Ok(())
    }

    pub fn len(&self) -> usize
        ensures { result ≡ length self.now }
    {
        self.items.len()
    }

    /// The term at a place of the list.
    pub fn at(&self, i: usize) -> &TextTerm
        requires { i < length self.now }
        ensures { slice_get self.now i ≡ Some result.now }
    {
        &self.items[i]
    }
}
