//! Banks of shared terms.

ghost use Rattle.std.specs.Prelude.{◌≡◌, ◌<◌, [], ◌∷◌, ◌++◌, length, OnOk, OnErr, IsTrue, ◌↔◌};

use crate::marks::Marks;
use crate::node::{Id, Node};
use indexmap::IndexMap;
use std::alloc::{AllocError, Global};
use std::marker::Model;
use stt_core::{Signature, Ty, Types};

/// Canonical terms, each of which is there once (hash-consing: Ershov, On programming of arithmetic operations, 1958). They may have free
/// bound variables. A term's number is its place in the bank, where it stays. Where memory runs out in a call, the terms that were there
/// stay, and the bank can be used on.
#[derive(Drop)]
pub struct Bank {
    pub(crate) sig: Signature,
    pub(crate) wits: Types,
    pub(crate) nodes: IndexMap<Node, Marks>,
    pub(crate) alloc: Global,
}

impl Model for Bank {
    ghost use Rattle.term_bank.specs.Content.{Content};
    ghost use Rattle.term_bank.specs.Internal.ContentCode.{content_code};

    ghost Value = { Content };

    ghost coded = { content_code };

    ghost use Rattle.term_bank.specs.Internal.Inside.{the_content, IsSoundBank};

    ghost view = { the_content };

    ghost invariant = { IsSoundBank };
}

impl Bank {
    ghost use Rattle.std.specs.Prelude.{map, ℕ};
    ghost use Rattle.stt_core.specs.SimpleType.{is_declared};
    ghost use Rattle.stt_core.specs.View.{the_type};
    ghost use Rattle.stt_core.specs.Typing.{AreDeclared};
    ghost use Rattle.term_bank.specs.Content.{Content, content_scope};
    ghost use Rattle.term_bank.specs.Terms.{term_at, shape_term, IsBelow, IsTypedTerm};
    ghost use Rattle.term_bank.specs.NodeView.{the_shape};
    ghost use Rattle.term_bank.specs.Internal.MarksView.{IsMarked};

    /// A bank without terms and without witnesses.
    pub fn new(alloc: Global, sig: Signature) -> Bank
        requires declared { AreDeclared (length sig.bases) (map (λ c. c.type) sig.consts) }
        ensures { result ≡ record { bases = sig.bases; consts = sig.consts; witnesses = []; terms = [] } }
    {
        Bank {
            sig,
            wits: Types::new(alloc),
            nodes: IndexMap::new(alloc),
            alloc,
        }
    }

    /// How many terms there are.
    pub fn len(&self) -> usize
        ensures { result ≡ length self.now.terms }
    {
        self.nodes.len()
    }

    /// The node of a term.
    pub fn node(&self, id: Id) -> &Node
        requires { id < length self.now.terms }
        ensures term { term_at self.now.terms id ≡ shape_term self.now.terms (the_shape result.now) }
        ensures below { IsBelow id (the_shape result.now) }
        ensures typed { IsTypedTerm (content_scope self.now) (term_at self.now.terms id) }
    {
        match self.nodes.get_index(id as usize) {
            Some((node, _)) => node,
            None => unreachable!(),
        }
    }

    /// No term stands at two places. The length is asked for its clause that the keys differ.
    pub(crate) fn terms_differ(&self)
        ensures { (i j : ℕ) → i < length self.now.terms → j < length self.now.terms → term_at self.now.terms i ≡ term_at self.now.terms j
            → i ≡ j }
    {
        let _len = self.nodes.len();
    }

    /// The marks of a term.
    pub(crate) fn marks(&self, id: Id) -> Marks
        requires { id < length self.now.terms }
        ensures { IsMarked (content_scope self.now) (term_at self.now.terms id) result }
    {
        match self.nodes.get_index(id as usize) {
            Some((_, marks)) => *marks,
            None => unreachable!(),
        }
    }
}
