//! Nodes of shared terms.

ghost use Rattle.std.specs.Prelude.{◌≡◌, ◌<◌, [], ◌∷◌, ◌++◌, length, slice_get, Some, IfOk, OnOk, OnErr};

use smallvec::SmallVec;
use std::alloc::{AllocError, Global};
use std::marker::Model;
use stt_core::{Head, Ty};

// Most heads have at most this many arguments, and then their list takes no allocation.
const INLINE: usize = 4;

/// The number of a term, by which a bank knows it: its place in the bank's list.
pub type Id = u32;

/// A list of numbers of terms.
pub struct Ids {
    items: SmallVec<Id, INLINE>,
}

// Written out, so that a proof takes a drop as one call.
impl Drop for Ids {
    fn drop(self) {
        let Ids { items: _ } = self;
    }
}

impl Model for Ids {
    ghost use Rattle.std.specs.Prelude.{List, ℕ};

    ghost Value = { List ℕ };

    ghost view = { λ ids. ids.items.items };
}

impl Ids {
    pub fn new(alloc: Global) -> Ids
        ensures { result ≡ [] }
    {
        Ids {
            items: SmallVec::new(alloc),
        }
    }

    /// The list of these numbers.
    pub fn from_slice(alloc: Global, ids: &[Id]) -> Result<Ids, AllocError>
        ensures { IfOk result (λ list. list ≡ ids.now) }
    {
        Ok(Ids {
            items: SmallVec::from_slice(alloc, ids)?,
        })
    }

    pub fn push(&mut self, id: Id) -> Result<(), AllocError>
        ensures ok { OnOk result (self.new ≡ self.old ++ id ∷ []) }
        ensures err { OnErr result (self.new ≡ self.old) }
    {
        self.items.push(id)?;
        Ok(())
    }

    /// Adds a number before those of the list.
    pub fn push_front(&mut self, id: Id) -> Result<(), AllocError>
        ensures ok { OnOk result (self.new ≡ id ∷ self.old) }
        ensures err { OnErr result (self.new ≡ self.old) }
    {
        self.items.insert(0, id)?;
        Ok(())
    }

    pub fn len(&self) -> usize
        ensures { result ≡ length self.now }
    {
        self.items.len()
    }

    /// The number at a place of the list.
    pub fn at(&self, i: usize) -> Id
        requires { i < length self.now }
        ensures { slice_get self.now i ≡ Some result }
    {
        self.items[i]
    }

    pub fn as_slice(&self) -> &[Id]
        ensures { result.now ≡ self.now }
    {
        self.items.as_slice()
    }
}

/// What stands at the root of a term: a binder, or a head with all its arguments. The terms below it are given by their numbers.
#[derive(Drop)]
pub enum Node {
    Lam { ty: Ty, body: Id },
    App { head: Head, args: Ids },
}

impl Node {
    ghost use Rattle.stt_core.specs.View.{the_type, the_head};
    ghost use Rattle.term_bank.specs.NodeView.{the_shape};
    ghost use Rattle.term_bank.specs.Shape.{abstraction, spine};

    /// The node of a function, with a copy of its type.
    pub(crate) fn lam(alloc: Global, ty: &Ty, body: Id) -> Result<Node, AllocError>
        ensures { IfOk result (λ node. the_shape node ≡ abstraction (the_type ty.now) body) }
    {
        let ty = ty.try_clone(alloc)?;
        Ok(Node::Lam { ty, body })
    }

    /// The node of a head with its arguments, with copies of both.
    pub(crate) fn app(alloc: Global, head: &Head, args: &[Id]) -> Result<Node, AllocError>
        ensures { IfOk result (λ node. the_shape node ≡ spine (the_head head.now) args.now) }
    {
        let head = head.try_clone(alloc)?;
        let args = Ids::from_slice(alloc, args)?;
        Ok(Node::App { head, args })
    }

    /// A copy of the node.
    #[inline(never)]
    pub fn try_clone(&self, alloc: Global) -> Result<Node, AllocError>
        ensures { IfOk result (λ node. the_shape node ≡ the_shape self.now) }
    {
        match self {
            Node::Lam { ty, body } => Node::lam(alloc, ty, *body),
            Node::App { head, args } => Node::app(alloc, head, args.as_slice()),
        }
    }
}
