//! Partial terms: terms with holes in place of which terms are still to come.
ghost use Rattle.std.specs.Prelude.{◌≡◌, ◌<◌, ◌++◌, Some, [], ◌∷◌, length, IfOk, OnOk, OnErr, option_map, slice_get};
ghost use Rattle.stt_core.specs.View.{the_type};
ghost use Rattle.search_spec.specs.Partial.{first_hole, blank_partial};
ghost use Rattle.instantiate.specs.Internal.Holes.{base_among};

use std::alloc::{AllocError, Global};
use std::marker::Model;
use stt_core::{Head, Ty};

/// A canonical term with holes of base types. Contracts see it as the tree that it is.
#[derive(Drop)]
#[cycle(partial)]
pub struct Partial {
    pub(crate) node: PartialNode,
}

/// A hole, a function, whose argument has the type, or a head with its arguments.
#[derive(Drop)]
#[cycle(partial)]
pub enum PartialNode {
    Hole(u32),
    Lam(Ty, Box<Partial>),
    App(Head, Partials),
}

/// A list of partial terms.
#[derive(Drop)]
#[cycle(partial)]
pub struct Partials {
    pub(crate) items: Vec<Partial>,
}

impl Model for Partial {
    ghost use Rattle.search_spec.specs.Partial.{Partial};
    ghost use Rattle.instantiate.specs.Internal.PartialCode.{partial_code};

    ghost Value = { Partial };

    ghost coded = { partial_code };

    ghost use Rattle.instantiate.specs.Internal.PartialSizes.{partial_node_count};
    ghost use Rattle.instantiate.specs.PartialView.{the_partial_node};

    ghost view = { λ a. the_partial_node a.node };

    ghost size = { partial_node_count };

    ghost use Rattle.std.proofs.Common.{arith};
    ghost use Rattle.instantiate.specs.Internal.PartialFalls.{partial_node_falls};

    ghost size_decreases = { λ a h. omega (arith, partial_node_falls a.node) };
}

impl Model for Partials {
    ghost use Rattle.std.specs.Prelude.{List};
    ghost use Rattle.std.specs.Coded.{coded_list};
    ghost use Rattle.search_spec.specs.Partial.{Partial};
    ghost use Rattle.instantiate.specs.Internal.PartialCode.{partial_code};

    ghost Value = { List Partial };

    ghost coded = { coded_list partial_code };

    ghost view = { λ a. a.items.items };

    ghost use Rattle.std.proofs.Common.{arith};
    ghost use Rattle.instantiate.specs.Internal.PartialSizes.{partial_node_counts, partials_fall};

    ghost size = { partial_node_counts };

    ghost size_decreases = { λ a h. omega (arith, partials_fall a.items.items) };
}

impl Partials {
    pub(crate) fn new(alloc: Global) -> Partials
        ensures { result ≡ [] }
    {
        Partials {
            items: Vec::new(alloc),
        }
    }

    pub(crate) fn push(&mut self, partial: Partial) -> Result<(), AllocError>
        ensures ok { OnOk result (self.new ≡ self.old ++ partial ∷ []) }
        ensures err { OnErr result (self.new ≡ self.old) }
    {
        self.items.push(partial)?;
        Ok(())
    }

    pub(crate) fn len(&self) -> usize
        ensures { result ≡ length self.now }
    {
        self.items.len()
    }

    /// The partial term at a place of the list.
    pub(crate) fn at(&self, i: usize) -> &Partial
        requires { i < length self.now }
        ensures { slice_get self.now i ≡ Some result.now }
    {
        &self.items[i]
    }

    /// The base type of the first hole of them.
    #[cycle(hole_base)]
    fn hole_base(&self) -> Option<u32>
        ensures { result ≡ base_among self.now }
    {
        for i in 0..self.len() {
            match self.at(i).hole_base() {
                Some(base) => return Some(base),
                None => {}
            }
        }
        None
    }
}

impl Partial {
    /// One hole, under the binders of the type.
    pub fn of_type(alloc: Global, ty: &Ty) -> Result<Partial, AllocError>
        ensures { IfOk result (λ partial. partial ≡ blank_partial (the_type ty.now)) }
    {
        match ty {
            Ty::Base(n) => Ok(Partial {
                node: PartialNode::Hole(*n),
            }),
            Ty::Arrow(argument, outcome) => {
                let argument = argument.try_clone(alloc)?;
                let body = Box::new(alloc, Partial::of_type(alloc, outcome)?)?;
                Ok(Partial {
                    node: PartialNode::Lam(argument, body),
                })
            }
        }
    }

    /// The base type of the first hole, which is the leftmost one.
    #[cycle(hole_base)]
    pub fn hole_base(&self) -> Option<u32>
        ensures { result ≡ option_map (λ hole. hole.base) (first_hole [] self.now) }
    {
        match &self.node {
            PartialNode::Hole(base) => Some(*base),
            PartialNode::Lam(_, body) => body.hole_base(),
            PartialNode::App(_, args) => args.hole_base(),
        }
    }
}
