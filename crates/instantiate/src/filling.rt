//! Partial terms with something in their first hole.
ghost use Rattle.std.specs.Prelude.{◌≡◌, ◌++◌, [], IfOk, OnOk, unwrap_or};
ghost use Rattle.stt_core.specs.View.{the_type, the_head};
ghost use Rattle.search_spec.specs.Partial.{head as the_leaf, with_filling, with_holes};
ghost use Rattle.instantiate.specs.Internal.Blanks.{blanks};
ghost use Rattle.instantiate.specs.Internal.Holes.{filling, filling_all};

use crate::partial::{Partial, PartialNode, Partials};
use std::alloc::{AllocError, Global};
use stt_core::{Head, Ty};

impl Partials {
    /// Appends one hole, under its binders, for each argument of a function of the type.
    fn push_blanks(&mut self, alloc: Global, ty: &Ty) -> Result<(), AllocError>
        ensures { OnOk result (self.new ≡ self.old ++ blanks (the_type ty.now)) }
    {
        match ty {
            Ty::Base(_) => Ok(()),
            Ty::Arrow(argument, outcome) => {
                self.push(Partial::of_type(alloc, argument)?)?;
                self.push_blanks(alloc, outcome)?;
                Ok(())
            }
        }
    }

    /// Puts the filler in the first hole of them, where there is one. Then nothing is left of the filler.
    #[cycle(fill)]
    fn fill(&mut self, filler: &mut Option<Partial>)
        ensures filled { self.new ≡ (filling_all filler.old self.old).0 }
        ensures left { filler.new ≡ (filling_all filler.old self.old).1 }
    {
        for i in 0..self.items.len() {
            let partial = &mut self.items[i];
            partial.fill(filler);
        }
    }
}

impl Partial {
    /// A head of this type, with one hole, under its binders, for each argument.
    pub(crate) fn with_holes(alloc: Global, head: &Head, ty: &Ty) -> Result<Partial, AllocError>
        ensures { IfOk result (λ p. p ≡ with_holes (the_type ty.now) (the_leaf (the_head head.now))) }
    {
        let mut args = Partials::new(alloc);
        args.push_blanks(alloc, ty)?;
        Ok(Partial {
            node: PartialNode::App(head.try_clone(alloc)?, args),
        })
    }

    /// The partial term with a head of this type, and with holes for its arguments, in the first hole, where there is one.
    pub fn with_head(self, alloc: Global, head: &Head, ty: &Ty) -> Result<Partial, AllocError>
        ensures { IfOk result (λ p. p ≡ unwrap_or (with_filling (with_holes (the_type ty.now) (the_leaf (the_head head.now))) self) self) }
    {
        let mut filler = Some(Partial::with_holes(alloc, head, ty)?);
        let mut partial = self;
        partial.fill(&mut filler);
        Ok(partial)
    }

    /// Puts the filler in the first hole, where there is one. Then nothing is left of the filler.
    #[cycle(fill)]
    pub(crate) fn fill(&mut self, filler: &mut Option<Partial>)
        ensures filled { self.new ≡ (filling filler.old self.old).0 }
        ensures left { filler.new ≡ (filling filler.old self.old).1 }
    {
        match &mut self.node {
            PartialNode::Hole(_) => {
                if let Some(Partial { node }) = filler.take() {
                    self.node = node;
                }
            }
            PartialNode::Lam(_, body) => body.fill(filler),
            PartialNode::App(_, args) => args.fill(filler),
        }
    }
}
