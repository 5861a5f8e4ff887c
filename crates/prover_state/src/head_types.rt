//! The types of the logic's own heads.
ghost use Rattle.std.specs.Prelude.{◌≡◌, List, Some, IfOk, IfSome};
ghost use Rattle.stt_core.specs.SimpleType.{SimpleType};
ghost use Rattle.stt_core.specs.Typing.{Scope, type_of};
ghost use Rattle.stt_core.specs.View.{the_type};
ghost use Rattle.prover_state.specs.Internal.Heads.{the_hole_head};
ghost use Rattle.prover_state.specs.Internal.HeadTypes.{IsBaseHeads, AreBaseHeads};

use crate::head::HoleHead;
use std::alloc::{AllocError, Global};
use std::marker::Model;
use stt_core::Ty;

/// Of how many base types the heads' types are kept.
const MOST: u32 = 64;

/// The types of the equality, the quantifier and the choice of a base type.
#[derive(Drop)]
struct BaseHeads {
    equality: Ty,
    quantifier: Ty,
    choice: Ty,
}

/// The types of the connectives, and those of the heads of the first base types, so that none is made twice.
#[derive(Drop)]
pub(crate) struct HeadTypes {
    formula: Ty,
    negation: Ty,
    implication: Ty,
    bases: Vec<BaseHeads>,
}

impl Model for HeadTypes {
    ghost use Rattle.std.specs.Prelude.{ℕ, length};
    ghost use Rattle.stt_core.specs.View.{the_type};
    ghost use Rattle.prover_state.specs.Internal.HeadTypes.{AreHeadTypes};

    ghost Value = { ℕ };

    ghost view = { λ t. length t.bases.items };

    ghost invariant = { λ t. AreHeadTypes (the_type t.formula) (the_type t.negation) (the_type t.implication) t.bases.items };
}

impl BaseHeads {
    /// Those of a base type.
    fn new(alloc: Global, n: u32) -> Result<BaseHeads, AllocError>
        ensures { IfOk result (IsBaseHeads n) }
    {
        let set = Ty::function(alloc, Ty::Base(n), Ty::Base(0))?;
        let equality = Ty::function(alloc, Ty::Base(n), set.try_clone(alloc)?)?;
        let quantifier = Ty::function(alloc, set.try_clone(alloc)?, Ty::Base(0))?;
        let choice = Ty::function(alloc, set, Ty::Base(n))?;
        Ok(BaseHeads {
            equality,
            quantifier,
            choice,
        })
    }
}

/// Those of the first base types.
fn first_bases(alloc: Global) -> Result<Vec<BaseHeads>, AllocError>
    ensures { IfOk result (λ bases. AreBaseHeads 0 bases.items) }
{
    let mut bases = Vec::new(alloc);
    for n in 0..MOST {
        bases.push(BaseHeads::new(alloc, n)?)?;
    }
    Ok(bases)
}

impl HeadTypes {
    pub(crate) fn new(alloc: Global) -> Result<HeadTypes, AllocError> {
        let negation = Ty::function(alloc, Ty::Base(0), Ty::Base(0))?;
        let implication = Ty::function(alloc, Ty::Base(0), negation.try_clone(alloc)?)?;
        let bases = first_bases(alloc)?;
        Ok(HeadTypes {
            formula: Ty::Base(0),
            negation,
            implication,
            bases,
        })
    }

    /// The type of a head, where it is kept.
    pub(crate) fn type_of(&self, head: HoleHead) -> Option<&Ty>
        ensures { IfSome result (λ ty. (scope : Scope) (ctx : List SimpleType) (a : SimpleType)
            → type_of scope ctx (the_hole_head head) ≡ Some a → the_type ty.now ≡ a) }
    {
        match head {
            HoleHead::False => Some(&self.formula),
            HoleHead::Not => Some(&self.negation),
            HoleHead::Imp => Some(&self.implication),
            HoleHead::Eq(n) => Some(&self.bases.get(n as usize)?.equality),
            HoleHead::All(n) => Some(&self.bases.get(n as usize)?.quantifier),
            HoleHead::Choice(n) => Some(&self.bases.get(n as usize)?.choice),
            HoleHead::Bound(_) | HoleHead::Name(_) | HoleHead::Wit(_) => None,
        }
    }
}
