//! How partial terms grow.
ghost use Rattle.std.specs.Prelude.{◌≡◌, [], IfOk, IfSome, is_some, option_map};
ghost use Rattle.stt_core.specs.View.{the_type, the_head};
ghost use Rattle.stt_core.specs.SimpleType.{target};
ghost use Rattle.search_spec.specs.Partial.{first_hole};
ghost use Rattle.term_bank.specs.Content.{content_scope, Grows};
ghost use Rattle.instantiate.specs.Growing.{IsTypedPartialTerm, TakesHead, fits, IsGrown};
ghost use Rattle.instantiate.specs.Internal.Fitting.{fitting, IsFilledWith};

use crate::enumerator::Enumerator;
use crate::partial::Partial;
use crate::slot::{Slot, slot_in};
use crate::whole::intern;
use std::alloc::{AllocError, Global};
use stt_core::{Context, Head, Ty};
use term_bank::{Bank, Id};

/// What a partial term grows to: a term, or a partial term that still has holes.
#[derive(Drop)]
pub enum Grown {
    Term(Id),
    More(Partial),
}

/// The number of the base type that a function of this type gives in the end.
pub fn target_of(ty: &Ty) -> u32
    ensures { result ≡ target (the_type ty.now) }
{
    match ty {
        Ty::Base(n) => *n,
        Ty::Arrow(_, outcome) => target_of(outcome),
    }
}

/// The type of a head at a partial term's first hole, where its target type is the hole's.
fn fitting_type(bank: &Bank, partial: &Partial, head: &Head) -> Result<Option<Ty>, AllocError>
    requires { TakesHead (content_scope bank.now) partial.now (the_head head.now) }
    ensures { IfOk result (λ o. option_map the_type o ≡ fitting (content_scope bank.now) (the_head head.now) (first_hole [] partial.now)) }
{
    match slot_in(bank, &Context::Empty, partial, head)? {
        Some(Slot { base, ty: Some(ty) }) => {
            if target_of(&ty) == base {
                Ok(Some(ty))
            } else {
                Ok(None)
            }
        }
        _ => unreachable!(),
    }
}

/// The partial term with a head in its first hole, where the head's target type is the hole's. The head gets one new hole, under its
/// binders, for each argument.
fn with_fitting(
    alloc: Global,
    bank: &Bank,
    partial: Partial,
    head: &Head,
) -> Result<Option<Partial>, AllocError>
    requires { TakesHead (content_scope bank.now) partial (the_head head.now) }
    ensures fits { IfOk result (λ o. is_some o ≡ fits (content_scope bank.now) (the_head head.now) (first_hole [] partial)) }
    ensures filled { IfOk result (λ o. IfSome o (IsFilledWith (content_scope bank.now) (the_head head.now) partial)) }
{
    // The signature is asked for its clause that what is declared is over it.
    let _declared = bank.sig();
    match fitting_type(bank, &partial, head)? {
        Some(ty) => Ok(Some(partial.with_head(alloc, head, &ty)?)),
        None => Ok(None),
    }
}

impl Enumerator {
    /// Fills the first hole of a partial term with a head, which gets one new hole, under its binders, for each argument. There is no
    /// answer where the head's target type isn't the hole's. Where memory runs out, the bank may have got further terms.
    pub fn grow(
        &self,
        bank: &mut Bank,
        partial: Partial,
        head: &Head,
    ) -> Result<Option<Grown>, AllocError>
        requires typed { IsTypedPartialTerm (content_scope bank.old) partial }
        requires takes { TakesHead (content_scope bank.old) partial (the_head head.now) }
        ensures fits { IfOk result (λ o. is_some o ≡ fits (content_scope bank.old) (the_head head.now) (first_hole [] partial)) }
        ensures grown { IfOk result (λ o. IfSome o (λ g. IsGrown (content_scope bank.old) (the_head head.now) partial bank.new g)) }
        ensures grows { Grows bank.old bank.new }
    {
        let _declared = bank.sig();
        let Some(grown) = with_fitting(self.alloc, bank, partial, head)? else {
            return Ok(None);
        };
        match grown.hole_base() {
            Some(_) => Ok(Some(Grown::More(grown))),
            None => Ok(Some(Grown::Term(intern(self.alloc, bank, &grown)?))),
        }
    }
}
