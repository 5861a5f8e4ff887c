//! What is offered to holes, by numbers.
ghost use Rattle.std.specs.Prelude.{◌≡◌, ℕ, [], length, map, filter, IfOk, OnOk};
ghost use Rattle.stt_core.specs.SimpleType.{base, target};
ghost use Rattle.stt_core.specs.View.{the_type};
ghost use Rattle.instantiate.specs.Listing.{ids_of, with_listed};
ghost use Rattle.search_spec.specs.Heads.{is_offered, places_to};
ghost use Rattle.head_offers.specs.Offering.{the_offers};
ghost use Rattle.prover_state.specs.Internal.Offering.{offered_among, ListsOffers};

use crate::fitting::small;
use crate::head_types::HeadTypes;
use head_offers::{Offers, is_offered};
use instantiate::{Enumerator, target_of};
use std::alloc::{AllocError, Global};
use stt_core::{Consts, Signature, Ty};

/// What is offered, by numbers: the names by their target types, and the base types other than that of formulas; and the types of the
/// logic's own heads.
#[derive(Drop)]
pub(crate) struct Offered {
    pub(crate) names: Enumerator,
    pub(crate) bases: Vec<u32>,
    pub(crate) logical: HeadTypes,
}

/// Lists a name of a type by its target type.
fn list_name(names: &mut Enumerator, ty: &Ty, i: usize) -> Result<(), AllocError>
    ensures { OnOk result (names.new ≡ with_listed (base (target (the_type ty.now))) i names.old) }
{
    let number = small(i)?;
    names.add_term(&Ty::Base(target_of(ty)), number)?;
    Ok(())
}

/// The numbers of the names that are offered, by their target types.
fn names_by_target(alloc: Global, consts: &Consts, flags: &[bool]) -> Result<Enumerator, AllocError>
    ensures { IfOk result (λ names. (n : ℕ) → ids_of (base n) names ≡ filter (is_offered flags.now)
        (places_to n 0 (map (λ c. c.type) consts.now))) }
{
    let mut names = Enumerator::new(alloc);
    for i in 0..consts.len() {
        match consts.type_of(i) {
            Some(ty) => {
                if is_offered(flags, i) {
                    list_name(&mut names, ty, i)?;
                }
            }
            None => unreachable!(),
        }
    }
    Ok(names)
}

/// The base types other than that of formulas that are offered, where so many are declared.
fn offered_bases(alloc: Global, offers: &Offers, declared: usize) -> Result<Vec<u32>, AllocError>
    ensures { IfOk result (λ numbers. map base numbers.items ≡ offered_among (the_offers offers.now) declared) }
{
    let last = small(declared)? as usize;
    let mut numbers = Vec::new(alloc);
    for i in 0..last + 1 {
        let number = small(i + 1)?;
        if is_offered(offers.bases.as_slice(), number as usize) {
            numbers.push(number)?;
        }
    }
    Ok(numbers)
}

impl Offered {
    /// What is offered of what is declared.
    pub(crate) fn listed(
        alloc: Global,
        sig: &Signature,
        offers: &Offers,
    ) -> Result<Self, AllocError>
        ensures { IfOk result (λ offered. ListsOffers (the_offers offers.now) offered.names offered.bases.items
            (record { bases = length sig.now.bases; names = map (λ c. c.type) sig.now.consts; witnesses = [] })) }
    {
        let bases = offered_bases(alloc, offers, sig.bases.len())?;
        let names = names_by_target(alloc, &sig.consts, offers.names.as_slice())?;
        let logical = HeadTypes::new(alloc)?;
        Ok(Offered {
            names,
            bases,
            logical,
        })
    }
}
