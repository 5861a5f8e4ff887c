//! Which definition is taken from a formula.

ghost use Rattle.std.specs.Prelude.{◌≡◌, IfOk, option_map};
ghost use Rattle.stt_core.specs.View.{the_term};
ghost use Rattle.delta_defs.specs.Unfolding.{in_terms_of, if_it_may_follow, stated as has_form, taken_from as is_taken_from};
ghost use Rattle.delta_defs.specs.Internal.DefinitionView.{the_definition};

use crate::definition::{Definitions, Taken, mentions};
use crate::replace::{unfold_term, without_unfolded};
use std::alloc::{AllocError, Global};
use stt_core::Term;

/// The most nodes that the term of a definition may have.
pub(crate) const NODE_LIMIT: u64 = 100_000;

/// A name, by its place, and the term that a formula equates it with.
#[derive(Drop)]
pub struct Stated<'a> {
    pub place: u32,
    pub body: &'a Term,
}

/// The definition that a formula has the form of: an equation with a name on its left side.
pub(crate) fn as_definition(formula: &Term) -> Option<Stated>
    ensures { option_map (λ s. record { place = s.place; term = the_term s.body.now }) result ≡ has_form (the_term formula.now) }
{
    match formula {
        Term::App(left, body) => match &**left {
            Term::App(equality, name) => match (&**equality, &**name) {
                (Term::Eq(_), Term::Name(place)) => Some(Stated {
                    place: *place,
                    body: &**body,
                }),
                _ => None,
            },
            _ => None,
        },
        _ => None,
    }
}

/// The definition in terms of names that aren't defined by the earlier ones, where it may follow these.
fn following(
    alloc: Global,
    definitions: &Definitions,
    place: u32,
    body: &Term,
) -> Result<Option<Taken>, AllocError>
    ensures { IfOk result (λ o. option_map the_definition o ≡ if_it_may_follow definitions.now
        (in_terms_of definitions.now (record { place = place; term = the_term body.now }))) }
{
    if without_unfolded(body, definitions, NODE_LIMIT + 1) == 0 || definitions.have(place) {
        return Ok(None);
    }
    let term = unfold_term(alloc, body, definitions)?;
    if mentions(&term, place) {
        return Ok(None);
    }
    Ok(Some(Taken { place, term }))
}

/// The definition that is taken from a formula with its mark, after earlier ones, where one is.
pub(crate) fn taken_from(
    alloc: Global,
    definitions: &Definitions,
    mark: bool,
    formula: &Term,
) -> Result<Option<Taken>, AllocError>
    ensures { IfOk result (λ o. option_map the_definition o ≡ is_taken_from definitions.now mark (the_term formula.now)) }
{
    if !mark {
        return Ok(None);
    }
    match as_definition(formula) {
        None => Ok(None),
        Some(definition) => {
            let taken = following(alloc, definitions, definition.place, definition.body)?;
            Ok(taken)
        }
    }
}
