//! Rows and literals of a text, with numbers in place of their names.

ghost use Rattle.std.specs.Prelude.{◌≡◌, IfOk, IfSome, IfNone, true};
ghost use Rattle.stt_core.specs.View.{the_type};
ghost use Rattle.tableau_calculus.specs.Literals.{is_negated};
ghost use Rattle.refute_check.specs.Numbered.{numbered_term, numbered_row, numbered_literal};
ghost use Rattle.witness_names.specs.Rows.{binder_of as type_of_argument};

use crate::number_term::number_term;
use crate::numbering::Numbering;
use refute_print::{TextLit, TextTerm};
use std::alloc::{AllocError, Global};
use stt_core::{Nf, Ty};
use tableau_calculus::{Lit, Shape, WitnessRow, shape_of};

/// The type of a function's argument, or else that of formulas.
fn argument_type(alloc: Global, nf: &Nf) -> Result<Ty, AllocError>
    ensures { IfOk result (λ ty. the_type ty ≡ type_of_argument nf.now) }
{
    match nf.binders.get(0) {
        Some(ty) => Ok(ty.try_clone(alloc)?),
        None => Ok(Ty::Base(0)),
    }
}

/// The witness row of the predicate, with a number for each name.
pub(crate) fn number_row(
    alloc: Global,
    numbering: &Numbering<'_>,
    predicate: &TextTerm,
) -> Result<WitnessRow, AllocError>
    ensures { IfOk result (λ row. row ≡ numbered_row numbering.now predicate.now) }
{
    let predicate = number_term(alloc, numbering, predicate)?;
    let ty = argument_type(alloc, &predicate)?;
    Ok(WitnessRow { ty, predicate })
}

/// Whether the formula's head is negation.
fn has_negation(nf: &Nf) -> bool
    ensures { result ≡ is_negated nf.now }
{
    match shape_of(nf) {
        Shape::Not(_) => true,
        Shape::False => false,
        Shape::Imp(_, _) => false,
        Shape::Other => false,
    }
}

/// The literal, with a number for each name, or none where its formula's head is negation.
pub(crate) fn number_literal(
    alloc: Global,
    numbering: &Numbering<'_>,
    lit: &TextLit,
) -> Result<Option<Lit>, AllocError>
    ensures literal { IfOk result (λ o. IfSome o (λ l. l ≡ numbered_literal numbering.now lit.now)) }
    ensures negated { IfOk result (λ o. IfNone o (is_negated (numbered_term numbering.now lit.now.atom) ≡ true)) }
{
    let atom = number_term(alloc, numbering, &lit.atom)?;
    if has_negation(&atom) {
        return Ok(None);
    }
    let positive = lit.positive;
    Ok(Some(Lit { positive, atom }))
}
