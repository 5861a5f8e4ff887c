//! The literal of a formula.

ghost use Rattle.std.specs.Prelude.{◌≡◌, IfOk, false};
ghost use Rattle.tableau_calculus.specs.Literals.{plus, as_literal, is_negated};

use std::alloc::{AllocError, Global};
use stt_core::Nf;
use tableau_calculus::{Lit, Shape, shape_of};

fn positive(alloc: Global, nf: &Nf) -> Result<Lit, AllocError>
    requires { is_negated nf.now ≡ false }
    ensures { IfOk result (λ l. l ≡ plus nf.now) }
{
    let atom = nf.try_clone(alloc)?;
    Ok(Lit {
        positive: true,
        atom,
    })
}

/// The literal of a canonical formula: its outer negations are taken off, and each changes the sign.
pub fn literal_of(alloc: Global, nf: &Nf) -> Result<Lit, AllocError>
    ensures { IfOk result (λ l. l ≡ as_literal nf.now) }
{
    match shape_of(nf) {
        Shape::Not(negated) => {
            let inner = literal_of(alloc, negated)?;
            Ok(inner.opposite())
        }
        Shape::False => Ok(positive(alloc, nf)?),
        Shape::Imp(_, _) => Ok(positive(alloc, nf)?),
        Shape::Other => Ok(positive(alloc, nf)?),
    }
}
