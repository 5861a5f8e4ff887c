//! The terms that stand for connectives and quantifiers.

ghost use Rattle.std.specs.Prelude.{◌≡◌, IfOk};
ghost use Rattle.stt_core.specs.Lambda as lambda;
ghost use Rattle.stt_core.specs.View.{the_type, the_term};
ghost use Rattle.type_check.specs.Rows as defined;

use crate::term::{eq, every, imp, lam, neg};
use std::alloc::{AllocError, Global};
use stt_core::{Term, Ty};
use thf_grammar::Conn;

/// A formula where it is to hold, or else its negation.
pub(crate) fn signed(alloc: Global, positive: bool, s: Term) -> Result<Term, AllocError>
    ensures { IfOk result (λ t. the_term t ≡ defined.signed positive (the_term s)) }
{
    if positive { Ok(s) } else { neg(alloc, s) }
}

/// `$true` or `$false`.
pub(crate) fn truth_value(alloc: Global, value: bool) -> Result<Term, AllocError>
    ensures { IfOk result (λ t. the_term t ≡ defined.truth_value value) }
{
    if value {
        neg(alloc, Term::False)
    } else {
        Ok(Term::False)
    }
}

/// That one formula implies that the other fails.
fn nand(alloc: Global, s: Term, t: Term) -> Result<Term, AllocError>
    ensures { IfOk result (λ r. the_term r ≡ lambda.imp (the_term s) (lambda.neg (the_term t))) }
{
    let not = neg(alloc, t)?;
    imp(alloc, s, not)
}

/// That one formula holds where the other fails.
fn or(alloc: Global, s: Term, t: Term) -> Result<Term, AllocError>
    ensures { IfOk result (λ r. the_term r ≡ lambda.imp (lambda.neg (the_term s)) (the_term t)) }
{
    let not = neg(alloc, s)?;
    imp(alloc, not, t)
}

/// Two formulas that are joined by a connective.
pub(crate) fn join(alloc: Global, conn: Conn, s: Term, t: Term) -> Result<Term, AllocError>
    ensures { IfOk result (λ r. the_term r ≡ defined.join conn (the_term s) (the_term t)) }
{
    match conn {
        Conn::Not => neg(alloc, t),
        Conn::And => {
            let denied = nand(alloc, s, t)?;
            neg(alloc, denied)
        }
        Conn::Or => or(alloc, s, t),
        Conn::Imp => imp(alloc, s, t),
        Conn::If => imp(alloc, t, s),
        Conn::Iff => eq(alloc, Ty::Base(0), s, t),
        Conn::Xor => {
            let same = eq(alloc, Ty::Base(0), s, t)?;
            neg(alloc, same)
        }
        Conn::Nor => {
            let either = or(alloc, s, t)?;
            neg(alloc, either)
        }
        Conn::Nand => nand(alloc, s, t),
    }
}

/// That a formula holds for all values of a variable of type `a`.
pub(crate) fn for_all(alloc: Global, a: Ty, s: Term) -> Result<Term, AllocError>
    ensures { IfOk result (λ t. the_term t ≡ defined.for_all (the_type a) (the_term s)) }
{
    let predicate = lam(alloc, a.try_clone(alloc)?, s)?;
    every(alloc, a, predicate)
}

/// That a formula holds for some value of a variable of type `a`.
pub(crate) fn for_some(alloc: Global, a: Ty, s: Term) -> Result<Term, AllocError>
    ensures { IfOk result (λ t. the_term t ≡ defined.for_some (the_type a) (the_term s)) }
{
    let fails = neg(alloc, s)?;
    let none = for_all(alloc, a, fails)?;
    neg(alloc, none)
}
