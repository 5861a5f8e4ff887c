//! Terms that are built of their parts.

ghost use Rattle.std.specs.Prelude.{◌≡◌, IfOk};
ghost use Rattle.stt_core.specs.Lambda as lambda;
ghost use Rattle.stt_core.specs.View.{the_type, the_term};

use std::alloc::{AllocError, Global};
use stt_core::{Term, Ty};

pub(crate) fn app(alloc: Global, s: Term, u: Term) -> Result<Term, AllocError>
    ensures { IfOk result (λ t. the_term t ≡ lambda.app (the_term s) (the_term u)) }
{
    Ok(Term::App(Box::new(alloc, s)?, Box::new(alloc, u)?))
}

pub(crate) fn lam(alloc: Global, a: Ty, s: Term) -> Result<Term, AllocError>
    ensures { IfOk result (λ t. the_term t ≡ lambda.lam (the_type a) (the_term s)) }
{
    Ok(Term::Lam(a, Box::new(alloc, s)?))
}

pub(crate) fn neg(alloc: Global, s: Term) -> Result<Term, AllocError>
    ensures { IfOk result (λ t. the_term t ≡ lambda.neg (the_term s)) }
{
    app(alloc, Term::Not, s)
}

pub(crate) fn imp(alloc: Global, s: Term, t: Term) -> Result<Term, AllocError>
    ensures { IfOk result (λ r. the_term r ≡ lambda.imp (the_term s) (the_term t)) }
{
    let premise = app(alloc, Term::Imp, s)?;
    app(alloc, premise, t)
}

/// An equation between terms of type `a`.
pub(crate) fn eq(alloc: Global, a: Ty, s: Term, t: Term) -> Result<Term, AllocError>
    ensures { IfOk result (λ r. the_term r ≡ lambda.eq (the_type a) (the_term s) (the_term t)) }
{
    let left = app(alloc, Term::Eq(a), s)?;
    app(alloc, left, t)
}

/// That the predicate `f` on type `a` holds everywhere.
pub(crate) fn every(alloc: Global, a: Ty, f: Term) -> Result<Term, AllocError>
    ensures { IfOk result (λ t. the_term t ≡ lambda.every (the_type a) (the_term f)) }
{
    app(alloc, Term::All(a), f)
}
