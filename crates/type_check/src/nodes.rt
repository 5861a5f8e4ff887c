//! Nodes of formulas over parts that are read.

ghost use Rattle.std.specs.Prelude.{true};
ghost use Rattle.stt_core.specs.View.{the_type, the_term};
ghost use Rattle.type_check.specs.Internal.Answers.{AnswersCheck};
ghost use Rattle.type_check.specs.Internal.Infixes as infixes;
ghost use Rattle.type_check.specs.Internal.Quantifiers.{typed_somewhere};
ghost use Rattle.type_check.specs.Terms as defined;
ghost use Rattle.type_check.specs.Internal.TypedView.{the_typed};

use crate::refusal::{IllWhy, Refusal};
use crate::rows::{for_all, for_some, join, signed};
use crate::term::{app, eq, every, lam, neg};
use crate::typed::{TypeOf, Typed};
use std::alloc::Global;
use stt_core::{Term, Ty};
use thf_grammar::{Binder, Conn};

/// `~`.
pub(crate) fn negated(alloc: Global, at: u32, x: Typed) -> Result<Typed<'static>, Refusal>
    ensures { AnswersCheck the_typed result (defined.typed_negation at (the_typed x.entry)) }
{
    let s = x.of_type(at, &Ty::Base(0))?;
    Ok(Typed {
        term: neg(alloc, s)?,
        ty: TypeOf::Made(Ty::Base(0)),
    })
}

/// Two formulas that are joined by a connective.
pub(crate) fn joined(
    alloc: Global,
    at: u32,
    conn: Conn,
    x: Typed,
    y: Typed,
) -> Result<Typed<'static>, Refusal>
    ensures { AnswersCheck the_typed result (defined.typed_connection at conn (the_typed x.entry) (the_typed y.entry)) }
{
    let s = x.of_type(at, &Ty::Base(0))?;
    let t = y.of_type(at, &Ty::Base(0))?;
    Ok(Typed {
        term: join(alloc, conn, s, t)?,
        ty: TypeOf::Made(Ty::Base(0)),
    })
}

/// `=`, or `!=` where it isn't positive.
pub(crate) fn equated(
    alloc: Global,
    at: u32,
    positive: bool,
    x: Typed,
    y: Typed,
) -> Result<Typed<'static>, Refusal>
    ensures { AnswersCheck the_typed result (defined.typed_equation at positive (the_typed x.entry) (the_typed y.entry)) }
{
    let t = y.of_type(at, x.ty.get())?;
    let a = x.ty.into_made(alloc)?;
    let equation = eq(alloc, a, x.term, t)?;
    Ok(Typed {
        term: signed(alloc, positive, equation)?,
        ty: TypeOf::Made(Ty::Base(0)),
    })
}

/// `@`.
pub(crate) fn applied<'a>(
    alloc: Global,
    at: u32,
    x: Typed<'a>,
    y: Typed,
) -> Result<Typed<'a>, Refusal>
    ensures { AnswersCheck the_typed result (defined.typed_application at (the_typed x.entry) (the_typed y.entry)) }
{
    match x.ty.applied_to(alloc, y.ty.get())? {
        Some(ty) => Ok(Typed {
            term: app(alloc, x.term, y.term)?,
            ty,
        }),
        None => Err(Refusal::At {
            at,
            why: IllWhy::Mismatch,
        }),
    }
}

/// What stands between two operands.
#[derive(Clone, Copy)]
pub(crate) enum Infix {
    /// A connective.
    Join(Conn),
    /// `=` where it is positive, or else `!=`.
    Equality(bool),
    /// `@`.
    Application,
}

/// Two operands with what stands between them.
pub(crate) fn combined<'a>(
    alloc: Global,
    at: u32,
    between: Infix,
    x: Typed<'a>,
    y: Typed,
) -> Result<Typed<'a>, Refusal>
    ensures { AnswersCheck the_typed result (infixes.combined at between (the_typed x.entry) (the_typed y.entry)) }
{
    match between {
        Infix::Join(conn) => joined(alloc, at, conn, x, y),
        Infix::Equality(positive) => equated(alloc, at, positive, x, y),
        Infix::Application => applied(alloc, at, x, y),
    }
}

/// `!! @`.
pub(crate) fn everywhere(alloc: Global, at: u32, x: Typed) -> Result<Typed<'static>, Refusal>
    ensures { AnswersCheck the_typed result (defined.typed_quantifier at true (the_typed x.entry)) }
{
    match x.ty.into_domain(alloc)? {
        Some(a) => Ok(Typed {
            term: every(alloc, a, x.term)?,
            ty: TypeOf::Made(Ty::Base(0)),
        }),
        None => Err(Refusal::At {
            at,
            why: IllWhy::Mismatch,
        }),
    }
}

/// `?? @`, of a predicate that stands within the binder of the value at which it holds.
pub(crate) fn somewhere(alloc: Global, at: u32, x: Typed) -> Result<Typed<'static>, Refusal>
    ensures { AnswersCheck the_typed result (typed_somewhere at (the_typed x.entry)) }
{
    match x.ty.into_domain(alloc)? {
        Some(a) => {
            let holds = app(alloc, x.term, Term::Bound(0))?;
            Ok(Typed {
                term: for_some(alloc, a, holds)?,
                ty: TypeOf::Made(Ty::Base(0)),
            })
        }
        None => Err(Refusal::At {
            at,
            why: IllWhy::Mismatch,
        }),
    }
}

/// The choice of a value of type `a` at which the formula `s` holds.
fn chosen(alloc: Global, a: Ty, s: Term) -> Result<Typed<'static>, Refusal>
    ensures { AnswersCheck the_typed result (defined.typed_choice (the_type a) (the_term s)) }
{
    let predicate = lam(alloc, a.try_clone(alloc)?, s)?;
    let choice = Term::Choice(a.try_clone(alloc)?);
    Ok(Typed {
        term: app(alloc, choice, predicate)?,
        ty: TypeOf::Made(a),
    })
}

/// The description of the one value of type `a` at which the formula `s` holds.
fn described(alloc: Global, a: Ty, s: Term) -> Result<Typed<'static>, Refusal>
    ensures { AnswersCheck the_typed result (defined.typed_description (the_type a) (the_term s)) }
{
    let predicate = lam(alloc, a.try_clone(alloc)?, s)?;
    let description = Term::Desc(a.try_clone(alloc)?);
    Ok(Typed {
        term: app(alloc, description, predicate)?,
        ty: TypeOf::Made(a),
    })
}

/// The function of a variable of type `a` with these values.
fn abstracted(alloc: Global, a: Ty, x: Typed) -> Result<Typed<'static>, Refusal>
    ensures { AnswersCheck the_typed result (defined.abstracted (the_type a) (the_typed x.entry)) }
{
    let outcome = x.ty.into_made(alloc)?;
    let term = lam(alloc, a.try_clone(alloc)?, x.term)?;
    let ty = Ty::function(alloc, a, outcome)?;
    Ok(Typed {
        term,
        ty: TypeOf::Made(ty),
    })
}

/// A binder of one variable, of type `a`, over a body.
pub(crate) fn bind(
    alloc: Global,
    at: u32,
    binder: Binder,
    a: Ty,
    x: Typed,
) -> Result<Typed<'static>, Refusal>
    ensures { AnswersCheck the_typed result (defined.bind at binder (the_type a) (the_typed x.entry)) }
{
    match binder {
        Binder::All => {
            let s = x.of_type(at, &Ty::Base(0))?;
            Ok(Typed {
                term: for_all(alloc, a, s)?,
                ty: TypeOf::Made(Ty::Base(0)),
            })
        }
        Binder::Exists => {
            let s = x.of_type(at, &Ty::Base(0))?;
            Ok(Typed {
                term: for_some(alloc, a, s)?,
                ty: TypeOf::Made(Ty::Base(0)),
            })
        }
        Binder::Lam => abstracted(alloc, a, x),
        Binder::Choice => {
            let s = x.of_type(at, &Ty::Base(0))?;
            chosen(alloc, a, s)
        }
        Binder::Desc => {
            let s = x.of_type(at, &Ty::Base(0))?;
            described(alloc, a, s)
        }
    }
}
