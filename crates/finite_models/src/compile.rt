//! Expressions from canonical terms.

ghost use Rattle.std.specs.Prelude.{◌≡◌, ◌<◌, ◌≤◌, IfOk, List, drop, take, length, []};
ghost use Rattle.stt_core.specs.Lambda.{constant, negation, implication, equality, all, lambdas, applied};
ghost use Rattle.stt_core.specs.View.{the_head, the_type};
ghost use Rattle.stt_core.specs.ContextView.{the_context};
ghost use Rattle.stt_core.specs.SimpleType.{SimpleType, formula};
ghost use Rattle.finite_models.specs.ChooserView.{the_chooser};
ghost use Rattle.finite_models.specs.Internal.Stands.{IsCoveredBy, IsGroundIn, IsPlacedIn, IsLeafOf, CanCompileIn, CanCompileSpineIn, StandsIn, HasCompiledIn, term_from};

use crate::binder::{rounds, table_of};
use crate::chooser::{Chooser, Choosers};
use crate::expr::Expr;
use crate::size::size_of;
use std::alloc::{AllocError, Global};
use stt_core::{Context, Declared, Head, Nf, Nfs, Signature, Ty, Types, head_type};

/// What terms stand on: the signature, no witnesses, the choices and descriptions among the symbols, and the size of the base types.
#[derive(Drop)]
pub struct Frame<'a> {
    pub sig: &'a Signature,
    pub wits: &'a Types,
    pub choosers: &'a Choosers,
    pub size: u32,
}

/// The place of a choice or a description among the symbols, behind the constants of the signature.
fn place_behind(frame: &Frame, chooser: &Chooser) -> Result<u32, AllocError>
    requires { IsCoveredBy frame.now.choosers.now (the_chooser chooser.now).constant }
    ensures { IfOk result (λ n. IsPlacedIn frame.now (the_chooser chooser.now) n) }
{
    match frame.choosers.place_of(chooser) {
        Some(i) => {
            let place = (frame.sig.consts.len() as u64).saturating_add(i as u64);
            match u32::try_from(place) {
                Ok(place) => Ok(place),
                Err(_) => Err(AllocError),
            }
        }
        None => unreachable!(),
    }
}

/// The expression of a variable, of a constant of the signature, or of a choice or a description.
fn compile_leaf(alloc: Global, frame: &Frame, head: &Head) -> Result<Expr, AllocError>
    requires ground { IsGroundIn frame.now }
    requires leaf { IsLeafOf frame.now (the_head head.now) }
    ensures { IfOk result (λ e. (ctx : List SimpleType) → StandsIn frame.now ctx (the_head head.now) e) }
{
    match head {
        Head::Bound(k) => Ok(Expr::Bound(*k)),
        Head::Name(k) => Ok(Expr::Symbol(*k)),
        _ => match Chooser::of(alloc, head)? {
            Some(chooser) => Ok(Expr::Symbol(place_behind(frame, &chooser)?)),
            None => unreachable!(),
        },
    }
}

/// A head of this type with its first `i` arguments, applied to the others.
#[cycle(compile)]
fn compile_from(
    alloc: Global,
    frame: &Frame,
    ctx: &Context,
    ty: &Ty,
    expr: Expr,
    head: &Head,
    args: &Nfs,
    i: usize,
) -> Result<Expr, AllocError>
    requires ground { IsGroundIn frame.now }
    requires spine { CanCompileSpineIn frame.now (the_context ctx.now) (applied (the_head head.now) args.now) }
    requires compiled { HasCompiledIn frame.now (the_context ctx.now) (the_type ty.now) (the_head head.now) args.now i expr }
    ensures { IfOk result (λ e. StandsIn frame.now (the_context ctx.now) (applied (the_head head.now) args.now) e) }
{
    if i == args.len() {
        return Ok(expr);
    }
    match ty {
        Ty::Arrow(argument, outcome) => {
            let from: &Ty = argument;
            let to: &Ty = outcome;
            let given = compile(alloc, frame, ctx, from, args.at(i))?;
            let base = size_of(to, frame.size);
            let function = Box::new(alloc, expr)?;
            let place = Box::new(alloc, given)?;
            let applied = Expr::Apply(base, function, place);
            compile_from(alloc, frame, ctx, to, applied, head, args, i + 1)
        }
        Ty::Base(_) => unreachable!(),
    }
}

/// A variable, a constant of the signature, or a choice or a description with its arguments.
#[cycle(compile)]
fn compile_applied(
    alloc: Global,
    frame: &Frame,
    ctx: &Context,
    head: &Head,
    args: &Nfs,
) -> Result<Expr, AllocError>
    requires ground { IsGroundIn frame.now }
    requires leaf { IsLeafOf frame.now (the_head head.now) }
    requires spine { CanCompileSpineIn frame.now (the_context ctx.now) (applied (the_head head.now) args.now) }
    ensures { IfOk result (λ e. StandsIn frame.now (the_context ctx.now) (applied (the_head head.now) args.now) e) }
{
    let declared = Declared {
        sig: &*frame.sig,
        wits: &*frame.wits,
    };
    let leaf = compile_leaf(alloc, frame, head)?;
    match head_type(alloc, &declared, ctx, head)? {
        Some(ty) => compile_from(alloc, frame, ctx, &ty, leaf, head, args, 0),
        None => unreachable!(),
    }
}

/// A canonical formula.
#[cycle(compile)]
fn compile_truth(alloc: Global, frame: &Frame, ctx: &Context, nf: &Nf) -> Result<Expr, AllocError>
    requires ground { IsGroundIn frame.now }
    requires term { CanCompileIn frame.now (the_context ctx.now) formula nf.now }
    ensures { IfOk result (λ e. StandsIn frame.now (the_context ctx.now) nf.now e) }
{
    compile_spine(alloc, frame, ctx, &nf.head, &nf.args)
}

/// The negation of a formula.
#[cycle(compile)]
fn compile_negation(
    alloc: Global,
    frame: &Frame,
    ctx: &Context,
    args: &Nfs,
) -> Result<Expr, AllocError>
    requires ground { IsGroundIn frame.now }
    requires spine { CanCompileSpineIn frame.now (the_context ctx.now) (applied (constant negation) args.now) }
    ensures { IfOk result (λ e. StandsIn frame.now (the_context ctx.now) (applied (constant negation) args.now) e) }
{
    let first = args.at(0);
    let body = compile_truth(alloc, frame, ctx, first)?;
    let inner = Box::new(alloc, body)?;
    Ok(Expr::Not(inner))
}

/// An implication.
#[cycle(compile)]
fn compile_implication(
    alloc: Global,
    frame: &Frame,
    ctx: &Context,
    args: &Nfs,
) -> Result<Expr, AllocError>
    requires ground { IsGroundIn frame.now }
    requires spine { CanCompileSpineIn frame.now (the_context ctx.now) (applied (constant implication) args.now) }
    ensures { IfOk result (λ e. StandsIn frame.now (the_context ctx.now) (applied (constant implication) args.now) e) }
{
    let first = args.at(0);
    let second = args.at(1);
    let left = compile_truth(alloc, frame, ctx, first)?;
    let right = compile_truth(alloc, frame, ctx, second)?;
    let premise = Box::new(alloc, left)?;
    let conclusion = Box::new(alloc, right)?;
    Ok(Expr::Imp(premise, conclusion))
}

/// An equation.
#[cycle(compile)]
fn compile_equation(
    alloc: Global,
    frame: &Frame,
    ctx: &Context,
    a: &Ty,
    args: &Nfs,
) -> Result<Expr, AllocError>
    requires ground { IsGroundIn frame.now }
    requires spine { CanCompileSpineIn frame.now (the_context ctx.now) (applied (constant (equality (the_type a.now))) args.now) }
    ensures { IfOk result (λ e. StandsIn frame.now (the_context ctx.now) (applied (constant (equality (the_type a.now))) args.now) e) }
{
    let first = args.at(0);
    let second = args.at(1);
    let left = compile(alloc, frame, ctx, a, first)?;
    let right = compile(alloc, frame, ctx, a, second)?;
    let one = Box::new(alloc, left)?;
    let other = Box::new(alloc, right)?;
    Ok(Expr::Eq(one, other))
}

/// The claim that a predicate holds everywhere.
#[cycle(compile)]
fn compile_every(
    alloc: Global,
    frame: &Frame,
    ctx: &Context,
    a: &Ty,
    args: &Nfs,
) -> Result<Expr, AllocError>
    requires ground { IsGroundIn frame.now }
    requires spine { CanCompileSpineIn frame.now (the_context ctx.now) (applied (constant (all (the_type a.now))) args.now) }
    ensures { IfOk result (λ e. StandsIn frame.now (the_context ctx.now) (applied (constant (all (the_type a.now))) args.now) e) }
{
    let predicate = args.at(0);
    let inner = Context::Inner(&*a, &*ctx);
    let body = compile_spine(alloc, frame, &inner, &predicate.head, &predicate.args)?;
    let size = size_of(a, frame.size);
    let needed = rounds(size, &body);
    let body = Box::new(alloc, body)?;
    Ok(Expr::All(needed, body))
}

/// A head with its arguments, which has a base type.
#[cycle(compile)]
fn compile_spine(
    alloc: Global,
    frame: &Frame,
    ctx: &Context,
    head: &Head,
    args: &Nfs,
) -> Result<Expr, AllocError>
    requires ground { IsGroundIn frame.now }
    requires spine { CanCompileSpineIn frame.now (the_context ctx.now) (applied (the_head head.now) args.now) }
    ensures { IfOk result (λ e. StandsIn frame.now (the_context ctx.now) (applied (the_head head.now) args.now) e) }
{
    match head {
        Head::False => Ok(Expr::False),
        Head::Not => compile_negation(alloc, frame, ctx, args),
        Head::Imp => compile_implication(alloc, frame, ctx, args),
        Head::Eq(a) => compile_equation(alloc, frame, ctx, a, args),
        Head::All(a) => compile_every(alloc, frame, ctx, a, args),
        Head::Bound(_) => compile_applied(alloc, frame, ctx, head, args),
        Head::Name(_) => compile_applied(alloc, frame, ctx, head, args),
        Head::Wit(_) => unreachable!(),
        Head::Choice(_) => compile_applied(alloc, frame, ctx, head, args),
        Head::Desc(_) => compile_applied(alloc, frame, ctx, head, args),
    }
}

/// A canonical term of this type without its first `i` binders, which are in scope.
#[cycle(compile)]
fn compile_under(
    alloc: Global,
    frame: &Frame,
    ctx: &Context,
    ty: &Ty,
    binders: &Types,
    i: usize,
    head: &Head,
    args: &Nfs,
) -> Result<Expr, AllocError>
    requires ground { IsGroundIn frame.now }
    requires term { CanCompileIn frame.now (the_context ctx.now) (the_type ty.now) (term_from i binders.now (the_head head.now) args.now) }
    ensures { IfOk result (λ e. StandsIn frame.now (the_context ctx.now) (term_from i binders.now (the_head head.now) args.now) e) }
{
    if i >= binders.len() {
        return compile_spine(alloc, frame, ctx, head, args);
    }
    match ty {
        Ty::Arrow(_argument, outcome) => {
            let to: &Ty = outcome;
            let a = binders.at(i);
            let inner = Context::Inner(&*a, &*ctx);
            let rest = compile_under(alloc, frame, &inner, to, binders, i + 1, head, args)?;
            let base = size_of(to, frame.size);
            let entries = size_of(a, frame.size);
            table_of(alloc, base, entries, rest)
        }
        Ty::Base(_) => unreachable!(),
    }
}

/// A canonical term of this type.
#[cycle(compile)]
fn compile(
    alloc: Global,
    frame: &Frame,
    ctx: &Context,
    ty: &Ty,
    nf: &Nf,
) -> Result<Expr, AllocError>
    requires ground { IsGroundIn frame.now }
    requires term { CanCompileIn frame.now (the_context ctx.now) (the_type ty.now) nf.now }
    ensures { IfOk result (λ e. StandsIn frame.now (the_context ctx.now) nf.now e) }
{
    compile_under(alloc, frame, ctx, ty, &nf.binders, 0, &nf.head, &nf.args)
}

/// The expression of a closed canonical formula.
pub fn compile_formula(alloc: Global, frame: &Frame, nf: &Nf) -> Result<Expr, AllocError>
    requires ground { IsGroundIn frame.now }
    requires term { CanCompileIn frame.now [] formula nf.now }
    ensures { IfOk result (λ e. StandsIn frame.now [] nf.now e) }
{
    let outside = Context::Empty;
    compile_truth(alloc, frame, &outside, nf)
}
