//! The terms that texts stand for.

ghost use Rattle.std.specs.Prelude.{◌≡◌, [], IfOk, option_map};
ghost use Rattle.stt_core.specs.SimpleType.{arrow, formula};
ghost use Rattle.stt_core.specs.View.{the_type};
ghost use Rattle.thf_grammar.specs.View.{the_formula, the_vars};
ghost use Rattle.type_check.specs.Internal.Answers.{AnswersCheck};
ghost use Rattle.type_check.specs.Internal.Infixes.{read_infix};
ghost use Rattle.type_check.specs.Rows as rows;
ghost use Rattle.type_check.specs.Typed.{typed};
ghost use Rattle.thf_grammar.specs.declared.connective.Conn.TheVariants as conn;
ghost use Rattle.type_check.specs.Terms as defined;
ghost use Rattle.type_check.specs.Internal.ScopeView.{the_binders, AnswersIn};
ghost use Rattle.type_check.specs.Internal.Quantifiers.{read_negation, read_quantifier, read_bound};
ghost use Rattle.type_check.specs.Internal.TypedView.{the_typed};

use crate::declared::Declared;
use crate::nodes::{Infix, bind, combined, everywhere, negated, somewhere};
use crate::refusal::{IllWhy, Refusal};
use crate::rows::{join, truth_value};
use crate::scope::Scope;
use crate::term::{lam, neg};
use crate::typed::{TypeOf, Typed};
use crate::types::read_type;
use std::alloc::{AllocError, Global};
use stt_core::{Term, Ty};
use thf_grammar::{Binder, Conn, Surface, SurfaceVar};

/// What a name stands for, where it stands for a term.
fn known(at: u32, x: Option<Typed>) -> Result<Typed, Refusal>
    ensures { AnswersCheck the_typed result (defined.known_term at (option_map the_typed x.entry)) }
{
    match x {
        Some(x) => Ok(x),
        None => Err(Refusal::At {
            at,
            why: IllWhy::Unknown,
        }),
    }
}

/// `$true` or `$false`.
fn truth(alloc: Global, value: bool) -> Result<Typed<'static>, AllocError>
    ensures { IfOk result (λ x. the_typed x ≡ typed (rows.truth_value value) formula) }
{
    Ok(Typed {
        term: truth_value(alloc, value)?,
        ty: TypeOf::Made(Ty::Base(0)),
    })
}

/// The type of functions from formulas to values of type `to`.
fn from_formulas(alloc: Global, to: Ty) -> Result<Ty, AllocError>
    ensures { IfOk result (λ ty. the_type ty ≡ arrow formula (the_type to)) }
{
    Ty::function(alloc, Ty::Base(0), to)
}

/// `~` as a function.
fn negating(alloc: Global) -> Result<Typed<'static>, AllocError>
    ensures { IfOk result (λ x. the_typed x ≡ rows.operator_term conn.Not) }
{
    let body = neg(alloc, Term::Bound(0))?;
    Ok(Typed {
        term: lam(alloc, Ty::Base(0), body)?,
        ty: TypeOf::Made(from_formulas(alloc, Ty::Base(0))?),
    })
}

/// The function that joins two formulas by a connective.
fn joining(alloc: Global, connective: Conn) -> Result<Typed<'static>, AllocError>
    ensures { IfOk result (λ x. the_typed x ≡ rows.joining connective) }
{
    let body = join(alloc, connective, Term::Bound(1), Term::Bound(0))?;
    let inner = lam(alloc, Ty::Base(0), body)?;
    let outcome = from_formulas(alloc, Ty::Base(0))?;
    Ok(Typed {
        term: lam(alloc, Ty::Base(0), inner)?,
        ty: TypeOf::Made(from_formulas(alloc, outcome)?),
    })
}

/// A connective in parentheses.
fn operator(alloc: Global, connective: Conn) -> Result<Typed<'static>, AllocError>
    ensures { IfOk result (λ x. the_typed x ≡ rows.operator_term connective) }
{
    match connective {
        Conn::Not => negating(alloc),
        Conn::And
        | Conn::Or
        | Conn::Imp
        | Conn::If
        | Conn::Iff
        | Conn::Xor
        | Conn::Nor
        | Conn::Nand => joining(alloc, connective),
    }
}

/// Reads a term under the binders around it.
#[cycle(terms)]
fn read_term<'a>(
    alloc: Global,
    declared: &'a Declared,
    scope: &Scope<'a>,
    tree: &Surface,
) -> Result<Typed<'a>, Refusal>
    ensures { AnswersIn (the_binders scope.now) (λ vars. defined.read_term declared.now vars (the_formula tree.now)) result }
{
    match tree {
        Surface::Name { at, name } => known(*at, declared.constant(name)),
        Surface::Var { at, name } => known(*at, scope.variable(0, name.as_slice())?),
        Surface::Truth { value, .. } => Ok(truth(alloc, *value)?),
        Surface::Op { conn, .. } => Ok(operator(alloc, *conn)?),
        Surface::Not { at, body } => read_negated(alloc, declared, scope, *at, body),
        Surface::Binary {
            at,
            conn,
            left,
            right,
        } => read_infix(alloc, declared, scope, *at, Infix::Join(*conn), left, right),
        Surface::Equation {
            at,
            positive,
            left,
            right,
        } => {
            let between = Infix::Equality(*positive);
            read_infix(alloc, declared, scope, *at, between, left, right)
        }
        Surface::Apply { at, fun, arg } => {
            read_infix(alloc, declared, scope, *at, Infix::Application, fun, arg)
        }
        Surface::Quant { at, all, arg } => {
            read_quantified(alloc, declared, scope, *at, *all, arg)
        }
        Surface::Bind {
            at,
            binder,
            vars,
            body,
        } => read_binder(alloc, declared, scope, *at, *binder, vars.as_slice(), body),
    }
}

/// Reads a formula that is denied.
#[cycle(terms)]
fn read_negated<'a>(
    alloc: Global,
    declared: &'a Declared,
    scope: &Scope<'a>,
    at: u32,
    body: &Surface,
) -> Result<Typed<'static>, Refusal>
    ensures { AnswersIn (the_binders scope.now) (read_negation declared.now at (the_formula body.now)) result }
{
    let x = read_term(alloc, declared, scope, body)?;
    negated(alloc, at, x)
}

/// Reads two operands, and what stands between them.
#[cycle(terms)]
fn read_infix<'a>(
    alloc: Global,
    declared: &'a Declared,
    scope: &Scope<'a>,
    at: u32,
    between: Infix,
    left: &Surface,
    right: &Surface,
) -> Result<Typed<'a>, Refusal>
    ensures { AnswersIn (the_binders scope.now) (read_infix declared.now at between (the_formula left.now) (the_formula right.now)) result }
{
    let x = read_term(alloc, declared, scope, left)?;
    let y = read_term(alloc, declared, scope, right)?;
    combined(alloc, at, between, x, y)
}

/// Reads a quantifier over a predicate. The value at which a predicate is to hold somewhere has no name.
#[cycle(terms)]
fn read_quantified<'a>(
    alloc: Global,
    declared: &'a Declared,
    scope: &Scope<'a>,
    at: u32,
    all: bool,
    predicate: &Surface,
) -> Result<Typed<'static>, Refusal>
    ensures { AnswersIn (the_binders scope.now) (read_quantifier declared.now at all (the_formula predicate.now)) result }
{
    if all {
        let x = read_term(alloc, declared, scope, predicate)?;
        return everywhere(alloc, at, x);
    }
    let inner = Scope::Hidden { outer: &*scope };
    let x = read_term(alloc, &*declared, &inner, predicate)?;
    somewhere(alloc, at, x)
}

/// Reads a binder of these variables over a body.
#[cycle(terms)]
fn read_binder<'a>(
    alloc: Global,
    declared: &'a Declared,
    scope: &Scope<'a>,
    at: u32,
    binder: Binder,
    vars: &[SurfaceVar],
    body: &Surface,
) -> Result<Typed<'a>, Refusal>
    ensures { AnswersIn (the_binders scope.now) (read_bound declared.now at binder (the_vars vars.now) (the_formula body.now)) result }
{
    let Some((var, rest)) = vars.split_first() else {
        return read_term(alloc, declared, scope, body);
    };
    let a = read_type(alloc, declared, &var.ty)?;
    let bound = {
        let inner = Scope::Inner {
            name: var.name.as_slice(),
            ty: &a,
            outer: &*scope,
        };
        let bound = read_binder(alloc, &*declared, &inner, at, binder, rest, body)?;
        bound.into_made(alloc)?
    };
    bind(alloc, at, binder, a, bound)
}

/// Reads a term that stands under no binder.
pub(crate) fn read_closed<'a>(
    alloc: Global,
    declared: &'a Declared,
    tree: &Surface,
) -> Result<Typed<'a>, Refusal>
    ensures { AnswersCheck the_typed result (defined.read_term declared.now [] (the_formula tree.now)) }
{
    read_term(alloc, declared, &Scope::Empty, tree)
}
