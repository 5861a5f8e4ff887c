//! Which type a canonical term has.

ghost use Rattle.std.specs.Prelude.{◌≡◌, ◌≤◌, IfOk, MatchOption, option_map, slice_get, drop, length, []};
ghost use Rattle.stt_core.specs.SimpleType.{SimpleType, arrow, predicate, formula, is_declared};
ghost use Rattle.stt_core.specs.Lambda.{applied, lambdas};
ghost use Rattle.stt_core.specs.Typing.{type_of, applied_type, where_declared};
ghost use Rattle.stt_core.specs.Internal.CanonicalType.{where_base, abstracted_type, canonical_type, neutral_type};
ghost use Rattle.stt_core.specs.View.{the_type, the_head};
ghost use Rattle.stt_core.specs.ScopeView.{the_scope};
ghost use Rattle.stt_core.specs.ContextView.{the_context, declared_scope};

use crate::nf::{Head, Nf, Nfs};
use crate::signature::Signature;
use crate::ty::{Ty, Types};
use std::alloc::{AllocError, Global};

/// The types of the bound variables in scope, as a list that is linked from the innermost one outwards.
#[derive(Drop)]
pub enum Context<'a> {
    Empty,
    /// The types of a list, whose last one is the innermost.
    Outer(&'a Types),
    Inner(&'a Ty, &'a Context<'a>),
}

/// What is declared: the names of a signature, and the types of the witnesses.
#[derive(Drop)]
pub struct Declared<'a> {
    pub sig: &'a Signature,
    pub wits: &'a Types,
}

impl Context<'_> {
    /// The type of the variable with so many binders between it and its own.
    fn get(&self, k: u32) -> Option<&Ty>
        ensures { option_map (λ ty. the_type ty.now) result ≡ slice_get (the_context self.now) k }
    {
        match self {
            Context::Empty => None,
            Context::Outer(types) => types.get_from_end(k as usize),
            Context::Inner(ty, outer) => { if k == 0 { Some(*ty) } else { outer.get(k - 1) } }
        }
    }
}

impl Ty {
    /// Whether the type is over a signature with so many base types of its own.
    fn is_over(&self, bases: usize) -> bool
        ensures { result ≡ is_declared bases (the_type self.now) }
    {
        match self {
            Ty::Base(n) => u64::from(*n) < (bases as u64).saturating_add(2),
            Ty::Arrow(a, b) => a.is_over(bases) && b.is_over(bases),
        }
    }
}

fn try_clone_some(alloc: Global, ty: Option<&Ty>) -> Result<Option<Ty>, AllocError>
    ensures { IfOk result (λ o. option_map the_type o ≡ option_map (λ t. the_type t.now) ty.entry) }
{
    match ty {
        None => Ok(None),
        Some(ty) => Ok(Some(ty.try_clone(alloc)?)),
    }
}

fn predicate_type(alloc: Global, a: &Ty) -> Result<Ty, AllocError>
    ensures { IfOk result (λ ty. the_type ty ≡ predicate (the_type a.now)) }
{
    Ty::function(alloc, a.try_clone(alloc)?, Ty::Base(0))
}

fn negation_type(alloc: Global) -> Result<Ty, AllocError>
    ensures { IfOk result (λ ty. the_type ty ≡ arrow formula formula) }
{
    Ty::function(alloc, Ty::Base(0), Ty::Base(0))
}

fn implication_type(alloc: Global) -> Result<Ty, AllocError>
    ensures { IfOk result (λ ty. the_type ty ≡ arrow formula (arrow formula formula)) }
{
    Ty::function(alloc, Ty::Base(0), negation_type(alloc)?)
}

fn all_type(alloc: Global, a: &Ty) -> Result<Ty, AllocError>
    ensures { IfOk result (λ ty. the_type ty ≡ arrow (predicate (the_type a.now)) formula) }
{
    Ty::function(alloc, predicate_type(alloc, a)?, Ty::Base(0))
}

fn equality_type(alloc: Global, a: &Ty) -> Result<Ty, AllocError>
    ensures { IfOk result (λ ty. the_type ty ≡ arrow (the_type a.now) (predicate (the_type a.now))) }
{
    Ty::function(alloc, a.try_clone(alloc)?, predicate_type(alloc, a)?)
}

/// The type of choice and of description.
fn choosing_type(alloc: Global, a: &Ty) -> Result<Ty, AllocError>
    ensures { IfOk result (λ ty. the_type ty ≡ arrow (predicate (the_type a.now)) (the_type a.now)) }
{
    Ty::function(alloc, predicate_type(alloc, a)?, a.try_clone(alloc)?)
}

fn where_same(alloc: Global, a: &Ty, b: &Ty, c: &Ty) -> Result<Option<Ty>, AllocError>
    ensures { IfOk result (λ o. option_map the_type o ≡ applied_type (Some (arrow (the_type a.now) (the_type b.now)))
        (Some (the_type c.now))) }
{
    if a.same(c) {
        Ok(Some(b.try_clone(alloc)?))
    } else {
        Ok(None)
    }
}

/// The type of what a function gives at an argument.
pub fn applied_to(
    alloc: Global,
    function: Option<Ty>,
    argument: Option<Ty>,
) -> Result<Option<Ty>, AllocError>
    ensures { IfOk result (λ o. option_map the_type o ≡ applied_type (option_map the_type function) (option_map the_type argument)) }
{
    match function {
        Some(Ty::Arrow(a, b)) => match argument {
            Some(c) => where_same(alloc, &a, &b, &c),
            None => Ok(None),
        },
        Some(Ty::Base(_)) => Ok(None),
        None => Ok(None),
    }
}

fn where_over(declared: &Declared, a: &Ty, ty: Ty) -> Option<Ty>
    ensures { option_map the_type result ≡ where_declared (declared_scope declared.now) (the_type a.now) (the_type ty) }
{
    if a.is_over(declared.sig.bases.len()) {
        Some(ty)
    } else {
        None
    }
}

fn where_of_base(ty: Option<Ty>) -> Option<Ty>
    ensures { option_map the_type result ≡ where_base (option_map the_type ty) }
{
    match ty {
        Some(Ty::Base(n)) => Some(Ty::Base(n)),
        Some(Ty::Arrow(_, _)) => None,
        None => None,
    }
}

/// The type of functions from `a`, where that is declared and the result has a type.
pub fn abstracted(
    alloc: Global,
    declared: &Declared,
    a: &Ty,
    outcome: Option<Ty>,
) -> Result<Option<Ty>, AllocError>
    ensures { IfOk result (λ o. option_map the_type o ≡ abstracted_type (declared_scope declared.now) (the_type a.now)
        (option_map the_type outcome)) }
{
    match outcome {
        Some(outcome) => {
            let ty = Ty::function(alloc, a.try_clone(alloc)?, outcome)?;
            Ok(where_over(declared, a, ty))
        }
        None => Ok(None),
    }
}

/// The type of a head, or none where it has none.
pub fn head_type(
    alloc: Global,
    declared: &Declared,
    ctx: &Context,
    head: &Head,
) -> Result<Option<Ty>, AllocError>
    ensures { IfOk result (λ o. option_map the_type o ≡ type_of (declared_scope declared.now) (the_context ctx.now) (the_head head.now)) }
{
    match head {
        Head::Bound(k) => try_clone_some(alloc, ctx.get(*k)),
        Head::Name(k) => try_clone_some(alloc, declared.sig.consts.type_of(*k as usize)),
        Head::Wit(k) => try_clone_some(alloc, declared.wits.get(*k as usize)),
        Head::False => Ok(Some(Ty::Base(0))),
        Head::Not => Ok(Some(negation_type(alloc)?)),
        Head::Imp => Ok(Some(implication_type(alloc)?)),
        Head::All(a) => Ok(where_over(declared, a, all_type(alloc, a)?)),
        Head::Eq(a) => Ok(where_over(declared, a, equality_type(alloc, a)?)),
        Head::Choice(a) => Ok(where_over(declared, a, choosing_type(alloc, a)?)),
        Head::Desc(a) => Ok(where_over(declared, a, choosing_type(alloc, a)?)),
    }
}

/// The type of a head with its arguments.
#[cycle(canonical)]
fn spine_type(
    alloc: Global,
    declared: &Declared,
    ctx: &Context,
    head: &Head,
    args: &Nfs,
) -> Result<Option<Ty>, AllocError>
    ensures { IfOk result (λ o. option_map the_type o ≡ neutral_type (declared_scope declared.now) (the_context ctx.now)
        (applied (the_head head.now) args.now)) }
{
    let mut ty = head_type(alloc, declared, ctx, head)?;
    for i in 0..args.len() {
        let argument = type_in(alloc, declared, ctx, args.at(i))?;
        ty = applied_to(alloc, ty, argument)?;
    }
    Ok(ty)
}

/// The type of a canonical term without its first `i` binders, which are in scope.
#[cycle(canonical)]
fn type_under(
    alloc: Global,
    declared: &Declared,
    ctx: &Context,
    binders: &Types,
    i: usize,
    head: &Head,
    args: &Nfs,
) -> Result<Option<Ty>, AllocError>
    ensures { IfOk result (λ o. option_map the_type o ≡ canonical_type (declared_scope declared.now) (the_context ctx.now)
        (lambdas (drop i binders.now) (applied (the_head head.now) args.now))) }
{
    if i >= binders.len() {
        let inside = spine_type(alloc, declared, ctx, head, args)?;
        return Ok(where_of_base(inside));
    }
    let a = binders.at(i);
    let inner = Context::Inner(&*a, &*ctx);
    let outcome = type_under(alloc, declared, &inner, binders, i + 1, head, args)?;
    Ok(abstracted(alloc, declared, a, outcome)?)
}

/// The type of a canonical term.
#[cycle(canonical)]
fn type_in(
    alloc: Global,
    declared: &Declared,
    ctx: &Context,
    nf: &Nf,
) -> Result<Option<Ty>, AllocError>
    ensures { IfOk result (λ o. option_map the_type o ≡ canonical_type (declared_scope declared.now) (the_context ctx.now) nf.now) }
{
    Ok(type_under(alloc, declared, ctx, &nf.binders, 0, &nf.head, &nf.args)?)
}

/// The type of a closed canonical term over a signature and witnesses of these types, or none where the term isn't closed or canonical
/// or has no type there.
pub fn type_of_closed(
    alloc: Global,
    sig: &Signature,
    wits: &Types,
    nf: &Nf,
) -> Result<Option<Ty>, AllocError>
    ensures { IfOk result (λ o. option_map the_type o ≡ canonical_type (the_scope sig.now wits.now) [] nf.now) }
{
    Ok(type_in(alloc, &Declared { sig, wits }, &Context::Empty, nf)?)
}
