//! Normal forms of typed terms.

ghost use Rattle.std.specs.Prelude.{◌≡◌, length, reverse, IfOk, IsSome};
ghost use Rattle.stt_core.specs.Lambda.{IsLeaf};
ghost use Rattle.stt_core.specs.Typing.{IsScope, AreDeclared, type_of};
ghost use Rattle.stt_core.specs.Internal.CanonicalType.{canonical_type};
ghost use Rattle.stt_core.specs.View.{the_head, the_type, the_term};
ghost use Rattle.stt_core.specs.ScopeView.{the_scope};
ghost use Rattle.stt_core.specs.ContextView.{the_context, declared_scope};
ghost use Rattle.normal_forms.specs.Normal.{apply_each, eta_if, normal_form};
ghost use Rattle.normal_forms.specs.Laws.{HaveSameValue};
ghost use Rattle.normal_forms.specs.Ready.{ArgumentsApply};
ghost use Rattle.normal_forms.specs.Internal.Applying.{IsApplicable, result_after};

use crate::apply::apply_nf;
use crate::eta::eta_long;
use crate::part::bind;
use std::alloc::{AllocError, Global};
use stt_core::{Context, Declared, Nf, Nfs, Signature, Term, Ty, Types, head_type};

/// The type of what a function of this type gives at `n` arguments.
fn outcome(ty: &Ty, n: usize) -> &Ty
    ensures { the_type result.now ≡ result_after n (the_type ty.now) }
{
    if n == 0 {
        return ty;
    }
    match ty {
        Ty::Arrow(_, rest) => outcome(rest, n - 1),
        Ty::Base(_) => ty,
    }
}

/// The normal form of a variable or a constant that is applied to canonical arguments. It isn't inlined, so that the function above it,
/// which calls itself for each level of a term, takes little of the stack.
#[inline(never)]
fn normal_head(
    alloc: Global,
    declared: &Declared,
    ctx: &Context,
    term: &Term,
    args: Nfs,
) -> Result<Nf, AllocError>
    requires leaf { IsLeaf (the_term term.now) }
    requires fits { IsApplicable (declared_scope declared.now) (the_context ctx.now) (the_term term.now) args }
    ensures { IfOk result (λ nf. nf ≡ apply_each (normal_form (declared_scope declared.now) (the_context ctx.now) (the_term term.now))
        args) }
{
    let head = term.to_head(alloc)?;
    match head_type(alloc, declared, ctx, &head)? {
        Some(ty) => Ok(eta_long(alloc, outcome(&ty, args.len()), head, args)?),
        None => unreachable!(),
    }
}

/// A canonical function applied to canonical arguments, one after the other.
fn apply_in_turn(alloc: Global, f: Nf, args: &Nfs) -> Result<Nf, AllocError>
    requires { ArgumentsApply f args.now }
    ensures { IfOk result (λ nf. nf ≡ apply_each f args.now) }
{
    let mut f = f;
    for i in 0..args.len() {
        f = apply_nf(alloc, &f, args.at(i))?;
    }
    Ok(f)
}

/// The normal form of a term that is applied to canonical arguments.
fn normal_applied(
    alloc: Global,
    declared: &Declared,
    ctx: &Context,
    term: &Term,
    mut args: Nfs,
) -> Result<Nf, AllocError>
    requires { IsApplicable (declared_scope declared.now) (the_context ctx.now) (the_term term.now) args }
    ensures { IfOk result (λ nf. nf ≡ apply_each (normal_form (declared_scope declared.now) (the_context ctx.now) (the_term term.now))
        args) }
{
    match term {
        Term::App(function, argument) => {
            let argument = normal_applied(alloc, declared, ctx, argument, Nfs::new(alloc))?;
            args.push_front(argument)?;
            Ok(normal_applied(alloc, declared, ctx, function, args)?)
        }
        Term::Lam(a, body) => {
            let inner = Context::Inner(&*a, &*ctx);
            let body = normal_applied(alloc, declared, &inner, body, Nfs::new(alloc))?;
            let function = bind(alloc, a, body)?;
            Ok(apply_in_turn(alloc, function, &args)?)
        }
        _ => Ok(normal_head(alloc, declared, ctx, term, args)?),
    }
}

/// The eta-long beta-normal form of a term that has a type over a signature and witnesses of these types. `ctx` has the types of the
/// term's free bound variables: the last one is the innermost, that of `Bound(0)`.
pub fn normalise(
    alloc: Global,
    sig: &Signature,
    wits: &Types,
    ctx: &Types,
    term: &Term,
) -> Result<Nf, AllocError>
    requires typed { IsSome (type_of (the_scope sig.now wits.now) (reverse ctx.now) (the_term term.now)) }
    requires declared { IsScope (the_scope sig.now wits.now) }
    requires context_declared { AreDeclared (length sig.now.bases) ctx.now }
    ensures form { IfOk result (λ nf. nf ≡ normal_form (the_scope sig.now wits.now) (reverse ctx.now) (the_term term.now)) }

    // The same type and value as the term.
    ensures same_type { IfOk result (λ nf. canonical_type (the_scope sig.now wits.now) (reverse ctx.now) nf ≡ type_of
        (the_scope sig.now wits.now) (reverse ctx.now) (the_term term.now)) }
    ensures same_value { IfOk result (λ nf. HaveSameValue (the_scope sig.now wits.now) (reverse ctx.now) nf (the_term term.now)) }
{
    let declared = Declared { sig, wits };
    Ok(normal_applied(
        alloc,
        &declared,
        &Context::Outer(ctx),
        term,
        Nfs::new(alloc),
    )?)
}
