//! Canonical terms applied to canonical terms.

ghost use Rattle.std.specs.Prelude.{◌≡◌, ◌+◌, ◌≤◌, IfOk, drop, length};
ghost use Rattle.stt_core.specs.View.{the_head, the_type};
ghost use Rattle.normal_forms.specs.Normal.{ways, ways_of, replace, apply};
ghost use Rattle.normal_forms.specs.Ready.{CanApply, Replaces, AppliesAll, HeadReplaces};
ghost use Rattle.normal_forms.specs.Internal.Applying.{apply_ways, body_under};

use crate::lift::{deeper, lift_nf};
use crate::part::{bind_all, spine};
use std::alloc::{AllocError, Global};
use stt_core::{Head, Nf, Nfs, Ty};

/// The term without its first `skip` binders, with `r`, which has this type, for variable `k`.
#[cycle(apply)]
fn replace_nf(
    alloc: Global,
    ty: &Ty,
    k: u32,
    r: &Nf,
    nf: &Nf,
    skip: usize,
) -> Result<Nf, AllocError>
    requires { Replaces (the_type ty.now) k r.now (body_under skip nf.now) }
    ensures { IfOk result (λ t. t ≡ replace (ways (the_type ty.now)) k r.now (body_under skip nf.now)) }
{
    let inner = deeper(k, nf.binders.len().saturating_sub(skip))?;
    let mut args = Nfs::new(alloc);
    for i in 0..nf.args.len() {
        let arg = replace_nf(alloc, ty, inner, r, nf.args.at(i), 0)?;
        args.push(arg)?;
    }
    let inside = replace_head(alloc, ty, inner, r, &nf.head, args)?;
    Ok(bind_all(alloc, &nf.binders, skip, inside)?)
}

/// What the head becomes, applied to arguments that are replaced already.
#[cycle(apply)]
fn replace_head(
    alloc: Global,
    ty: &Ty,
    k: u32,
    r: &Nf,
    head: &Head,
    args: Nfs,
) -> Result<Nf, AllocError>
    requires { HeadReplaces (the_type ty.now) k r.now (the_head head.now) args }
    ensures { IfOk result (λ t. t ≡ apply_ways (ways_of (ways (the_type ty.now)) k (the_head head.now))
        (replace (ways (the_type ty.now)) k r.now (the_head head.now)) args) }
{
    match head {
        Head::Bound(j) => {
            if *j < k {
                Ok(spine(alloc, Head::Bound(*j), args))
            } else if *j == k {
                let f = lift_nf(alloc, k, 0, r)?;
                Ok(apply_all(alloc, ty, f, &args, 0)?)
            } else {
                Ok(spine(alloc, Head::Bound(*j - 1), args))
            }
        }
        _ => {
            let head = head.try_clone(alloc)?;
            Ok(spine(alloc, head, args))
        }
    }
}

/// A term of this type applied to the arguments from place `i` on, one after the other.
#[cycle(apply)]
fn apply_all(alloc: Global, ty: &Ty, f: Nf, args: &Nfs, i: usize) -> Result<Nf, AllocError>
    requires fits { AppliesAll (the_type ty.now) f (drop i args.now) }
    requires within { i ≤ length args.now }
    ensures { IfOk result (λ t. t ≡ apply_ways (ways (the_type ty.now)) f (drop i args.now)) }
{
    if i == args.len() {
        return Ok(f);
    }
    match ty {
        Ty::Arrow(argument, rest) => {
            let g = replace_nf(alloc, argument, 0, args.at(i), &f, 1)?;
            Ok(apply_all(alloc, rest, g, args, i + 1)?)
        }
        Ty::Base(_) => unreachable!(),
    }
}

/// The normal form of a canonical function applied to a canonical argument of its argument type.
pub fn apply_nf(alloc: Global, f: &Nf, a: &Nf) -> Result<Nf, AllocError>
    requires { CanApply f.now a.now }
    ensures { IfOk result (λ nf. nf ≡ apply f.now a.now) }
{
    Ok(replace_nf(alloc, f.binders.at(0), 0, a, f, 1)?)
}
