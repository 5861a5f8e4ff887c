//! Canonical terms from parts.

ghost use Rattle.std.specs.Prelude.{◌≡◌, [], ◌∷◌, ◌++◌, IfOk, OnOk, drop};
ghost use Rattle.stt_core.specs.Lambda.{lam, lambdas, applied};
ghost use Rattle.stt_core.specs.View.{the_head, the_type};

use std::alloc::{AllocError, Global};
use stt_core::{Head, Nf, Nfs, Ty, Types};

/// A head with its arguments.
pub fn spine(alloc: Global, head: Head, args: Nfs) -> Nf
    ensures { result ≡ applied (the_head head) args }
{
    Nf {
        binders: Types::new(alloc),
        head,
        args,
    }
}

/// The term under one binder more.
pub fn bind(alloc: Global, ty: &Ty, body: Nf) -> Result<Nf, AllocError>
    ensures { IfOk result (λ nf. nf ≡ lam (the_type ty.now) body) }
{
    let Nf {
        mut binders,
        head,
        args,
    } = body;
    binders.push_front(ty.try_clone(alloc)?)?;
    Ok(Nf {
        binders,
        head,
        args,
    })
}

/// Adds copies of the other list's types, from place `start` on.
pub fn append(
    alloc: Global,
    types: &mut Types,
    other: &Types,
    start: usize,
) -> Result<(), AllocError>
    ensures { OnOk result (types.new ≡ types.old ++ drop start other.now) }
{
    for i in start..other.len() {
        let ty = other.at(i).try_clone(alloc)?;
        types.push(ty)?;
    }
    Ok(())
}

/// The term under all but the first `skip` of these binders.
pub fn bind_all(alloc: Global, outer: &Types, skip: usize, body: Nf) -> Result<Nf, AllocError>
    ensures { IfOk result (λ nf. nf ≡ lambdas (drop skip outer.now) body) }
{
    let Nf {
        binders: inner,
        head,
        args,
    } = body;
    let mut binders = Types::new(alloc);
    append(alloc, &mut binders, outer, skip)?;
    append(alloc, &mut binders, &inner, 0)?;
    Ok(Nf {
        binders,
        head,
        args,
    })
}
