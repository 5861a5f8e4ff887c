//! Eta-long forms.

ghost use Rattle.std.specs.Prelude.{◌≡◌, map, IfOk};
ghost use Rattle.stt_core.specs.Lambda.{applied};
ghost use Rattle.stt_core.specs.View.{the_head, the_type};
ghost use Rattle.stt_core.specs.Lift.{lift};
ghost use Rattle.normal_forms.specs.Normal.{eta};

use crate::lift::{lift_head, lift_nf};
use crate::part::{bind, spine};
use std::alloc::{AllocError, Global};
use stt_core::{Head, Nf, Nfs, Ty};

fn lift_all(alloc: Global, nfs: &Nfs) -> Result<Nfs, AllocError>
    ensures { IfOk result (λ us. us ≡ map (lift 0) nfs.now) }
{
    let mut all = Nfs::new(alloc);
    for i in 0..nfs.len() {
        let nf = lift_nf(alloc, 1, 0, nfs.at(i))?;
        all.push(nf)?;
    }
    Ok(all)
}

/// The eta-long form of a head with arguments, which has this type.
pub fn eta_long(alloc: Global, ty: &Ty, head: Head, args: Nfs) -> Result<Nf, AllocError>
    ensures { IfOk result (λ nf. nf ≡ eta (the_type ty.now) (applied (the_head head) args)) }
{
    match ty {
        Ty::Base(_) => Ok(spine(alloc, head, args)),
        Ty::Arrow(argument, rest) => {
            let variable = eta_long(alloc, argument, Head::Bound(0), Nfs::new(alloc))?;
            let lifted = lift_head(alloc, 1, 0, &head)?;
            let mut all = lift_all(alloc, &args)?;
            all.push(variable)?;
            let inside = eta_long(alloc, rest, lifted, all)?;
            Ok(bind(alloc, argument, inside)?)
        }
    }
}
