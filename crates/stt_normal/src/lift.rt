//! Terms under more binders.

ghost use Rattle.std.specs.Prelude.{◌≡◌, ◌+◌, IfOk};
ghost use Rattle.stt_core.specs.View.{the_head};
ghost use Rattle.stt_core.specs.Lift.{lift_by};

use crate::part::append;
use std::alloc::{AllocError, Global};
use stt_core::{Head, Nf, Nfs, Types};

/// The sum, where there can be so many binders.
pub fn deeper(from: u32, by: usize) -> Result<u32, AllocError>
    ensures { IfOk result (λ n. n ≡ from + by) }
{
    match u32::try_from(by) {
        Ok(by) => from.checked_add(by).ok_or(AllocError),
        Err(_) => Err(AllocError),
    }
}

/// The head where `by` binders are added behind the `from` innermost ones.
pub fn lift_head(alloc: Global, by: u32, from: u32, head: &Head) -> Result<Head, AllocError>
    ensures { IfOk result (λ lifted. the_head lifted ≡ lift_by by from (the_head head.now)) }
{
    match head {
        Head::Bound(j) => {
            if from <= *j {
                Ok(Head::Bound(deeper(*j, by as usize)?))
            } else {
                Ok(Head::Bound(*j))
            }
        }
        _ => Ok(head.try_clone(alloc)?),
    }
}

/// The term where `by` binders are added behind the `from` innermost ones.
pub fn lift_nf(alloc: Global, by: u32, from: u32, nf: &Nf) -> Result<Nf, AllocError>
    ensures { IfOk result (λ lifted. lifted ≡ lift_by by from nf.now) }
{
    let inner = deeper(from, nf.binders.len())?;
    let mut args = Nfs::new(alloc);
    for i in 0..nf.args.len() {
        let arg = lift_nf(alloc, by, inner, nf.args.at(i))?;
        args.push(arg)?;
    }
    let mut binders = Types::new(alloc);
    append(alloc, &mut binders, &nf.binders, 0)?;
    let head = lift_head(alloc, by, inner, &nf.head)?;
    Ok(Nf {
        binders,
        head,
        args,
    })
}
