//! What can be told of a canonical term without memory: how large it is, and what occurs in it.

ghost use Rattle.std.specs.Prelude.{◌≡◌, ◌-◌, ◌^◌, min, IsTrue, ◌↔◌};
ghost use Rattle.stt_core.specs.Lambda.{name, node_count};
ghost use Rattle.stt_core.specs.Occurrence.{IsClosed, Occurs};
ghost use Rattle.stt_core.specs.Internal.Missing.{missing_binders};
ghost use Rattle.stt_core.specs.View.{the_head};

use crate::nf::{Head, Nf};

/// How many nodes the term has, without those of its types: a node for each binder, each application, and each variable or constant.
/// The greatest `u64` where there are more.
pub fn size_sat(nf: &Nf) -> u64
    ensures { result ≡ min (node_count nf.now) (2 ^ 64 - 1) }
{
    let mut size = (nf.binders.len() as u64).saturating_add(1);
    for i in 0..nf.args.len() {
        size = size
            .saturating_add(1)
            .saturating_add(size_sat(nf.args.at(i)));
    }
    size
}

fn missing_at(head: &Head) -> u64
    ensures { result ≡ missing_binders (the_head head.now) }
{
    match head {
        Head::Bound(k) => u64::from(*k) + 1,
        _ => 0,
    }
}

/// How many binders more would bind every variable of the term.
fn missing_around(nf: &Nf) -> u64
    ensures { result ≡ missing_binders nf.now }
{
    let mut missing = missing_at(&nf.head);
    for i in 0..nf.args.len() {
        missing = missing.max(missing_around(nf.args.at(i)));
    }
    missing.saturating_sub(nf.binders.len() as u64)
}

/// Whether no bound variable is free in the term.
pub fn closed(nf: &Nf) -> bool
    ensures { IsTrue result ↔ IsClosed nf.now }
{
    missing_around(nf) == 0
}

fn is_name(head: &Head, place: u32) -> bool
    ensures { IsTrue result ↔ Occurs (name place) (the_head head.now) }
{
    match head {
        Head::Name(k) => *k == place,
        _ => false,
    }
}

/// Whether a constant of the signature, given by its place, occurs in the term.
pub fn occurs(nf: &Nf, place: u32) -> bool
    ensures { IsTrue result ↔ Occurs (name place) nf.now }
{
    if is_name(&nf.head, place) {
        return true;
    }
    for i in 0..nf.args.len() {
        if occurs(nf.args.at(i), place) {
            return true;
        }
    }
    false
}
