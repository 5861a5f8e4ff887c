//! What is kept of a term beside its node, so that it needn't be looked for again.

ghost use Rattle.std.specs.Prelude.{◌≡◌, suc, IfOk};
ghost use Rattle.stt_core.specs.Internal.Missing.{missing_binders};
ghost use Rattle.stt_core.specs.View.{the_head};
ghost use Rattle.term_bank.specs.Internal.Marks.{greater, greatest_witness};

use std::alloc::AllocError;
use stt_core::Head;

/// How deep a term nests, how many binders more would bind each of its variables, and its greatest witness.
#[derive(Clone, Copy, Drop)]
pub(crate) struct Marks {
    pub depth: u32,
    pub missing: u32,
    pub greatest: Option<u32>,
}

/// The number after this one. There is no room for marks above 2^32 - 1.
pub(crate) fn after(n: u32) -> Result<u32, AllocError>
    ensures { IfOk result (λ m. m ≡ suc n) }
{
    match n.checked_add(1) {
        Some(m) => Ok(m),
        None => Err(AllocError),
    }
}

/// The greater of two numbers, each of which may be missing.
pub(crate) fn greater_of(a: Option<u32>, b: Option<u32>) -> Option<u32>
    ensures { result ≡ greater a b }
{
    match a {
        None => b,
        Some(m) => match b {
            None => Some(m),
            Some(n) => Some(m.max(n)),
        },
    }
}

/// How many binders more would bind the head.
pub(crate) fn missing_at(head: &Head) -> Result<u32, AllocError>
    ensures { IfOk result (λ n. n ≡ missing_binders (the_head head.now)) }
{
    match head {
        Head::Bound(k) => after(*k),
        _ => Ok(0),
    }
}

/// The head's witness, where it is one.
pub(crate) fn witness_at(head: &Head) -> Option<u32>
    ensures { result ≡ greatest_witness (the_head head.now) }
{
    match head {
        Head::Wit(k) => Some(*k),
        _ => None,
    }
}
