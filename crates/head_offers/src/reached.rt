//! The terms that occur in others.
ghost use Rattle.std.specs.Prelude.{◌≡◌, ◌<◌, ℕ, Bool, length, map, IfOk};
ghost use Rattle.std.specs.List.{All};
ghost use Rattle.stt_core.specs.Lambda.{Constant};
ghost use Rattle.term_bank.specs.Terms.{term_at};
ghost use Rattle.head_offers.specs.Offering.{occurs_among};
ghost use Rattle.head_offers.specs.Internal.Passing.{any_passes};

use crate::marks::{mark_all, mark_parts};
use std::alloc::{AllocError, Global};
use term_bank::{Bank, Id};

/// A number of a term. Where it is too great, there is no memory.
fn id_at(n: usize) -> Result<Id, AllocError>
    ensures { IfOk result (λ id. id ≡ n) }
{
    if n > u32::MAX as usize {
        return Err(AllocError);
    }
    Ok(n as Id)
}

/// The terms that occur in these, each once. A term stands on earlier ones, so one walk from the last term to the first finds them.
pub(crate) fn reached(alloc: Global, bank: &Bank, start: &[Id]) -> Result<Vec<Id>, AllocError>
    requires within { All (λ id. id < length bank.now.terms) start.now }
    ensures within { IfOk result (λ found. All (λ id. id < length bank.now.terms) found.items) }
    ensures heads { (test : Constant → Bool) → IfOk result (λ found. any_passes bank.now.terms test found.items ≡ occurs_among
        (map (term_at bank.now.terms) start.now) test) }
{
    let count = bank.len();
    let mut marks = vec![in alloc; false; count]?;
    mark_all(&mut marks, start);
    let mut found = Vec::new(alloc);
    for step in 0..count {
        let at = count - 1 - step;
        if marks[at] {
            let id = id_at(at)?;
            mark_parts(&mut marks, bank.node(id));
            found.push(id)?;
        }
    }
    Ok(found)
}
