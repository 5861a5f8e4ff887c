//! Turns of a search.
ghost use Rattle.std.specs.Prelude.{◌≡◌, ◌+◌, ◌≤◌, false, IfOk, IfSome, IfNone, OnOk};
ghost use Rattle.search_spec.specs.Result.{GoesOnUntil};
ghost use Rattle.prover_state.specs.Internal.Standing.{setting_by};
ghost use Rattle.prover_search.specs.Internal.Running.{start_in, IsUnderWay};
ghost use Rattle.prover_run.specs.Internal.Ends.{GoesOnTo};
ghost use Rattle.mode_schedule.specs.Internal.Searching.{IsAt, IsFound, ClosesSearch};
ghost use Rattle.mode_schedule.specs.Internal.Turning.{TurnEnds};

use crate::turned::Turned;
use command_queue::Weigher;
use prover_search::{Search, Stepped, Waiting};
use std::alloc::AllocError;
use term_bank::equal_ids_for_equal_terms;

/// Looks at the run of a search. The answer is how it ends; where it goes on, a command is carried out.
fn look<W: Weigher<Waiting>>(search: &mut Search<W>) -> Result<Option<Turned>, AllocError>
    requires under_way { IsUnderWay search.old.core.tables search.old.core.plan search.old.mode }
    requires ready { search.old.is_refused ≡ false }
    ensures found { IfOk result (λ o. IfSome o (λ t.
        GoesOnUntil (setting_by search.old.core.tables search.old.core.plan) (start_in search.old.core.tables) search.old.core.tables.done
        → IsFound (setting_by search.old.core.tables search.old.core.plan) (start_in search.old.core.tables)
        search.old.core.tables.done t)) }
    ensures closes { IfOk result (λ o. IfSome o (ClosesSearch search.new.core.tables search.new.core.plan)) }
    ensures same { IfOk result (λ o. IfSome o (λ t. search.new.core.tables.done ≡ search.old.core.tables.done)) }
    ensures goes_on { IfOk result
        (λ o. IfNone o (GoesOnTo search.old.core.tables search.old.core.plan search.new.core.tables search.new.core.plan)) }
    ensures under_way { OnOk result (IsUnderWay search.new.core.tables search.new.core.plan search.new.mode) }
    ensures setting { OnOk result (setting_by search.new.core.tables search.new.core.plan ≡ setting_by search.old.core.tables
        search.old.core.plan) }
    ensures start { OnOk result (start_in search.new.core.tables ≡ start_in search.old.core.tables) }
    ensures mode { search.new.mode ≡ search.old.mode }
    ensures ready { OnOk result (search.new.is_refused ≡ false) }
{
    match search.step()? {
        Stepped::Closed => Ok(Some(Turned::Closed)),
        Stepped::Empty => Ok(Some(Turned::HasNoneLeft)),
        Stepped::Limit => Ok(Some(Turned::IsAtLimit)),
        Stepped::Spent { conflicts } => {
            // No two numbers have the same atom, and the log is asked for its clauses on what was learned.
            equal_ids_for_equal_terms(&search.core.tables.basis.bank);
            search.core.tables.basis.lits.atoms_differ();
            let _log = search.log();
            Ok(Some(Turned::Spent { conflicts }))
        }
        Stepped::Went => Ok(None),
    }
}

/// A turn of a search: it looks before each command, and carries out as many as its slice has at most.
pub(crate) fn take_turn<W: Weigher<Waiting>>(
    search: &mut Search<W>,
    slice: u32,
) -> Result<Turned, AllocError>
    requires under_way { IsUnderWay search.old.core.tables search.old.core.plan search.old.mode }
    requires ready { search.old.is_refused ≡ false }
    requires until { GoesOnUntil (setting_by search.old.core.tables search.old.core.plan) (start_in search.old.core.tables)
        search.old.core.tables.done }
    ensures ends { IfOk result (TurnEnds (setting_by search.old.core.tables search.old.core.plan) (start_in search.old.core.tables) slice
        search.old.core.tables.done search.new.core.tables.done) }
    ensures later { OnOk result (search.old.core.tables.done ≤ search.new.core.tables.done) }
    ensures closes { IfOk result (ClosesSearch search.new.core.tables search.new.core.plan) }
    ensures under_way { OnOk result (IsUnderWay search.new.core.tables search.new.core.plan search.new.mode) }
    ensures setting { OnOk result (setting_by search.new.core.tables search.new.core.plan ≡ setting_by search.old.core.tables
        search.old.core.plan) }
    ensures start { OnOk result (start_in search.new.core.tables ≡ start_in search.old.core.tables) }
    ensures mode { search.new.mode ≡ search.old.mode }
    ensures ready { OnOk result (search.new.is_refused ≡ false) }
{
    for _commands in 0..slice {
        if let Some(turned) = look(search)? {
            return Ok(turned);
        }
    }
    Ok(Turned::Paused)
}
