//! Runs to their end.
ghost use Rattle.std.specs.Prelude.{◌≡◌, ◌+◌, ◌++◌, [], ◌∷◌, false, length, IfOk, IfSome, IfNone, OnOk};
ghost use Rattle.stt_core.specs.TypedProblem.{IsTyped};
ghost use Rattle.delta_defs.specs.Unfolding.{unfolded_problem};
ghost use Rattle.sat_log.specs.Chains.{results};
ghost use Rattle.sat_log.specs.Propagation.{ReachesFalse};
ghost use Rattle.sat_core.specs.Solver.{learned};
ghost use Rattle.mode_file.specs.Given.{IsInRange};
ghost use Rattle.search_spec.specs.Result.{GoesOnUntil};
ghost use Rattle.type_bound.specs.Modest.{IsModestProblem};
ghost use Rattle.prover_state.specs.Delays.{delay_by};
ghost use Rattle.prover_state.specs.Internal.Standing.{without_witnesses, rows_in, setting_by};
ghost use Rattle.prover_search.specs.Internal.Running.{start_in, IsUnderWay};
ghost use Rattle.prover_run.specs.Ended.{RefutesFrom, EndsAs};
ghost use Rattle.prover_run.specs.RunTables.{AreRunTables, clauses_of};
ghost use Rattle.prover_run.specs.Internal.Ends.{RefutesByTables, EndsFrom, GoesOnTo};

use crate::delays::delay;
use crate::ended::Ended;
use crate::tree::tree_asked;
use command_queue::Weigher;
use mode_file::Mode;
use prover_search::{Command, Search, Stepped, Waiting};
use prover_state::Tables;
use refute_share::SharedRefutation;
use std::alloc::{AllocError, Global};
use stt_core::Problem;
use tableau_rebuild::{rebuild_shared, tables_are_given};
use term_bank::equal_ids_for_equal_terms;

/// The refutation that is rebuilt from the tables of a run whose clauses are unsatisfiable.
fn refutation_by(alloc: Global, tables: &Tables) -> Result<SharedRefutation, AllocError>
    requires run { AreRunTables tables.now }
    requires ends { results tables.now.solver.log ≡ learned tables.now.solver ++ [] ∷ [] }
    requires propagated { ReachesFalse (tables.now.solver.clauses ++ learned tables.now.solver) [] }
    ensures { IfOk result (RefutesByTables tables.now) }
{
    tables.steps.clauses_come_from_origins();
    equal_ids_for_equal_terms(&tables.basis.bank);
    tables.basis.lits.atoms_differ();
    let log = tables.solver.log();
    let basis = &tables.basis;
    tables_are_given(
        &basis.bank,
        &basis.lits,
        &tables.steps,
        log,
        &basis.witnesses,
    );
    let refutation = rebuild_shared(
        alloc,
        &basis.bank,
        &basis.lits,
        &tables.steps,
        log,
        &basis.witnesses,
    )?;
    Ok(refutation)
}

/// The refutation from the log of a run whose clauses are unsatisfiable. It is small enough for a text, as all terms of a run are.
pub fn refutation_of(alloc: Global, tables: &Tables) -> Result<SharedRefutation, AllocError>
    requires run { AreRunTables tables.now }
    requires ends { results tables.now.solver.log ≡ learned tables.now.solver ++ [] ∷ [] }
    requires propagated { ReachesFalse (tables.now.solver.clauses ++ learned tables.now.solver) [] }
    ensures { IfOk result (RefutesFrom (without_witnesses tables.now.basis.bank) (start_in tables.now) (rows_in tables.now.basis)
        (clauses_of tables.now) (length (learned tables.now.solver))) }
{
    let refutation = refutation_by(alloc, tables)?;
    Ok(refutation)
}

/// Takes a step. The answer is how the run ends, where it ends there.
fn next<W: Weigher<Waiting>>(
    alloc: Global,
    search: &mut Search<W>,
    nodes: Option<u32>,
) -> Result<Option<Ended>, AllocError>
    requires under_way { IsUnderWay search.old.core.tables search.old.core.plan search.old.mode }
    requires ready { search.old.is_refused ≡ false }
    ensures ended { IfOk result (λ o. IfSome o (λ e. GoesOnUntil (setting_by search.old.core.tables search.old.core.plan) (start_in search.old.core.tables) search.old.core.tables.done
        → EndsFrom (setting_by search.old.core.tables search.old.core.plan) (start_in search.old.core.tables) nodes e)) }
    ensures goes_on { IfOk result
        (λ o. IfNone o (GoesOnTo search.old.core.tables search.old.core.plan search.new.core.tables search.new.core.plan)) }
    ensures under_way { OnOk result (IsUnderWay search.new.core.tables search.new.core.plan search.new.mode) }
    ensures mode { search.new.mode ≡ search.old.mode }
    ensures ready { OnOk result (search.new.is_refused ≡ false) }
{
    match search.step()? {
        Stepped::Closed => {
            let refutation = refutation_by(alloc, &search.core.tables)?;
            let tree = tree_asked(alloc, &search.core.tables, nodes)?;
            Ok(Some(Ended::Proved {
                commands: search.commands(),
                refutation,
                tree,
            }))
        }
        Stepped::Empty => Ok(Some(Ended::GaveUp {
            commands: search.commands(),
        })),
        Stepped::Limit => Ok(Some(Ended::CommandLimit {
            commands: search.commands(),
        })),
        Stepped::Spent { conflicts } => {
            // No two numbers have the same atom, and the log is asked for its clauses on what was learned.
            equal_ids_for_equal_terms(&search.core.tables.basis.bank);
            search.core.tables.basis.lits.atoms_differ();
            let _log = search.log();
            Ok(Some(Ended::ConflictLimit { conflicts }))
        }
        Stepped::Went => Ok(None),
    }
}

/// Runs a search from its start to its end.
fn run_on<W: Weigher<Waiting>>(
    alloc: Global,
    search: &mut Search<W>,
    limit: u32,
    nodes: Option<u32>,
) -> Result<Ended, AllocError>
    requires under_way { IsUnderWay search.old.core.tables search.old.core.plan search.old.mode }
    requires ready { search.old.is_refused ≡ false }
    requires done { search.old.core.tables.done ≡ 0 }
    requires limit { limit ≡ search.old.mode.commands }
    ensures { IfOk result (EndsFrom (setting_by search.old.core.tables search.old.core.plan) (start_in search.old.core.tables) nodes) }
{
    for _commands in 0..limit as u64 + 1 {
        if let Some(ended) = next(alloc, search, nodes)? {
            return Ok(ended);
        }
    }
    unreachable!()
}

/// Runs the search over a problem, whose definitions are unfolded, by a mode, with what computes when commands are due.
fn run_by<W: Weigher<Waiting>>(
    alloc: Global,
    problem: &Problem,
    mode: &Mode,
    nodes: Option<u32>,
    weigher: W,
) -> Result<Ended, AllocError>
    requires typed { IsTyped problem.now }
    requires modest { IsModestProblem 1024 problem.now }
    requires range { IsInRange mode.now }
    requires callable { W.is_callable weigher }
    requires answers { W.answers weigher (λ waiting now. now + delay_by mode.now waiting.first) }
    ensures { IfOk result (EndsAs (unfolded_problem problem.now) mode.now nodes) }
{
    let mut search = Search::new(alloc, problem, mode, weigher)?;
    let ended = run_on(alloc, &mut search, mode.commands, nodes);
    drop(search);
    ended
}

/// Runs the search over a problem, whose definitions are unfolded, by a mode, and makes a tree without cut of at most so many nodes where
/// one is asked for. The problem's types nest so little that each refutation is small enough for a text.
pub fn run(
    alloc: Global,
    problem: &Problem,
    mode: &Mode,
    nodes: Option<u32>,
) -> Result<Ended, AllocError>
    requires typed { IsTyped problem.now }
    requires modest { IsModestProblem 1024 problem.now }
    requires range { IsInRange mode.now }
    ensures { IfOk result (EndsAs (unfolded_problem problem.now) mode.now nodes) }
{
    let by = *mode;
    run_by(alloc, problem, mode, nodes, |waiting: &Waiting, now: u64| {
        now + delay(&by, &waiting.command()) as u64
    })
}
