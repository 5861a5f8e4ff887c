//! Trees without cut from the log of a run.
ghost use Rattle.std.specs.Prelude.{◌≡◌, ◌++◌, [], ◌∷◌, IfOk};
ghost use Rattle.sat_log.specs.Chains.{results};
ghost use Rattle.sat_core.specs.Solver.{learned};
ghost use Rattle.prover_state.specs.Internal.Standing.{without_witnesses};
ghost use Rattle.prover_search.specs.Internal.Running.{start_in};
ghost use Rattle.prover_run.specs.RunTables.{AreRunTables, input_of};
ghost use Rattle.prover_run.specs.Tree.{IsTreeFor, IsTreeAsked};

use plain_tableau::{Stripped, strip, trees_are_small, used_may_be_used};
use prover_state::Tables;
use std::alloc::{AllocError, Global};
use tableau_rebuild::used;
use term_bank::equal_ids_for_equal_terms;

/// What comes of the instances that a run's log uses, as a tree without cut of at most so many nodes.
pub fn tree_of(alloc: Global, tables: &Tables, nodes: u32) -> Result<Stripped, AllocError>
    requires run { AreRunTables tables.now }
    requires ends { results tables.now.solver.log ≡ learned tables.now.solver ++ [] ∷ [] }
    ensures { IfOk result (IsTreeFor (without_witnesses tables.now.basis.bank) (start_in tables.now) (start_in tables.now)
        (input_of tables.now) nodes) }
{
    let basis = &tables.basis;
    let steps = &tables.steps;
    let log = tables.solver.log();
    steps.clauses_come_from_origins();
    steps.clauses_stand_in_order();
    equal_ids_for_equal_terms(&basis.bank);
    basis.lits.atoms_differ();
    used_may_be_used(&basis.bank, &basis.lits, steps, log, &basis.witnesses);
    trees_are_small(&basis.bank, &basis.lits, steps, log, &basis.witnesses);
    let instances = used(alloc, steps, log)?;
    let stripped = strip(
        alloc,
        &basis.bank,
        &basis.lits,
        steps,
        &basis.witnesses,
        &instances,
        nodes,
    )?;
    Ok(stripped)
}

/// The same where a tree is asked for.
pub fn tree_asked(
    alloc: Global,
    tables: &Tables,
    nodes: Option<u32>,
) -> Result<Option<Stripped>, AllocError>
    requires run { AreRunTables tables.now }
    requires ends { results tables.now.solver.log ≡ learned tables.now.solver ++ [] ∷ [] }
    ensures { IfOk result (IsTreeAsked (without_witnesses tables.now.basis.bank) (start_in tables.now) (start_in tables.now)
        (input_of tables.now) nodes) }
{
    match nodes {
        None => Ok(None),
        Some(nodes) => {
            let stripped = tree_of(alloc, tables, nodes)?;
            Ok(Some(stripped))
        }
    }
}
