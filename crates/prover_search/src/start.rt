//! The start of a search.
ghost use Rattle.std.specs.Prelude.{◌≡◌, ◌<◌, [], ◌∷◌, map, OnOk};
ghost use Rattle.std.specs.List.{All};
ghost use Rattle.tableau_calculus.specs.Start.{without_repeats};
ghost use Rattle.sat_core.specs.Solver.{learned};
ghost use Rattle.search_spec.specs.After.{nothing_yet};
ghost use Rattle.head_offers.specs.Offering.{the_offers};
ghost use Rattle.search_spec.specs.Instances.{with_instance};
ghost use Rattle.literal_map.specs.Atoms.{bank_literal};
ghost use Rattle.tableau_clauses.specs.Table.{the_clauses};
ghost use Rattle.prover_state.specs.Internal.Names.{IsNumberIn};
ghost use Rattle.prover_state.specs.Internal.Standing.{IsRightState};
ghost use Rattle.prover_state.specs.Internal.Advancing.{the_literal, state_in, StaysRight};
ghost use Rattle.prover_search.specs.Internal.Starting.{AddsUnit, AddsStart, IsStarting};

use command_queue::Weigher;
use prover_state::{Core, DEPTH, Waiting, make_variables};
use sat_base::{Clause, SatLit};
use sat_core::Solver;
use std::alloc::{AllocError, Global};
use tableau_clauses::StepTable;
use term_bank::equal_ids_for_equal_terms;

/// Adds a start unit, for the solver too.
fn add_unit(
    steps: &mut StepTable,
    solver: &mut Solver,
    alloc: Global,
    atoms: usize,
    lit: SatLit,
) -> Result<(), AllocError>
    requires number { lit.var.0 < atoms }
    requires same { solver.old.clauses ≡ the_clauses steps.old }
    ensures unit { OnOk result (AddsUnit lit steps.old steps.new) }
    ensures same { OnOk result (solver.new.clauses ≡ the_clauses steps.new) }
    ensures learned { OnOk result (learned solver.new ≡ learned solver.old) }
{
    if !steps.start(lit)? {
        return Ok(());
    }
    make_variables(solver, atoms)?;
    let mut clause = Clause::new(alloc);
    clause.push(lit)?;
    solver.add(&clause)?;
    Ok(())
}

/// A literal is a start unit, is seen, and is to be processed, unless it is too deep or was one before.
fn start_with<W: Weigher<Waiting>>(core: &mut Core<W>, lit: SatLit) -> Result<(), AllocError>
    requires right { IsRightState core.old.tables core.old.plan }
    requires number { IsNumberIn core.old.tables.basis.lits lit }
    ensures state { OnOk result (state_in core.new
        ≡ with_instance core.old.plan.rule.mode [] ((the_literal core.old.tables.basis lit ∷ []) ∷ []) (state_in core.old)) }
    ensures stays { OnOk result (StaysRight core.old core.new) }
    ensures basis { OnOk result (core.new.tables.basis ≡ core.old.tables.basis) }
    ensures steps { OnOk result (AddsStart lit core.old.tables core.new.tables) }
{
    let basis = &core.tables.basis;
    if basis.bank.depth(basis.lits.formula_of(lit)) > DEPTH {
        return Ok(());
    }
    equal_ids_for_equal_terms(&basis.bank);
    basis.lits.atoms_differ();
    let atoms = basis.lits.len();
    let alloc = core.tables.alloc;
    let tables = &mut core.tables;
    add_unit(&mut tables.steps, &mut tables.solver, alloc, atoms, lit)?;
    core.see(lit)?;
    Ok(())
}

/// Starts from these literals, in order.
pub(crate) fn start_all<W: Weigher<Waiting>>(
    core: &mut Core<W>,
    start: &[SatLit],
) -> Result<(), AllocError>
    requires state { state_in core.old ≡ record nothing_yet { offers = the_offers core.old.tables.offers } }
    requires right { IsRightState core.old.tables core.old.plan }
    requires steps { core.old.tables.steps ≡ ([], []) }
    requires numbers { All (IsNumberIn core.old.tables.basis.lits) start.now }
    ensures { OnOk result (IsStarting core.old.tables core.old.plan core.new.tables core.new.plan
        (without_repeats (map (bank_literal core.old.tables.basis.bank.terms core.old.tables.basis.lits) start.now))) }
{
    for i in 0..start.len() {
        start_with(core, start[i])?;
    }
    Ok(())
}
