//! The clauses of instances, for the solver too.
ghost use Rattle.std.specs.Prelude.{◌≡◌, ◌<◌, ◌≤◌, List, length, map, slice_get, Some, OnOk, IfOk};
ghost use Rattle.std.specs.List.{All, list_all, flat_map};
ghost use Rattle.sat_base.specs.declared.literal.SatLit.{SatLit};
ghost use Rattle.tableau_calculus.specs.Literals.{Literal};
ghost use Rattle.tableau_calculus.specs.Each.{Each};
ghost use Rattle.search_spec.specs.Clauses.{instance_clauses, with_clauses};
ghost use Rattle.search_spec.specs.Numbered.{numbers};
ghost use Rattle.search_spec.specs.Shallow.{is_shallow_literal};
ghost use Rattle.literal_map.specs.Atoms.{bank_literal, IsAtom};
ghost use Rattle.sat_core.specs.Solver.{learned};
ghost use Rattle.tableau_clauses.specs.Table.{the_clauses};
ghost use Rattle.prover_state.specs.Internal.Names.{IsNumberIn};
ghost use Rattle.prover_state.specs.Internal.Steps.{StepsGrow};

use literal_map::{Instance, LitLists, LitTable};
use sat_base::SatLit;
use sat_core::Solver;
use std::alloc::{AllocError, Global};
use tableau_clauses::StepTable;
use term_bank::Bank;

/// How deep a literal is at most that enters the clauses.
pub const DEPTH: usize = 4096;

/// The literal at a place of a list.
pub(crate) fn literal_of(literals: &[SatLit], i: usize) -> SatLit
    requires { i < length literals.now }
    ensures { slice_get literals.now i ≡ Some result }
{
    literals[i]
}

/// Whether no literal is too deep.
pub(crate) fn are_shallow(bank: &Bank, lits: &LitTable, literals: &[SatLit]) -> bool
    requires atoms { All (IsAtom bank.now) lits.now }
    requires numbers { Each (IsNumberIn lits.now) literals.now }
    ensures { result ≡ list_all is_shallow_literal (map (bank_literal bank.now.terms lits.now) literals.now) }
{
    for i in 0..literals.len() {
        if bank.depth(lits.formula_of(literal_of(literals, i))) > DEPTH {
            return false;
        }
    }
    true
}

/// Whether no literal of the lists is too deep.
pub(crate) fn all_shallow(bank: &Bank, lits: &LitTable, lists: &LitLists) -> bool
    requires atoms { All (IsAtom bank.now) lits.now }
    requires numbers { Each (Each (IsNumberIn lits.now)) lists.now }
    ensures { result ≡ list_all (list_all is_shallow_literal) (map (map (bank_literal bank.now.terms lits.now)) lists.now) }
{
    for i in 0..lists.len() {
        if !are_shallow(bank, lits, lists.at(i).as_slice()) {
            return false;
        }
    }
    true
}

/// The literals of the lists, one list after the other.
pub(crate) fn joined(alloc: Global, lists: &LitLists) -> Result<Vec<SatLit>, AllocError>
    ensures { IfOk result (λ all. all.items ≡ flat_map (λ (a : List SatLit). a) lists.now) }
{
    let mut all = Vec::new(alloc);
    for i in 0..lists.len() {
        all.extend_from_slice(lists.at(i).as_slice())?;
    }
    Ok(all)
}

/// Makes a variable for each atom.
pub fn make_variables(solver: &mut Solver, atoms: usize) -> Result<(), AllocError>
    ensures clauses { solver.new.clauses ≡ solver.old.clauses }
    ensures learned { learned solver.new ≡ learned solver.old }
    ensures made { OnOk result (atoms ≤ length solver.new.values) }
    ensures log { solver.new.log ≡ solver.old.log }
{
    while solver.variables() < atoms {
        solver.new_var()?;
    }
    Ok(())
}

/// Adds the clauses of an instance that aren't there yet, and keeps the instance.
pub(crate) fn add_clauses(
    steps: &mut StepTable,
    solver: &mut Solver,
    atoms: usize,
    instance: Instance,
) -> Result<(), AllocError>
    requires numbers { Each (Each (λ l. l.var.0 < atoms)) (with_clauses numbers (the_clauses steps.old)
        (instance_clauses numbers instance.principals instance.alternatives)) }
    requires same { solver.old.clauses ≡ the_clauses steps.old }
    ensures clauses { OnOk result (the_clauses steps.new ≡ with_clauses numbers (the_clauses steps.old)
        (instance_clauses numbers instance.principals instance.alternatives)) }
    ensures same { OnOk result (solver.new.clauses ≡ the_clauses steps.new) }
    ensures steps { OnOk result (StepsGrow (λ i. i ≡ instance) steps.old steps.new) }
    ensures learned { learned solver.new ≡ learned solver.old }
    ensures log { solver.new.log ≡ solver.old.log }
{
    make_variables(solver, atoms)?;
    let new = steps.add(instance)?;
    for n in new.start..new.end {
        let clause = steps.clause(n)?;
        solver.add(&clause)?;
    }
    Ok(())
}
