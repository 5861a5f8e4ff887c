//! Trees without cut.
ghost use Rattle.std.specs.Prelude.{◌≡◌, ◌<◌, ◌≤◌, ◌++◌, [], ◌∷◌, length, reverse, slice_get, Some, None, IfOk, All};
ghost use Rattle.sat_base.specs.declared.literal.SatLit.{SatLit};
ghost use Rattle.sat_base.specs.Literal.{IsOver};
ghost use Rattle.tableau_calculus.specs.Accepted.{IsAccepted};
ghost use Rattle.tableau_calculus.specs.Closed.{Closes, tableau_of};
ghost use Rattle.search_spec.specs.Numbered.{numbers};
ghost use Rattle.term_bank.specs.Content.{content_scope};
ghost use Rattle.literal_map.specs.Atoms.{IsAtom};
ghost use Rattle.witness_names.specs.Rows.{rows_of, AreRows};
ghost use Rattle.rebuild_spec.specs.Trimmed.{IsEachReached};
ghost use Rattle.small_rebuilt.specs.Small.{AreNumbersInRange};
ghost use Rattle.tableau_rebuild.specs.Tables.{atoms_at, unit_literals};
ghost use Rattle.tableau_rebuild.specs.Conditions.{AreUnitsNumbered};
ghost use Rattle.tableau_clauses.specs.Table.{the_clauses, start_units};
ghost use Rattle.plain_tableau.specs.Expansion.{first_clash};
ghost use Rattle.tableau_calculus.specs.CutFree.{HasNoCut};
ghost use Rattle.plain_tableau.specs.Tables.{the_used, start_branch, IsUsable, IsStripped, OfTree, IsWithinLimit};
ghost use Rattle.plain_tableau.specs.Internal.Due.{IsPath};
ghost use Rattle.plain_tableau.specs.Internal.Walking.{IsAhead};
ghost use Rattle.plain_tableau.specs.Internal.Writing.{IsWriting};

use crate::law::tree_is_accepted;
use crate::path::Path;
use crate::stripped::Stripped;
use crate::walk::{Grown, Walk};
use crate::writing::Writing;
use literal_map::LitTable;
use sat_base::SatLit;
use std::alloc::{AllocError, Global};
use tableau_clauses::{Origin, StepTable};
use tableau_rebuild::UsedList;
use term_bank::Bank;
use witness_names::Witnesses;

/// The literal of a start unit.
fn start_literal(steps: &StepTable, n: usize) -> Result<SatLit, AllocError>
    requires { (l : SatLit) × (slice_get (the_clauses steps.now) n ≡ Some (l ∷ [])) }
    ensures { IfOk result (λ l. slice_get (the_clauses steps.now) n ≡ Some (l ∷ [])) }
{
    let clause = steps.clause(n)?;
    Ok(clause.as_slice()[0])
}

/// The literals of the start units, in order.
fn start_literals(alloc: Global, steps: &StepTable) -> Result<Vec<SatLit>, AllocError>
    ensures { IfOk result (λ units. units.items ≡ start_units steps.now.0) }
{
    steps.clauses_come_from_origins();
    let mut units = Vec::new(alloc);
    for n in 0..steps.len() {
        match steps.origin(n) {
            Origin::Start => units.push(start_literal(steps, n)?)?,
            Origin::Instance(_) => {}
        }
    }
    Ok(units)
}

/// The start as a branch.
fn start_path(
    alloc: Global,
    bank: &Bank,
    atoms: &LitTable,
    steps: &StepTable,
    witnesses: &Witnesses,
    used: &[usize],
) -> Result<Path, AllocError>
    requires units { AreUnitsNumbered atoms.now steps.now }
    requires used { All (IsUsable bank.now atoms.now (rows_of bank.now.terms witnesses.now) steps.now) used.now }
    ensures path { IfOk result (IsPath (length atoms.now) steps.now used.now) }
    ensures start { IfOk result (λ path. path.literals.keys ≡ start_branch steps.now) }
{
    let mut path = Path::new(alloc, atoms.len(), steps, used)?;
    let units = start_literals(alloc, steps)?;
    for i in 0..units.len() {
        path.push(atoms.len(), steps, used, units[i])?;
    }
    Ok(path)
}

/// A start that is closed itself, as one node.
fn at_once(
    alloc: Global,
    bank: &Bank,
    atoms: &LitTable,
    steps: &StepTable,
    witnesses: &Witnesses,
    used: &[usize],
    nodes: u32,
    lit: SatLit,
    path: Path,
) -> Result<Stripped, AllocError>
    requires rows { AreRows bank.now witnesses.now }
    requires atoms { All (IsAtom bank.now) atoms.now }
    requires over { IsOver (length atoms.now) path.literals.keys }
    requires clash { first_clash numbers path.literals.keys ≡ Some lit }
    ensures exactly { IfOk result (IsStripped (atoms_at bank.now.terms atoms.now) (rows_of bank.now.terms witnesses.now)
        (the_used bank.now.terms atoms.now steps.now used.now) nodes path.literals.keys) }
    ensures in_range { IfOk result (OfTree AreNumbersInRange) }
{
    let _steps = steps.len();
    let _used = used.len();
    if nodes == 0 {
        return Ok(Stripped::Over { nodes });
    }
    let mut writing = Writing::new(alloc);
    writing.write_closing(alloc, bank, atoms, witnesses, lit, path.as_slice())?;
    let refutation = writing.finish(alloc, bank, atoms, witnesses)?;
    Ok(Stripped::Tree {
        refutation,
        nodes: 1,
    })
}

/// What a walk at an open start comes to.
fn walked(
    alloc: Global,
    bank: &Bank,
    atoms: &LitTable,
    steps: &StepTable,
    witnesses: &Witnesses,
    used: &[usize],
    nodes: u32,
    start: &[SatLit],
    mut walk: Walk,
) -> Result<Stripped, AllocError>
    requires rows { AreRows bank.now witnesses.now }
    requires atoms { All (IsAtom bank.now) atoms.now }
    requires used { All (IsUsable bank.now atoms.now (rows_of bank.now.terms witnesses.now) steps.now) used.now }
    requires path { IsPath (length atoms.now) steps.now used.now walk.path }
    requires writing { IsWriting bank.now atoms.now witnesses.now walk.writing }
    requires ahead { IsAhead (the_used bank.now.terms atoms.now steps.now used.now) nodes start.now (atoms_at bank.now.terms atoms.now) 0
        (reverse walk.frames.items) walk.path.literals.keys walk.writing.lines }
    requires open { first_clash numbers start.now ≡ None }
    ensures exactly { IfOk result (IsStripped (atoms_at bank.now.terms atoms.now) (rows_of bank.now.terms witnesses.now)
        (the_used bank.now.terms atoms.now steps.now used.now) nodes start.now) }
    ensures in_range { IfOk result (OfTree AreNumbersInRange) }
{
    match walk.grow(alloc, bank, atoms, steps, witnesses, used, start, nodes)? {
        Grown::Whole(made) => {
            let refutation = walk.into_refutation(alloc, bank, atoms, witnesses)?;
            Ok(Stripped::Tree {
                refutation,
                nodes: made,
            })
        }
        Grown::Open => {
            let branch = walk.branch(alloc, bank, atoms, witnesses)?;
            Ok(Stripped::Open { branch })
        }
        Grown::Over => Ok(Stripped::Over { nodes }),
    }
}

/// What a walk from an open start comes to.
fn grown(
    alloc: Global,
    bank: &Bank,
    atoms: &LitTable,
    steps: &StepTable,
    witnesses: &Witnesses,
    used: &[usize],
    nodes: u32,
    path: Path,
) -> Result<Stripped, AllocError>
    requires rows { AreRows bank.now witnesses.now }
    requires atoms { All (IsAtom bank.now) atoms.now }
    requires used { All (IsUsable bank.now atoms.now (rows_of bank.now.terms witnesses.now) steps.now) used.now }
    requires path { IsPath (length atoms.now) steps.now used.now path }
    requires open { first_clash numbers path.literals.keys ≡ None }
    ensures exactly { IfOk result (IsStripped (atoms_at bank.now.terms atoms.now) (rows_of bank.now.terms witnesses.now)
        (the_used bank.now.terms atoms.now steps.now used.now) nodes path.literals.keys) }
    ensures in_range { IfOk result (OfTree AreNumbersInRange) }
{
    let start = path.as_slice().to_vec(alloc)?;
    let walk = Walk::new(alloc, path);
    walked(
        alloc, bank, atoms, steps, witnesses, used, nodes, &start, walk,
    )
}

/// What comes of a start.
fn from_path(
    alloc: Global,
    bank: &Bank,
    atoms: &LitTable,
    steps: &StepTable,
    witnesses: &Witnesses,
    used: &[usize],
    nodes: u32,
    path: Path,
) -> Result<Stripped, AllocError>
    requires rows { AreRows bank.now witnesses.now }
    requires atoms { All (IsAtom bank.now) atoms.now }
    requires used { All (IsUsable bank.now atoms.now (rows_of bank.now.terms witnesses.now) steps.now) used.now }
    requires path { IsPath (length atoms.now) steps.now used.now path }
    ensures exactly { IfOk result (IsStripped (atoms_at bank.now.terms atoms.now) (rows_of bank.now.terms witnesses.now)
        (the_used bank.now.terms atoms.now steps.now used.now) nodes path.literals.keys) }
    ensures in_range { IfOk result (OfTree AreNumbersInRange) }
{
    match path.first_clash() {
        Some(lit) => at_once(alloc, bank, atoms, steps, witnesses, used, nodes, lit, path),
        None => grown(alloc, bank, atoms, steps, witnesses, used, nodes, path),
    }
}

/// What comes of the expansion of the instances that a refutation uses: a tree without cut that has at most so many nodes, the first branch
/// that stays open, or that a tree would have more.
pub fn strip(
    alloc: Global,
    bank: &Bank,
    lits: &LitTable,
    steps: &StepTable,
    witnesses: &Witnesses,
    used: &UsedList,
    nodes: u32,
) -> Result<Stripped, AllocError>
    requires rows { AreRows bank.now witnesses.now }
    requires atoms { All (IsAtom bank.now) lits.now }
    requires units { AreUnitsNumbered lits.now steps.now }
    requires used { All (IsUsable bank.now lits.now (rows_of bank.now.terms witnesses.now) steps.now) used.now }
    ensures exactly { IfOk result (IsStripped (atoms_at bank.now.terms lits.now) (rows_of bank.now.terms witnesses.now)
        (the_used bank.now.terms lits.now steps.now used.now) nodes (start_branch steps.now)) }
    ensures accepted { IfOk result
        (OfTree (IsAccepted (content_scope bank.now) (unit_literals (atoms_at bank.now.terms lits.now) steps.now.0))) }
    ensures closed { IfOk result
        (OfTree (λ refutation. Closes (content_scope bank.now) refutation.witnesses (tableau_of refutation)
        (unit_literals (atoms_at bank.now.terms lits.now) steps.now.0))) }
    ensures no_cut { IfOk result (OfTree (λ refutation. HasNoCut refutation.lines)) }
    ensures within { IfOk result (IsWithinLimit nodes) }
    ensures reached { IfOk result (OfTree (λ refutation. IsEachReached refutation.lines)) }
    ensures in_range { IfOk result (OfTree AreNumbersInRange) }
{
    tree_is_accepted();
    let used = used.as_slice();
    let path = start_path(alloc, bank, lits, steps, witnesses, used)?;
    from_path(alloc, bank, lits, steps, witnesses, used, nodes, path)
}
