//! The refutation of a log.
ghost use Rattle.std.specs.Prelude.{◌≡◌, ◌<◌, length, take, Contains, IfOk, All};
ghost use Rattle.sat_log.specs.Chains.{IsLogOver};
ghost use Rattle.tableau_calculus.specs.Accepted.{IsAccepted};
ghost use Rattle.tableau_calculus.specs.Closed.{Closes, tableau_of};
ghost use Rattle.tableau_calculus.specs.declared.refutation.Line.{Line};
ghost use Rattle.term_bank.specs.Content.{content_scope};
ghost use Rattle.literal_map.specs.Atoms.{IsAtom};
ghost use Rattle.witness_names.specs.Rows.{rows_of, AreRows};
ghost use Rattle.tableau_clauses.specs.Table.{the_clauses, the_instances};
ghost use Rattle.rebuild_spec.specs.Lines.{lines_from};
ghost use Rattle.rebuild_spec.specs.NeededRows.{rows_for_lines};
ghost use Rattle.rebuild_spec.specs.Rebuilt.{IsRebuilt};
ghost use Rattle.rebuild_spec.specs.Trimmed.{IsEachReached, IsFromSearch};
ghost use Rattle.rebuild_spec.specs.Used.{AreFew};
ghost use Rattle.small_rebuilt.specs.Small.{AreNumbersInRange};
ghost use Rattle.tableau_rebuild.specs.Tables.{atoms_at, the_input, unit_literals};
ghost use Rattle.tableau_rebuild.specs.Conditions.{AreUnitsNumbered, IsInstanceOver, EndsEmpty};
ghost use Rattle.tableau_rebuild.specs.Internal.Drafts.{AreDrafts};
ghost use Rattle.tableau_rebuild.specs.Internal.Written.{the_tree, IsFounded};

use crate::arena::{Standing, draw};
use crate::draft::Draft;
use crate::law::tables_are_given;
use crate::lines::write_lines;
use crate::numbering::number_lines;
use crate::rows::write_rows;
use crate::walk::walk_from;
use literal_map::LitTable;
use rebuild_spec::{rebuilt_is_accepted, rebuilt_is_trimmed};
use refute_share::SharedRefutation;
use sat_log::Log;
use std::alloc::{AllocError, Global};
use tableau_calculus::Refutation;
use tableau_clauses::StepTable;
use term_bank::Bank;
use witness_names::Witnesses;

/// The refutation with the lines that this one stands on, itself as the last.
fn refutation_of(
    alloc: Global,
    bank: &Bank,
    atoms: &LitTable,
    steps: &StepTable,
    witnesses: &Witnesses,
    drafts: &[Draft],
    last: usize,
) -> Result<SharedRefutation, AllocError>
    requires rows { AreRows bank.now witnesses.now }
    requires atoms { All (IsAtom bank.now) atoms.now }
    requires right { AreDrafts drafts.now }
    requires last { last < length drafts.now }
    requires founded { IsFounded bank.now atoms.now steps.now drafts.now last }
    ensures lines { IfOk result (λ refutation. refutation.lines ≡ lines_from (atoms_at bank.now.terms atoms.now)
        (the_tree bank.now.terms atoms.now steps.now drafts.now last)) }
    ensures rows { IfOk result
        (λ refutation. refutation.witnesses ≡ take (rows_for_lines (rows_of bank.now.terms witnesses.now) refutation.lines)
        (rows_of bank.now.terms witnesses.now)) }
    ensures in_range { IfOk result AreNumbersInRange }
{
    let order = walk_from(alloc, drafts, last)?;
    let numbers = number_lines(alloc, drafts, last, &order)?;
    let written = write_lines(
        alloc, bank, atoms, steps, witnesses, drafts, last, &order, &numbers,
    )?;
    let rows = write_rows(alloc, bank, witnesses, written.rows)?;
    Ok(SharedRefutation {
        witnesses: rows,
        lines: written.lines,
    })
}

/// The refutation whose last line stands for the last result of a log.
fn refutation_from(
    alloc: Global,
    bank: &Bank,
    lits: &LitTable,
    steps: &StepTable,
    log: &Log,
    witnesses: &Witnesses,
) -> Result<SharedRefutation, AllocError>
    requires rows { AreRows bank.now witnesses.now }
    requires atoms { All (IsAtom bank.now) lits.now }
    requires units { AreUnitsNumbered lits.now steps.now }
    requires instances { All (IsInstanceOver bank.now lits.now (rows_of bank.now.terms witnesses.now)) (the_instances steps.now) }
    requires log { IsLogOver (the_clauses steps.now) log.now }
    requires closed { EndsEmpty log.now }
    ensures rebuilt { IfOk result (λ refutation. IsRebuilt (the_input bank.now lits.now steps.now log.now witnesses.now) refutation) }
    ensures in_range { IfOk result AreNumbersInRange }
{
    steps.clauses_come_from_origins();
    let arena = draw(alloc, steps, log)?;
    match arena.of_result[log.len() - 1] {
        Standing::Start(_) => unreachable!(),
        Standing::Line(last) => Ok(refutation_of(
            alloc,
            bank,
            lits,
            steps,
            witnesses,
            &arena.drafts,
            last,
        )?),
    }
}

/// The refutation that a log gives, whose last result is the empty clause. Its terms are shared, as they are in the bank.
pub fn rebuild_shared(
    alloc: Global,
    bank: &Bank,
    lits: &LitTable,
    steps: &StepTable,
    log: &Log,
    witnesses: &Witnesses,
) -> Result<SharedRefutation, AllocError>
    requires rows { AreRows bank.now witnesses.now }
    requires atoms { All (IsAtom bank.now) lits.now }
    requires units { AreUnitsNumbered lits.now steps.now }
    requires instances { All (IsInstanceOver bank.now lits.now (rows_of bank.now.terms witnesses.now)) (the_instances steps.now) }
    requires log { IsLogOver (the_clauses steps.now) log.now }
    requires closed { EndsEmpty log.now }
    ensures rebuilt { IfOk result (λ refutation. IsRebuilt (the_input bank.now lits.now steps.now log.now witnesses.now) refutation) }
    ensures accepted { IfOk result (λ refutation. IsAccepted (content_scope bank.now)
        (unit_literals (atoms_at bank.now.terms lits.now) steps.now.0) refutation) }
    ensures closed { IfOk result (λ refutation. Closes (content_scope bank.now) refutation.witnesses (tableau_of refutation)
        (unit_literals (atoms_at bank.now.terms lits.now) steps.now.0)) }
    ensures reached { IfOk result (λ refutation. IsEachReached refutation.lines) }
    ensures from_search { IfOk result (λ refutation. (l : Line) → Contains refutation.lines l
        → IsFromSearch (unit_literals (atoms_at bank.now.terms lits.now) steps.now.0)
        (the_input bank.now lits.now steps.now log.now witnesses.now) l) }
    ensures few { IfOk result (λ refutation. AreFew log.now refutation.lines) }
    ensures in_range { IfOk result AreNumbersInRange }
{
    tables_are_given(bank, lits, steps, log, witnesses);
    rebuilt_is_accepted();
    rebuilt_is_trimmed();
    Ok(refutation_from(alloc, bank, lits, steps, log, witnesses)?)
}

/// The same refutation, of trees in which nothing is shared: it takes memory by the bytes of its text.
pub fn rebuild(
    alloc: Global,
    bank: &Bank,
    lits: &LitTable,
    steps: &StepTable,
    log: &Log,
    witnesses: &Witnesses,
) -> Result<Refutation, AllocError>
    requires rows { AreRows bank.now witnesses.now }
    requires atoms { All (IsAtom bank.now) lits.now }
    requires units { AreUnitsNumbered lits.now steps.now }
    requires instances { All (IsInstanceOver bank.now lits.now (rows_of bank.now.terms witnesses.now)) (the_instances steps.now) }
    requires log { IsLogOver (the_clauses steps.now) log.now }
    requires closed { EndsEmpty log.now }
    ensures rebuilt { IfOk result (λ refutation. IsRebuilt (the_input bank.now lits.now steps.now log.now witnesses.now) refutation) }
    ensures accepted { IfOk result (λ refutation. IsAccepted (content_scope bank.now)
        (unit_literals (atoms_at bank.now.terms lits.now) steps.now.0) refutation) }
    ensures closed { IfOk result (λ refutation. Closes (content_scope bank.now) refutation.witnesses (tableau_of refutation)
        (unit_literals (atoms_at bank.now.terms lits.now) steps.now.0)) }
    ensures reached { IfOk result (λ refutation. IsEachReached refutation.lines) }
    ensures from_search { IfOk result (λ refutation. (l : Line) → Contains refutation.lines l
        → IsFromSearch (unit_literals (atoms_at bank.now.terms lits.now) steps.now.0)
        (the_input bank.now lits.now steps.now log.now witnesses.now) l) }
    ensures few { IfOk result (λ refutation. AreFew log.now refutation.lines) }
    ensures in_range { IfOk result AreNumbersInRange }
{
    let shared = rebuild_shared(alloc, bank, lits, steps, log, witnesses)?;
    Ok(shared.to_plain(alloc)?)
}
