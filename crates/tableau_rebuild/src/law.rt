//! What the tables of a search are to the definitions of what is rebuilt.
ghost use Rattle.std.specs.Prelude.{All};
ghost use Rattle.term_bank.specs.Content.{content_scope};
ghost use Rattle.literal_map.specs.Atoms.{IsAtom};
ghost use Rattle.witness_names.specs.Rows.{rows_of, AreRows};
ghost use Rattle.tableau_clauses.specs.Table.{the_instances};
ghost use Rattle.rebuild_spec.specs.Given.{IsGiven};
ghost use Rattle.tableau_rebuild.specs.Tables.{atoms_at, the_input, unit_literals};
ghost use Rattle.tableau_rebuild.specs.Conditions.{IsInstanceOver};

use literal_map::LitTable;
use sat_log::Log;
use tableau_clauses::StepTable;
use term_bank::Bank;
use witness_names::Witnesses;

/// The tables are a right input for the start units. This does nothing: what it says stands in its contract.
pub fn tables_are_given(
    bank: &Bank,
    lits: &LitTable,
    steps: &StepTable,
    log: &Log,
    witnesses: &Witnesses,
)
    requires rows { AreRows bank.now witnesses.now }
    requires atoms { All (IsAtom bank.now) lits.now }
    requires instances { All (IsInstanceOver bank.now lits.now (rows_of bank.now.terms witnesses.now)) (the_instances steps.now) }
    ensures { IsGiven (content_scope bank.now) (unit_literals (atoms_at bank.now.terms lits.now) steps.now.0)
        (the_input bank.now lits.now steps.now log.now witnesses.now) }
{
    steps.clauses_come_from_origins();
}
