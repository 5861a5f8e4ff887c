//! Laws of the definitions.
ghost use Rattle.std.specs.Prelude.{ℕ, List, Contains, All};
ghost use Rattle.search_spec.specs.Numbered.{numbers};
ghost use Rattle.tableau_calculus.specs.Kinds.{formulas};
ghost use Rattle.plain_tableau.specs.Carried.{NumbersExpandAsFormulas};
ghost use Rattle.plain_tableau.specs.Examples.{ExamplesAreExpanded};
ghost use Rattle.plain_tableau.specs.Laws.{OneExpansion, TreeHasNoCut, TreeIsAccepted, TreeIsClosed, TreeIsReached, TreeIsWithin};
ghost use Rattle.plain_tableau.specs.Small.{TreeTermsAreSmall};
ghost use Rattle.plain_tableau.specs.Tables.{the_used, start_branch, IsUsable, IsStripped, OfTree};
ghost use Rattle.plain_tableau.specs.declared.stripped.Stripped.{Stripped};
ghost use Rattle.refute_print.specs.Sizes.{IsSmall};
ghost use Rattle.small_rebuilt.specs.Small.{InputHasSmallTerms, AreNumbersInRange};
ghost use Rattle.tableau_rebuild.specs.Tables.{atoms_at, the_input};
ghost use Rattle.tableau_rebuild.specs.Conditions.{IsInstanceOver};
ghost use Rattle.tableau_rebuild.specs.UsedInstances.{IsUsedInstance};
ghost use Rattle.tableau_clauses.specs.Table.{the_instances};
ghost use Rattle.witness_names.specs.Rows.{rows_of};
ghost use Rattle.literal_map.specs.Atoms.{IsAtom};

use literal_map::LitTable;
use sat_log::Log;
use tableau_clauses::StepTable;
use term_bank::{Bank, equal_ids_for_equal_terms};
use witness_names::Witnesses;

/// The refutation of the tree that an expansion comes to is accepted for the start, its tableau closes the start, it has no cut, it has
/// as many lines as the tree has nodes, within the limit, and each line is reached from the last one.
pub fn tree_is_accepted()
    ensures accepted { TreeIsAccepted }
    ensures closed { TreeIsClosed }
    ensures no_cut { TreeHasNoCut }
    ensures within { TreeIsWithin }
    ensures reached { TreeIsReached }
{}

/// An expansion comes to one thing at most.
pub fn one_expansion()
    ensures numbers { OneExpansion numbers }
    ensures formulas { OneExpansion formulas }
{}

/// The worked examples expand as they are to.
pub fn examples_are_expanded()
    ensures { ExamplesAreExpanded }
{}

/// What an expansion comes to in numbers is what it comes to in formulas.
pub fn numbers_expand_as_formulas()
    ensures { NumbersExpandAsFormulas }
{}

/// The instances that a log uses may be used: none of them is a cut, since the only clause of a cut is a tautology.
pub fn used_may_be_used(
    bank: &Bank,
    lits: &LitTable,
    steps: &StepTable,
    log: &Log,
    witnesses: &Witnesses,
)
    requires atoms { All (IsAtom bank.now) lits.now }
    requires instances { All (IsInstanceOver bank.now lits.now (rows_of bank.now.terms witnesses.now)) (the_instances steps.now) }
    ensures { (k : ℕ) → IsUsedInstance steps.now log.now k → IsUsable bank.now lits.now (rows_of bank.now.terms witnesses.now) steps.now k }
{
    steps.clauses_come_from_origins();
    lits.atoms_differ();
    equal_ids_for_equal_terms(bank);
}

/// The terms of a tree's refutation are small enough for a text, where the literals that it starts from and what its instances add are.
pub fn tree_terms_are_small()
    ensures { TreeTermsAreSmall }
{}

/// So the refutation of a tree is small where the one that is rebuilt from the same log is. An instance that the log uses has a clause
/// whose literals are small. Those of its alternatives that aren't in it are parts of the principals.
pub fn trees_are_small(
    bank: &Bank,
    lits: &LitTable,
    steps: &StepTable,
    log: &Log,
    witnesses: &Witnesses,
)
    requires instances { All (IsInstanceOver bank.now lits.now (rows_of bank.now.terms witnesses.now)) (the_instances steps.now) }
    requires small { InputHasSmallTerms (the_input bank.now lits.now steps.now log.now witnesses.now) }
    ensures { (used : List ℕ) (nodes : ℕ) (stripped : Stripped) → ((k : ℕ) → Contains used k → IsUsedInstance steps.now log.now k)
        → IsStripped (atoms_at bank.now.terms lits.now) (rows_of bank.now.terms witnesses.now) (the_used bank.now.terms lits.now steps.now used) nodes (start_branch steps.now) stripped
        → OfTree AreNumbersInRange stripped → OfTree IsSmall stripped }
{
    steps.clauses_come_from_origins();
}
