//! How many rows of the witness table lines need.
ghost use Rattle.std.specs.Prelude.{◌≡◌, ◌<◌, ◌^◌, ℕ, List, max, length, map, IfOk, All, slice_get};
ghost use Rattle.std.specs.List.{position_or_len};
ghost use Rattle.stt_core.specs.SameTerm.{same_term};
ghost use Rattle.stt_core.specs.View.{the_head};
ghost use Rattle.tableau_calculus.specs.declared.rule_use.RuleUse.TheVariants.{AtOne};
ghost use Rattle.tableau_calculus.specs.declared.refutation.Line.{Line};
ghost use Rattle.sat_base.specs.Literal.{IsOver};
ghost use Rattle.search_spec.specs.Numbered.{literal_at};
ghost use Rattle.term_bank.specs.Terms.{term_at};
ghost use Rattle.witness_names.specs.Rows.{rows_of, AreRows};
ghost use Rattle.literal_map.specs.Atoms.{IsAtom};
ghost use Rattle.rebuild_spec.specs.Input.{literals_of};
ghost use Rattle.rebuild_spec.specs.NeededRows.{rows_for, rows_for_all, rows_for_rule, rows_up_to, rows_up_to_principal};
ghost use Rattle.rebuild_spec.specs.Stands.{rule_at_places, place_in};
ghost use Rattle.tableau_rules.specs.Uses.{use_of};
ghost use Rattle.tableau_rebuild.specs.Tables.{atoms_at, the_instance};
ghost use Rattle.tableau_rebuild.specs.Conditions.{IsGoodUse};
ghost use Rattle.tableau_rebuild.specs.Internal.LineParts.{first_in, IsLineBy};
ghost use Rattle.tableau_rebuild.specs.Internal.Needed.{is_quantifier, HasParts};

use crate::draft::Draft;
use crate::literals::position;
use literal_map::{BankUse, Instance, LitList, LitTable};
use sat_base::SatLit;
use std::alloc::AllocError;
use stt_core::Head;
use tableau_calculus::{OnePlace, RuleUse};
use tableau_clauses::{Origin, StepTable};
use term_bank::{Bank, Id, Node, equal_ids_for_equal_terms};
use witness_names::Witnesses;

/// How many rows have to be there for a term.
fn rows_for_term(bank: &Bank, id: Id) -> usize
    requires { id < length bank.now.terms }
    ensures { result ≡ rows_for (term_at bank.now.terms id) }
{
    match bank.max_witness(id) {
        Some(w) => w as usize + 1,
        None => 0,
    }
}

/// How many rows have to be there for a literal.
fn rows_for_literal(bank: &Bank, atoms: &LitTable, literal: SatLit) -> usize
    requires atoms { All (IsAtom bank.now) atoms.now }
    requires within { literal.var.0 < length atoms.now }
    ensures { result ≡ rows_for (literal_at (atoms_at bank.now.terms atoms.now) literal).atom }
{
    rows_for_term(bank, atoms.formula_of(literal))
}

/// How many rows have to be there for a branch.
pub fn rows_for_branch(bank: &Bank, atoms: &LitTable, branch: &[SatLit]) -> usize
    requires atoms { All (IsAtom bank.now) atoms.now }
    requires numbered { IsOver (length atoms.now) branch.now }
    ensures { result ≡ rows_for_all (literals_of (atoms_at bank.now.terms atoms.now) branch.now) }
{
    let mut rows: usize = 0;
    for i in 0..branch.len() {
        rows = rows.max(rows_for_literal(bank, atoms, branch[i]));
    }
    rows
}

/// The number of the row of a predicate, or of all rows where it has none.
fn row_of(bank: &Bank, witnesses: &Witnesses, predicate: Id) -> usize
    requires within { predicate < length bank.now.terms }
    requires rows { AreRows bank.now witnesses.now }
    ensures place { result ≡ position_or_len (λ r. same_term (term_at bank.now.terms predicate) r.predicate)
        (rows_of bank.now.terms witnesses.now) }
    ensures small { result < 2 ^ 32 }
{
    equal_ids_for_equal_terms(bank);
    match witnesses.find(predicate) {
        Some(w) => w as usize,
        None => witnesses.len() as usize,
    }
}

/// Whether the head says that something holds everywhere.
fn is_quantifier(head: &Head) -> bool
    ensures { result ≡ is_quantifier (the_head head.now) }
{
    match head {
        Head::All(_) => true,
        Head::Bound(_) => false,
        Head::Name(_) => false,
        Head::Wit(_) => false,
        Head::False => false,
        Head::Not => false,
        Head::Imp => false,
        Head::Eq(_) => false,
        Head::Choice(_) => false,
        Head::Desc(_) => false,
    }
}

/// The rows up to that of the predicate of which the term says that it holds everywhere.
fn rows_up_to(bank: &Bank, witnesses: &Witnesses, id: Id) -> usize
    requires within { id < length bank.now.terms }
    requires rows { AreRows bank.now witnesses.now }
    ensures { result ≡ rows_up_to (rows_of bank.now.terms witnesses.now) (term_at bank.now.terms id) }
{
    match bank.node(id) {
        Node::Lam { .. } => 0,
        Node::App { head, args } => {
            if args.len() != 1 {
                return 0;
            }
            if is_quantifier(head) {
                row_of(bank, witnesses, args.at(0)) + 1
            } else {
                0
            }
        }
    }
}

/// The rows up to that of the predicate of the literal at a place of a branch.
fn rows_up_to_principal(
    bank: &Bank,
    atoms: &LitTable,
    witnesses: &Witnesses,
    branch: &[SatLit],
    place: usize,
) -> usize
    requires atoms { All (IsAtom bank.now) atoms.now }
    requires numbered { IsOver (length atoms.now) branch.now }
    requires rows { AreRows bank.now witnesses.now }
    ensures { result ≡ rows_up_to_principal (rows_of bank.now.terms witnesses.now)
        (slice_get (literals_of (atoms_at bank.now.terms atoms.now) branch.now) place) }
{
    if place < branch.len() {
        rows_up_to(bank, witnesses, atoms.formula_of(branch[place]))
    } else {
        0
    }
}

/// How many rows have to be there for a rule with one principal, which stands at this place of the branch.
fn rows_for_one(
    bank: &Bank,
    atoms: &LitTable,
    witnesses: &Witnesses,
    kind: OnePlace,
    branch: &[SatLit],
    place: usize,
) -> usize
    requires atoms { All (IsAtom bank.now) atoms.now }
    requires numbered { IsOver (length atoms.now) branch.now }
    requires rows { AreRows bank.now witnesses.now }
    ensures { result ≡ rows_for_rule (rows_of bank.now.terms witnesses.now) (literals_of (atoms_at bank.now.terms atoms.now) branch.now)
        (AtOne kind place) }
{
    match kind {
        OnePlace::AllNeg => rows_up_to_principal(bank, atoms, witnesses, branch, place),
        _ => 0,
    }
}

/// How many rows have to be there for a rule whose first principal stands at this place of the branch.
fn rows_for_use(
    bank: &Bank,
    atoms: &LitTable,
    witnesses: &Witnesses,
    by: &BankUse,
    branch: &[SatLit],
    place: usize,
) -> usize
    requires atoms { All (IsAtom bank.now) atoms.now }
    requires numbered { IsOver (length atoms.now) branch.now }
    requires rows { AreRows bank.now witnesses.now }
    requires good { IsGoodUse bank.now atoms.now by.now }
    ensures { (places : List ℕ) → first_in places ≡ place → result ≡ rows_for_rule (rows_of bank.now.terms witnesses.now)
        (literals_of (atoms_at bank.now.terms atoms.now) branch.now) (rule_at_places (use_of bank.now.terms atoms.now by.now) places) }
{
    match by {
        RuleUse::AtOne(kind, _) => rows_for_one(bank, atoms, witnesses, *kind, branch, place),
        RuleUse::AtTwo(_, _, _) => 0,
        RuleUse::AllPos(_, term) => rows_for_term(bank, *term),
        RuleUse::WithPredicate(_, predicate) => rows_for_term(bank, *predicate),
        RuleUse::Cut(literal) => rows_for_literal(bank, atoms, *literal),
    }
}

/// The place of the first of the principals in a branch.
fn first_place(branch: &[SatLit], principals: &LitList) -> usize
    ensures { result ≡ first_in (map (place_in branch.now) principals.now) }
{
    if principals.len() == 0 {
        0
    } else {
        position(branch, principals.at(0))
    }
}

/// How many rows have to be there for the rule of an instance.
pub fn rows_for_instance(
    bank: &Bank,
    atoms: &LitTable,
    witnesses: &Witnesses,
    instance: &Instance,
    branch: &[SatLit],
) -> usize
    requires atoms { All (IsAtom bank.now) atoms.now }
    requires numbered { IsOver (length atoms.now) branch.now }
    requires rows { AreRows bank.now witnesses.now }
    requires good { IsGoodUse bank.now atoms.now instance.now.by }
    ensures { result ≡ rows_for_rule (rows_of bank.now.terms witnesses.now) (literals_of (atoms_at bank.now.terms atoms.now) branch.now)
        (rule_at_places (the_instance bank.now.terms atoms.now instance.now).rule (map (place_in branch.now) instance.now.principals)) }
{
    let place = first_place(branch, &instance.principals);
    rows_for_use(bank, atoms, witnesses, &instance.by, branch, place)
}

/// How many rows have to be there for the line of a draft.
pub(crate) fn rows_for_line(
    bank: &Bank,
    atoms: &LitTable,
    witnesses: &Witnesses,
    steps: &StepTable,
    draft: Draft,
    branch: &[SatLit],
) -> Result<usize, AllocError>
    requires atoms { All (IsAtom bank.now) atoms.now }
    requires numbered { IsOver (length atoms.now) branch.now }
    requires rows { AreRows bank.now witnesses.now }
    requires parts { HasParts bank.now atoms.now steps.now draft }
    ensures { IfOk result (λ n. (numbers : List ℕ) (line : Line) → IsLineBy bank.now atoms.now steps.now numbers branch.now draft line
        → n ≡ max (rows_for_all line.branch) (rows_for_rule (rows_of bank.now.terms witnesses.now) line.branch line.rule)) }
{
    let rows = rows_for_branch(bank, atoms, branch);
    match draft {
        Draft::Clause(n) => match steps.origin(n) {
            Origin::Instance(k) => {
                let instance = steps.instance(k)?;
                let by_rule = rows_for_instance(bank, atoms, witnesses, &instance, branch);
                Ok(rows.max(by_rule))
            }
            Origin::Start => unreachable!(),
        },
        Draft::Close(_, _, _) => Ok(rows),
        Draft::Cut(_, var, _, _) => {
            let literal = SatLit {
                var,
                positive: true,
            };
            Ok(rows.max(rows_for_literal(bank, atoms, literal)))
        }
    }
}
