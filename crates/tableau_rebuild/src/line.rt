//! Lines.
ghost use Rattle.std.specs.Prelude.{◌≡◌, [], ◌∷◌, length, map, IfOk, OnOk, All};
ghost use Rattle.sat_base.specs.Literal.{IsOver};
ghost use Rattle.refute_share.specs.RuleView.{the_rule_use};
ghost use Rattle.tableau_calculus.specs.declared.refutation.Child.TheVariants.{Closed, Line as Numbered};
ghost use Rattle.literal_map.specs.Atoms.{IsAtom};
ghost use Rattle.rebuild_spec.specs.Input.{literals_of};
ghost use Rattle.rebuild_spec.specs.Stands.{rule_at_places, place_in};
ghost use Rattle.tableau_rules.specs.Uses.{use_of};
ghost use Rattle.tableau_rebuild.specs.Tables.{atoms_at, the_instance};
ghost use Rattle.tableau_rebuild.specs.Conditions.{IsGoodUse};
ghost use Rattle.tableau_rebuild.specs.Internal.LineParts.{first_in, left_in, right_in, instance_by, IsMakeable, IsLineBy};
ghost use Rattle.tableau_rebuild.specs.Pools.{IsMadePool};

use crate::draft::Draft;
use crate::literals::{lits_of, position};
use crate::pool::Pool;
use literal_map::{BankUse, Instance, LitList, LitLists, LitTable};
use refute_share::{SharedLine, SharedLits, SharedRule};
use sat_base::SatLit;
use std::alloc::{AllocError, Global};
use tableau_calculus::{Child, Children, RuleUse, TwoPlaces};
use tableau_clauses::{Origin, StepTable};
use term_bank::Bank;

/// The first of the places.
fn first_of(places: &[usize]) -> usize
    ensures { result ≡ first_in places.now }
{
    if places.is_empty() { 0 } else { places[0] }
}

/// The first of two places.
fn left_of(places: &[usize]) -> usize
    ensures { result ≡ left_in places.now }
{
    if places.len() < 2 { 0 } else { places[0] }
}

/// The second of two places.
fn right_of(places: &[usize]) -> usize
    ensures { result ≡ right_in places.now }
{
    if places.len() < 2 { 1 } else { places[1] }
}

/// The rule with the places of its principals.
pub fn rule_of(
    bank: &Bank,
    atoms: &LitTable,
    by: &BankUse,
    places: &[usize],
    pool: &mut Pool,
) -> Result<SharedRule, AllocError>
    requires atoms { All (IsAtom bank.now) atoms.now }
    requires good { IsGoodUse bank.now atoms.now by.now }
    requires made { IsMadePool bank.now.terms atoms.now pool.old }
    ensures made { OnOk result (IsMadePool bank.now.terms atoms.now pool.new) }
    ensures rule { IfOk result (λ rule. the_rule_use rule ≡ rule_at_places (use_of bank.now.terms atoms.now by.now) places.now) }
{
    match by {
        RuleUse::AtOne(kind, _) => Ok(RuleUse::AtOne(*kind, first_of(places))),
        RuleUse::AtTwo(kind, _, _) => {
            Ok(RuleUse::AtTwo(*kind, left_of(places), right_of(places)))
        }
        RuleUse::AllPos(_, term) => {
            let term = pool.term(bank, atoms, *term)?;
            Ok(RuleUse::AllPos(first_of(places), term))
        }
        RuleUse::WithPredicate(kind, predicate) => {
            let predicate = pool.term(bank, atoms, *predicate)?;
            Ok(RuleUse::WithPredicate(*kind, predicate))
        }
        RuleUse::Cut(literal) => Ok(RuleUse::Cut(pool.lit(bank, atoms, *literal)?)),
    }
}

/// The places of literals in a branch.
pub fn places_of(
    alloc: Global,
    branch: &[SatLit],
    literals: &LitList,
) -> Result<Vec<usize>, AllocError>
    ensures { IfOk result (λ places. places.items ≡ map (place_in branch.now) literals.now) }
{
    let mut places = Vec::new(alloc);
    for i in 0..literals.len() {
        places.push(position(branch, literals.at(i)))?;
    }
    Ok(places)
}

/// A closed child for each alternative.
fn all_closed(alloc: Global, alternatives: &LitLists) -> Result<Children, AllocError>
    ensures { IfOk result (λ children. children ≡ map (λ _. Closed) alternatives.now) }
{
    let mut children = Children::new(alloc);
    for _i in 0..alternatives.len() {
        children.push(Child::Closed)?;
    }
    Ok(children)
}

/// Two earlier lines.
fn two_lines(alloc: Global, first: usize, second: usize) -> Result<Children, AllocError>
    ensures { IfOk result (λ children. children ≡ Numbered first ∷ Numbered second ∷ []) }
{
    let mut children = Children::new(alloc);
    children.push(Child::Line(first))?;
    children.push(Child::Line(second))?;
    Ok(children)
}

/// The line of an instance, whose children are all closed.
fn instance_line(
    alloc: Global,
    bank: &Bank,
    atoms: &LitTable,
    instance: &Instance,
    branch: &[SatLit],
    literals: SharedLits,
    pool: &mut Pool,
) -> Result<SharedLine, AllocError>
    requires atoms { All (IsAtom bank.now) atoms.now }
    requires good { IsGoodUse bank.now atoms.now instance.now.by }
    requires literals { literals ≡ literals_of (atoms_at bank.now.terms atoms.now) branch.now }
    requires made { IsMadePool bank.now.terms atoms.now pool.old }
    ensures made { OnOk result (IsMadePool bank.now.terms atoms.now pool.new) }
    ensures line { IfOk result (λ line. line ≡ instance_by (atoms_at bank.now.terms atoms.now) branch.now
        (the_instance bank.now.terms atoms.now instance.now)) }
{
    let places = places_of(alloc, branch, &instance.principals)?;
    let rule = rule_of(bank, atoms, &instance.by, &places, pool)?;
    let children = all_closed(alloc, &instance.alternatives)?;
    Ok(SharedLine {
        branch: literals,
        rule,
        children,
    })
}

/// The line of a draft, where the lines before have these numbers.
pub(crate) fn line_of(
    alloc: Global,
    bank: &Bank,
    atoms: &LitTable,
    steps: &StepTable,
    draft: Draft,
    branch: &[SatLit],
    numbers: &[usize],
    pool: &mut Pool,
) -> Result<SharedLine, AllocError>
    requires atoms { All (IsAtom bank.now) atoms.now }
    requires numbered { IsOver (length atoms.now) branch.now }
    requires makeable { IsMakeable bank.now atoms.now steps.now numbers.now draft }
    requires made { IsMadePool bank.now.terms atoms.now pool.old }
    ensures made { OnOk result (IsMadePool bank.now.terms atoms.now pool.new) }
    ensures line { IfOk result (λ line. IsLineBy bank.now atoms.now steps.now numbers.now branch.now draft line) }
{
    let literals = lits_of(alloc, bank, atoms, branch, pool)?;
    match draft {
        Draft::Clause(n) => match steps.origin(n) {
            Origin::Instance(k) => {
                let instance = steps.instance(k)?;
                Ok(instance_line(alloc, bank, atoms, &instance, branch, literals, pool)?)
            }
            Origin::Start => unreachable!(),
        },
        Draft::Close(_, _, _) => Ok(SharedLine {
            branch: literals,
            rule: RuleUse::AtTwo(TwoPlaces::Close, 0, 1),
            children: Children::new(alloc),
        }),
        Draft::Cut(_, var, on, off) => {
            let positive = SatLit {
                var,
                positive: true,
            };
            let rule = RuleUse::Cut(pool.lit(bank, atoms, positive)?);
            let children = two_lines(alloc, numbers[on], numbers[off])?;
            Ok(SharedLine {
                branch: literals,
                rule,
                children,
            })
        }
    }
}
