//! The instances that a log uses.
ghost use Rattle.std.specs.Prelude.{◌≡◌, ◌<◌, ◌||◌, ◌&&◌, ◌↔◌, ◌⊎◌, ℕ, false, replicate, length, Some, slice_get, Contains, IfOk, OnOk};
ghost use Rattle.std.specs.List.Sorted.{IsStrictlyIncreasing};
ghost use Rattle.sat_log.specs.Chains.{IsLogOver};
ghost use Rattle.tableau_clauses.specs.Table.{the_clauses};
ghost use Rattle.rebuild_spec.specs.Stands.{premise_place};
ghost use Rattle.rebuild_spec.specs.Trees.{Place, at_result, same_place};
ghost use Rattle.tableau_rebuild.specs.Conditions.{EndsEmpty};
ghost use Rattle.tableau_rebuild.specs.UsedInstances.{IsUsedInstance};
ghost use Rattle.tableau_rebuild.specs.Internal.Arenas.{IsThere};
ghost use Rattle.tableau_rebuild.specs.Internal.Flags.{flagged, is_premise, is_premise_in, ArePremisesThere, AreFlagsOf, IsFlaggedOrigin, HasFlaggedOrigin};

use sat_log::{Chain, Log, Premise};
use std::alloc::{AllocError, Global};
use std::marker::Model;
use tableau_clauses::{Origin, StepTable};

/// A list of numbers of instances.
#[derive(Drop)]
pub struct UsedList {
    items: Vec<usize>,
}

impl Model for UsedList {
    ghost use Rattle.std.specs.Prelude.{List, ℕ};

    ghost Value = { List ℕ };

    ghost view = { λ list. list.items.items };
}

impl UsedList {
    pub fn len(&self) -> usize
        ensures { result ≡ length self.now }
    {
        self.items.len()
    }

    /// The number at a place of the list.
    pub fn at(&self, i: usize) -> usize
        requires { i < length self.now }
        ensures { slice_get self.now i ≡ Some result }
    {
        self.items[i]
    }

    pub fn as_slice(&self) -> &[usize]
        ensures { result.now ≡ self.now }
    {
        self.items.as_slice()
    }
}

/// Which results and which clauses are reached.
#[derive(Drop)]
pub(crate) struct Reached {
    results: Vec<bool>,
    clauses: Vec<bool>,
}

/// So many flags, none of them set.
fn no_flags(alloc: Global, count: usize) -> Result<Vec<bool>, AllocError>
    ensures { IfOk result (λ flags. flags.items ≡ replicate count false) }
{
    let mut flags = Vec::new(alloc);
    flags.resize(count, false)?;
    Ok(flags)
}

impl Reached {
    /// Sets the flag of a premise.
    fn mark(&mut self, premise: Premise)
        requires { IsThere (length self.old.clauses.items) (length self.old.results.items) premise }
        ensures marks { (p : Place) → flagged self.new p ≡ (flagged self.old p || same_place (premise_place premise) p) }
        ensures clauses { length self.new.clauses.items ≡ length self.old.clauses.items }
        ensures results { length self.new.results.items ≡ length self.old.results.items }
    {
        match premise {
            Premise::Clause(n) => self.clauses[n] = true,
            Premise::Result(n) => self.results[n] = true,
        }
    }

    /// Sets the flags of the premises of a chain.
    fn mark_chain(&mut self, chain: &Chain)
        requires { ArePremisesThere (length self.old.clauses.items) (length self.old.results.items) chain.now }
        ensures marks { (p : Place) → flagged self.new p ≡ (flagged self.old p || is_premise chain.now p) }
        ensures clauses { length self.new.clauses.items ≡ length self.old.clauses.items }
        ensures results { length self.new.results.items ≡ length self.old.results.items }
    {
        self.mark(chain.first);
        let steps = chain.steps.as_slice();
        for k in 0..steps.len() {
            self.mark(steps[k].premise);
        }
    }

    /// Sets the flags of the premises of a result that is reached.
    fn mark_from(&mut self, steps: &StepTable, log: &Log, n: usize)
        requires right { IsLogOver (the_clauses steps.now) log.now }
        requires within { n < length log.now }
        requires clauses { length self.old.clauses.items ≡ length (the_clauses steps.now) }
        requires results { length self.old.results.items ≡ length log.now }
        ensures marks { (p : Place) → flagged self.new p ≡ (flagged self.old p ||
            (flagged self.old (at_result n) && is_premise_in log.now n p)) }
        ensures clauses { length self.new.clauses.items ≡ length self.old.clauses.items }
        ensures results { length self.new.results.items ≡ length self.old.results.items }
    {
        if self.results[n] {
            self.mark_chain(log.chain(n));
        }
    }
}

/// What the chain of a log's last result reaches. Premises are earlier results, so that a result's flag is final when it is its turn.
fn reach(alloc: Global, steps: &StepTable, log: &Log) -> Result<Reached, AllocError>
    requires log { IsLogOver (the_clauses steps.now) log.now }
    requires closed { EndsEmpty log.now }
    ensures { IfOk result (λ reached. AreFlagsOf steps.now log.now 0 reached) }
{
    let mut reached = Reached {
        results: no_flags(alloc, log.len())?,
        clauses: no_flags(alloc, steps.len())?,
    };
    reached.mark(Premise::Result(log.len() - 1));
    for n in (0..log.len()).rev() {
        reached.mark_from(steps, log, n);
    }
    Ok(reached)
}

/// Adds the instance of a clause, where the clause is reached and comes from one.
fn add_instance(
    steps: &StepTable,
    clauses: &[bool],
    n: usize,
    numbers: &mut Vec<usize>,
) -> Result<(), AllocError>
    requires count { length clauses.now ≡ length (the_clauses steps.now) }
    requires within { n < length clauses.now }
    ensures { OnOk result
        ((k : ℕ) → Contains numbers.new.items k ↔ (Contains numbers.old.items k ⊎ IsFlaggedOrigin steps.now clauses.now n k)) }
{
    if !clauses[n] {
        return Ok(());
    }
    match steps.origin(n) {
        Origin::Start => Ok(()),
        Origin::Instance(k) => {
            numbers.push(k)?;
            Ok(())
        }
    }
}

/// The instances of the clauses that are reached.
fn instances_of(
    alloc: Global,
    steps: &StepTable,
    clauses: &[bool],
) -> Result<Vec<usize>, AllocError>
    requires count { length clauses.now ≡ length (the_clauses steps.now) }
    ensures { IfOk result (λ numbers. (k : ℕ) → Contains numbers.items k ↔ HasFlaggedOrigin steps.now clauses.now (length clauses.now) k) }
{
    let mut numbers = Vec::new(alloc);
    for n in 0..clauses.len() {
        add_instance(steps, clauses, n, &mut numbers)?;
    }
    Ok(numbers)
}

/// The instances that the chain of a log's last result reaches, by increasing number.
pub fn used(alloc: Global, steps: &StepTable, log: &Log) -> Result<UsedList, AllocError>
    requires log { IsLogOver (the_clauses steps.now) log.now }
    requires closed { EndsEmpty log.now }
    ensures increasing { IfOk result (λ list. IsStrictlyIncreasing list) }
    ensures used { IfOk result (λ list. (k : ℕ) → Contains list k ↔ IsUsedInstance steps.now log.now k) }
{
    let reached = reach(alloc, steps, log)?;
    let mut numbers = instances_of(alloc, steps, &reached.clauses)?;
    numbers.sort()?;
    numbers.dedup();
    Ok(UsedList { items: numbers })
}
