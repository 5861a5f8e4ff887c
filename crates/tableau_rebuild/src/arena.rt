//! The lines that stand for clauses and results.
ghost use Rattle.std.specs.Prelude.{◌≡◌, ◌<◌, ◌++◌, ℕ, List, suc, [], ◌∷◌, length, replicate, Some, None, slice_get, IfOk, OnOk};
ghost use Rattle.stt_core.specs.Lambda.{Lambda};
ghost use Rattle.sat_base.specs.declared.literal.SatLit.{SatLit};
ghost use Rattle.sat_log.specs.declared.chain.Premise.TheVariants.{Clause as ClausePremise};
ghost use Rattle.sat_log.specs.declared.log.LogEntry.{LogEntry};
ghost use Rattle.sat_log.specs.Chains.{premise_clause, results, IsLogOver};
ghost use Rattle.tableau_clauses.specs.Table.{the_clauses};
ghost use Rattle.rebuild_spec.specs.Stands.{premise_place};
ghost use Rattle.rebuild_spec.specs.Trees.{at_clause, at_result};
ghost use Rattle.tableau_rebuild.specs.Tables.{the_sources};
ghost use Rattle.tableau_rebuild.specs.declared.draft.Draft.TheVariants.{Clause as ClauseDraft, Close as CloseDraft};
ghost use Rattle.tableau_rebuild.specs.declared.arena.Standing.TheVariants.{Line};
ghost use Rattle.tableau_rebuild.specs.Internal.Drafts.{place_after_step};
ghost use Rattle.tableau_rebuild.specs.Internal.Arenas.{unit_of_start, IsUnitNumber, IsStandingWithin, draft_place, IsDrawn, IsEarlierDraft, ExtendsDrafts, StandsFor, AreResults, IsJoined, IsThere, IsChained, HasStep};

use crate::draft::{At, Draft};
use sat_base::{Clause, SatLit, Var};
use sat_log::{ChainStep, Log, Premise, Resolver};
use std::alloc::{AllocError, Global};
use tableau_clauses::{Origin, StepTable};

/// What stands for a clause: a start unit, by its number among the clauses, or a line, by its number among the drafts.
#[derive(Clone, Copy)]
pub(crate) enum Standing {
    Start(usize),
    Line(usize),
}

/// Lines, each made once, with those that stand for the clauses and for the results so far.
#[derive(Drop)]
pub(crate) struct Arena {
    pub(crate) drafts: Vec<Draft>,
    pub(crate) of_clause: Vec<Option<usize>>,
    pub(crate) of_result: Vec<Standing>,
}

/// A copy of the clause that a premise names, where it names a clause.
fn copied(steps: &StepTable, premise: Premise) -> Result<Option<Clause>, AllocError>
    requires { (results : ℕ) × IsThere (length (the_clauses steps.now)) results premise }
    ensures { IfOk result (λ copy. (n : ℕ) → premise ≡ ClausePremise n → copy ≡ slice_get (the_clauses steps.now) n) }
{
    match premise {
        Premise::Clause(n) => Ok(Some(steps.clause(n)?)),
        Premise::Result(_) => Ok(None),
    }
}

/// The literals of what a premise names, where a clause that it names was copied.
fn literals_of<'a>(
    steps: &StepTable,
    log: &'a Log,
    premise: Premise,
    copy: &'a Option<Clause>,
) -> &'a [SatLit]
    requires there { IsThere (length (the_clauses steps.now)) (length log.now) premise }
    requires copied { (n : ℕ) → premise ≡ ClausePremise n → copy.now ≡ slice_get (the_clauses steps.now) n }
    ensures { premise_clause (the_clauses steps.now) (results log.now) premise ≡ Some result.now }
{
    match premise {
        Premise::Clause(_) => match copy {
            Some(clause) => clause.as_slice(),
            None => unreachable!(),
        },
        Premise::Result(n) => log.result(n).as_slice(),
    }
}

/// The literal of a start unit.
fn unit(steps: &StepTable, n: usize) -> Result<SatLit, AllocError>
    requires { IsUnitNumber steps.now n }
    ensures { IfOk result (λ l. (terms : List Lambda) (atoms : List ℕ) → l ≡ unit_of_start
        (slice_get (the_sources terms atoms steps.now) n)) }
{
    let clause = steps.clause(n)?;
    Ok(clause.as_slice()[0])
}

impl Arena {
    /// Adds a line. The answer is its number.
    fn push(&mut self, draft: Draft) -> Result<usize, AllocError>
        ensures drafts { OnOk result (self.new.drafts.items ≡ self.old.drafts.items ++ draft ∷ []) }
        ensures of_clause { self.new.of_clause.items ≡ self.old.of_clause.items }
        ensures of_result { self.new.of_result.items ≡ self.old.of_result.items }
        ensures last { IfOk result (λ number. number ≡ length self.old.drafts.items) }
    {
        let number = self.drafts.len();
        self.drafts.push(draft)?;
        Ok(number)
    }

    /// The line of a clause of an instance.
    fn line_of(&mut self, n: usize) -> Result<Standing, AllocError>
        requires drawn { IsDrawn self.old.drafts.items self.old.of_clause.items }
        requires within { n < length self.old.of_clause.items }
        ensures drawn { OnOk result (IsDrawn self.new.drafts.items self.new.of_clause.items) }
        ensures before { OnOk result ((m k : ℕ) → IsEarlierDraft self.old.drafts.items m k → IsEarlierDraft self.new.drafts.items m k) }
        ensures extends { OnOk result (ExtendsDrafts self.old.drafts.items self.new.drafts.items) }
        ensures clauses { OnOk result (length self.new.of_clause.items ≡ length self.old.of_clause.items) }
        ensures results { OnOk result (self.new.of_result.items ≡ self.old.of_result.items) }
        ensures line { IfOk result (λ s. (i : ℕ) × (s ≡ Line i) × (slice_get self.new.drafts.items i ≡ Some (ClauseDraft n))) }
    {
        if let Some(i) = self.of_clause[n] {
            return Ok(Standing::Line(i));
        }
        let number = self.push(Draft::Clause(n))?;
        self.of_clause[n] = Some(number);
        Ok(Standing::Line(number))
    }

    /// What stands for a premise.
    fn premise(
        &mut self,
        steps: &StepTable,
        log: &Log,
        premise: Premise,
    ) -> Result<Standing, AllocError>
        requires drawn { IsDrawn self.old.drafts.items self.old.of_clause.items }
        requires clauses { length self.old.of_clause.items ≡ length (the_clauses steps.now) }
        requires results { AreResults steps.now log.now self.old.drafts.items self.old.of_result.items }
        requires there { IsThere (length (the_clauses steps.now)) (length self.old.of_result.items) premise }
        ensures drawn { OnOk result (IsDrawn self.new.drafts.items self.new.of_clause.items) }
        ensures before { OnOk result ((m k : ℕ) → IsEarlierDraft self.old.drafts.items m k → IsEarlierDraft self.new.drafts.items m k) }
        ensures extends { OnOk result (ExtendsDrafts self.old.drafts.items self.new.drafts.items) }
        ensures clauses { OnOk result (length self.new.of_clause.items ≡ length self.old.of_clause.items) }
        ensures results { OnOk result (self.new.of_result.items ≡ self.old.of_result.items) }
        ensures stands { IfOk result (λ s. (c : List SatLit) → premise_clause (the_clauses steps.now) (results log.now) premise ≡ Some c
            → StandsFor steps.now log.now self.new.drafts.items (premise_place premise) c s) }
    {
        match premise {
            Premise::Result(n) => Ok(self.of_result[n]),
            Premise::Clause(n) => {
                steps.clauses_come_from_origins();
                match steps.origin(n) {
                    Origin::Start => Ok(Standing::Start(n)),
                    Origin::Instance(_) => Ok(self.line_of(n)?),
                }
            }
        }
    }

    /// A line on which two start units close each other.
    fn close(
        &mut self,
        steps: &StepTable,
        at: At,
        first: usize,
        second: usize,
    ) -> Result<Standing, AllocError>
        requires first { IsUnitNumber steps.now first }
        requires second { IsUnitNumber steps.now second }
        ensures drafts { IfOk result (λ s. (l m : SatLit) × (self.new.drafts.items ≡ self.old.drafts.items ++ CloseDraft at l m ∷ [])
            × ((terms : List Lambda) (atoms : List ℕ) → (l ≡ unit_of_start (slice_get (the_sources terms atoms steps.now) first))
            × (m ≡ unit_of_start (slice_get (the_sources terms atoms steps.now) second)))) }
        ensures of_clause { self.new.of_clause.items ≡ self.old.of_clause.items }
        ensures of_result { self.new.of_result.items ≡ self.old.of_result.items }
        ensures last { IfOk result (λ s. s ≡ Line (length self.old.drafts.items)) }
    {
        let draft = Draft::Close(at, unit(steps, first)?, unit(steps, second)?);
        Ok(Standing::Line(self.push(draft)?))
    }

    /// What a step makes of what stands for the clause with the variable and for the one with its negation.
    fn join(
        &mut self,
        steps: &StepTable,
        at: At,
        var: Var,
        positive: Standing,
        negative: Standing,
    ) -> Result<Standing, AllocError>
        requires drawn { IsDrawn self.old.drafts.items self.old.of_clause.items }
        requires before { IsEarlierDraft self.old.drafts.items at.result at.step }
        requires positive { IsStandingWithin steps.now self.old.drafts.items positive }
        requires negative { IsStandingWithin steps.now self.old.drafts.items negative }
        ensures drawn { OnOk result (IsDrawn self.new.drafts.items self.new.of_clause.items) }
        ensures before { OnOk result (IsEarlierDraft self.new.drafts.items at.result (suc at.step)) }
        ensures extends { OnOk result (ExtendsDrafts self.old.drafts.items self.new.drafts.items) }
        ensures of_clause { OnOk result (self.new.of_clause.items ≡ self.old.of_clause.items) }
        ensures of_result { OnOk result (self.new.of_result.items ≡ self.old.of_result.items) }
        ensures joined { IfOk result (λ s. IsJoined steps.now self.old.drafts.items self.new.drafts.items (place_after_step at) var positive
            negative s) }
    {
        match (positive, negative) {
            (Standing::Start(m), Standing::Start(n)) => {
                if m < n {
                    Ok(self.close(steps, at, m, n)?)
                } else {
                    Ok(self.close(steps, at, n, m)?)
                }
            }
            (Standing::Line(off), Standing::Line(on)) => {
                let number = self.push(Draft::Cut(at, var, on, off))?;
                Ok(Standing::Line(number))
            }
            (Standing::Start(_), Standing::Line(_)) => Ok(negative),
            (Standing::Line(_), Standing::Start(_)) => Ok(positive),
        }
    }

    /// What stands for what a chain has after a step more.
    fn step(
        &mut self,
        steps: &StepTable,
        log: &Log,
        at: At,
        standing: Standing,
        step: ChainStep,
        resolver: &mut Resolver,
    ) -> Result<Standing, AllocError>
        requires drawn { IsDrawn self.old.drafts.items self.old.of_clause.items }
        requires clauses { length self.old.of_clause.items ≡ length (the_clauses steps.now) }
        requires results { AreResults steps.now log.now self.old.drafts.items self.old.of_result.items }
        requires next { length self.old.of_result.items ≡ at.result }
        requires before { IsEarlierDraft self.old.drafts.items at.result at.step }
        requires has { HasStep log.now at.result at.step step }
        requires chained { IsChained steps.now log.now self.old.drafts.items at.result at.step resolver.old standing }
        ensures drawn { OnOk result (IsDrawn self.new.drafts.items self.new.of_clause.items) }
        ensures before { OnOk result (IsEarlierDraft self.new.drafts.items at.result (suc at.step)) }
        ensures extends { OnOk result (ExtendsDrafts self.old.drafts.items self.new.drafts.items) }
        ensures clauses { OnOk result (length self.new.of_clause.items ≡ length self.old.of_clause.items) }
        ensures results { OnOk result (self.new.of_result.items ≡ self.old.of_result.items) }
        ensures chained { IfOk result (λ s. IsChained steps.now log.now self.new.drafts.items at.result (suc at.step) resolver.new s) }
    {
        let other = self.premise(steps, log, step.premise)?;
        let copy = copied(steps, step.premise)?;
        let literals = literals_of(steps, log, step.premise, &copy);
        let positive = SatLit {
            var: step.var,
            positive: true,
        };
        let is_first = resolver.clashes(positive, literals, positive.negated());
        resolver.resolve(step.var, literals)?;
        if is_first {
            Ok(self.join(steps, at, step.var, standing, other)?)
        } else {
            Ok(self.join(steps, at, step.var, other, standing)?)
        }
    }

    /// What stands for a result. The resolver is empty before and after.
    fn chain(
        &mut self,
        steps: &StepTable,
        log: &Log,
        n: usize,
        resolver: &mut Resolver,
    ) -> Result<Standing, AllocError>
        requires drawn { IsDrawn self.old.drafts.items self.old.of_clause.items }
        requires clauses { length self.old.of_clause.items ≡ length (the_clauses steps.now) }
        requires results { AreResults steps.now log.now self.old.drafts.items self.old.of_result.items }
        requires right { IsLogOver (the_clauses steps.now) log.now }
        requires within { n < length log.now }
        requires next { length self.old.of_result.items ≡ n }
        requires before { IsEarlierDraft self.old.drafts.items n 0 }
        requires empty { resolver.old ≡ [] }
        ensures drawn { OnOk result (IsDrawn self.new.drafts.items self.new.of_clause.items) }
        ensures before { OnOk result (IsEarlierDraft self.new.drafts.items (suc n) 0) }
        ensures extends { OnOk result (ExtendsDrafts self.old.drafts.items self.new.drafts.items) }
        ensures clauses { OnOk result (length self.new.of_clause.items ≡ length self.old.of_clause.items) }
        ensures results { OnOk result (self.new.of_result.items ≡ self.old.of_result.items) }
        ensures empty { OnOk result (resolver.new ≡ []) }
        ensures stands { IfOk result (λ s. (entry : LogEntry) → slice_get log.now n ≡ Some entry
            → StandsFor steps.now log.now self.new.drafts.items (at_result n) entry.result s) }
    {
        let chain = log.chain(n);
        let mut standing = self.premise(steps, log, chain.first)?;
        let copy = copied(steps, chain.first)?;
        resolver.start(literals_of(steps, log, chain.first, &copy))?;
        let chain_steps = chain.steps.as_slice();
        for k in 0..chain_steps.len() {
            let at = At { result: n, step: k };
            standing = self.step(steps, log, at, standing, chain_steps[k], resolver)?;
        }
        resolver.clear();
        Ok(standing)
    }
}

/// What stands for each result of a log.
pub(crate) fn draw(alloc: Global, steps: &StepTable, log: &Log) -> Result<Arena, AllocError>
    requires right { IsLogOver (the_clauses steps.now) log.now }
    ensures drawn { IfOk result (λ arena. IsDrawn arena.drafts.items arena.of_clause.items) }
    ensures all { IfOk result (λ arena. length arena.of_result.items ≡ length log.now) }
    ensures results { IfOk result (λ arena. AreResults steps.now log.now arena.drafts.items arena.of_result.items) }
{
    let mut of_clause = Vec::new(alloc);
    of_clause.resize(steps.len(), None)?;
    let mut arena = Arena {
        drafts: Vec::new(alloc),
        of_clause,
        of_result: Vec::new(alloc),
    };
    let mut resolver = Resolver::new(alloc);
    for n in 0..log.len() {
        let standing = arena.chain(steps, log, n, &mut resolver)?;
        arena.of_result.push(standing)?;
    }
    Ok(arena)
}
