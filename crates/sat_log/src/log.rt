//! The log of resolution chains.
ghost use Rattle.std.specs.Prelude.{◌≡◌, ◌<◌, [], Some, length, IsTrue, ◌↔◌, slice_get, option_map, IsSome, IfOk, OnOk, OnErr};
ghost use Rattle.sat_log.specs.Resolution.{HasNoRepeats};
ghost use Rattle.sat_log.specs.Chains.{premise_clause as clause_of, after_steps, results};

use crate::chain::{Chain, ChainStep, Premise};
use crate::resolver::Resolver;
use sat_base::{Clause, ClauseStore};
use std::alloc::{AllocError, Global};
use std::marker::Model;

/// A chain with its result.
#[derive(Drop)]
pub struct LogEntry {
    pub chain: Chain,
    pub result: Clause,
}

/// Chains over the clauses of a store and earlier results, each with its result.
///
/// It keeps a mark for each variable up to the greatest one that a chain with steps met, so that to push a chain takes
/// time near the number of literals of its premises, however long the store and the log are.
#[derive(Drop)]
pub struct Log {
    alloc: Global,
    entries: Vec<LogEntry>,
    resolver: Resolver,
}

impl Model for Log {
    ghost use Rattle.std.specs.Prelude.{◌≡◌, List, length};
    ghost use Rattle.sat_log.specs.declared.log.LogEntry.{LogEntry};

    ghost Value = { List LogEntry };

    ghost view = { λ log. log.entries.items };

    ghost invariant = { λ log. length log.resolver ≡ 0 };
}

impl Log {
    ghost use Rattle.sat_log.specs.Chains.{chain_result, results, IsLogOver, AppendsChain};

    /// A log of no chains.
    pub fn new(alloc: Global) -> Self
        ensures { result ≡ [] }
    {
        Log {
            alloc,
            entries: Vec::new(alloc),
            resolver: Resolver::new(alloc),
        }
    }

    /// Appends a chain with its result. Where there is no memory the chain is dropped.
    pub fn push(&mut self, clauses: &ClauseStore, chain: Chain) -> Result<(), AllocError>
        requires right { IsLogOver clauses.now self.old }
        requires derives { IsSome (chain_result clauses.now (results self.old) chain) }
        ensures ok { OnOk result (AppendsChain clauses.now self.old self.new chain) }
        ensures err { OnErr result (self.new ≡ self.old) }
        ensures right { IsLogOver clauses.now self.new }
    {
        let result = self.derived(clauses, &chain)?;
        self.entries.push(LogEntry { chain, result })?;
        Ok(())
    }

    /// The result of chain number `n`.
    pub fn result(&self, n: usize) -> &Clause
        requires { n < length self.now }
        ensures { slice_get (results self.now) n ≡ Some result.now }
    {
        &self.entries[n].result
    }

    /// Chain number `n`.
    pub fn chain(&self, n: usize) -> &Chain
        requires { n < length self.now }
        ensures { option_map (λ entry. entry.chain) (slice_get self.now n) ≡ Some result.now }
    {
        &self.entries[n].chain
    }

    pub fn len(&self) -> usize
        ensures { result ≡ length self.now }
    {
        self.entries.len()
    }

    pub fn is_empty(&self) -> bool
        ensures { IsTrue result ↔ (self.now ≡ []) }
    {
        self.entries.is_empty()
    }

    fn derived(&mut self, clauses: &ClauseStore, chain: &Chain) -> Result<Clause, AllocError>
        requires { IsSome (chain_result clauses.now (results self.old) chain.now) }
        ensures ok { IfOk result (λ clause. chain_result clauses.now (results self.old) chain.now ≡ Some clause) }
        ensures same { self.new ≡ self.old }
    {
        let first = premise_clause(clauses, &self.entries, chain.first);
        if chain.steps.is_empty() {
            return Clause::from_slice(self.alloc, first.as_slice());
        }
        let outcome = outcome(
            &mut self.resolver,
            clauses,
            &self.entries,
            first,
            chain.steps.as_slice(),
        );
        self.resolver.clear();
        outcome
    }
}

fn premise_clause<'a>(
    clauses: &'a ClauseStore,
    entries: &'a [LogEntry],
    premise: Premise,
) -> &'a Clause
    requires { IsSome (clause_of clauses.now (results entries.now) premise) }
    ensures { clause_of clauses.now (results entries.now) premise ≡ Some result.now }
{
    match premise {
        Premise::Clause(n) => clauses.get(n),
        Premise::Result(n) => &entries[n].result,
    }
}

fn resolve_steps(
    resolver: &mut Resolver,
    clauses: &ClauseStore,
    entries: &[LogEntry],
    steps: &[ChainStep],
) -> Result<(), AllocError>
    requires once { HasNoRepeats resolver.old }
    requires derives { IsSome (after_steps clauses.now (results entries.now) resolver.old steps.now) }
    ensures { OnOk result (after_steps clauses.now (results entries.now) resolver.old steps.now ≡ Some resolver.new) }
{
    for step in steps {
        let premise = premise_clause(clauses, entries, step.premise);
        resolver.resolve(step.var, premise.as_slice())?;
    }
    Ok(())
}

fn outcome(
    resolver: &mut Resolver,
    clauses: &ClauseStore,
    entries: &[LogEntry],
    first: &Clause,
    steps: &[ChainStep],
) -> Result<Clause, AllocError>
    requires empty { resolver.old ≡ [] }
    requires some_steps { 0 < length steps.now }
    requires derives { IsSome (after_steps clauses.now (results entries.now) first.now steps.now) }
    ensures { IfOk result (λ clause. after_steps clauses.now (results entries.now) first.now steps.now ≡ Some clause) }
{
    resolver.start(first.as_slice())?;
    resolve_steps(resolver, clauses, entries, steps)?;
    Ok(resolver.to_clause()?)
}
