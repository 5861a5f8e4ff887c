//! Rows of resolution chains, and a log that ends in the empty clause.
ghost use Rattle.std.specs.Prelude.{◌≡◌, [], IsTrue, IsSome, is_some, IfOk, map};
ghost use Rattle.std.specs.List.{list_all};
ghost use Rattle.sat_log.specs.Chains.{chain_result};

use crate::written::{NOT_P, NOT_Q, P, Q, R, S, write_clause};
use sat_base::{Clause, ClauseStore, SatLit, Var};
use sat_log::{Chain, ChainStep, ChainSteps, Log, Premise};
use std::alloc::{AllocError, Global};

/// A chain over some clauses: the first one's number, and for each step its variable and the number of the other clause.
#[derive(Clone, Copy)]
struct Row<'a> {
    clauses: &'a [&'a [SatLit]],
    first: usize,
    steps: &'a [(usize, usize)],
}

fn store_of(alloc: Global, clauses: &[&[SatLit]]) -> Result<ClauseStore, AllocError>
    ensures { IfOk result (λ store. store ≡ map (λ clause. clause.now) clauses.now) }
{
    let mut store = ClauseStore::new(alloc);
    for clause in clauses {
        store.push(Clause::from_slice(alloc, clause)?)?;
    }
    Ok(store)
}

/// Steps on variables, with clauses.
fn steps_of(alloc: Global, steps: &[(usize, usize)]) -> Result<ChainSteps, AllocError>
    ensures { IfOk result (λ made. made ≡ map (λ step. record { var = record { 0 = step.0 }; premise = Premise.Clause step.1 }) steps.now) }
{
    let mut made = ChainSteps::new(alloc);
    for (var, clause) in steps {
        made.push(ChainStep {
            var: Var(*var),
            premise: Premise::Clause(*clause),
        })?;
    }
    Ok(made)
}

/// Adds the row itself.
fn write_row(row: &Row, out: &mut String) -> Result<(), AllocError> {
    for clause in row.clauses {
        write_clause(out, clause)?;
        out.push(' ')?;
    }
    write!(out, "from {}", row.first)?;
    for (var, clause) in row.steps {
        write!(out, ", on {var} with {clause}")?;
    }
    Ok(())
}

/// Adds the result of the row's chain.
fn write_result(alloc: Global, row: &Row, out: &mut String) -> Result<(), AllocError>
    requires { IsSome (chain_result (map (λ clause. clause.now) row.now.clauses.now) []
        (record {
          first = Premise.Clause row.now.first;
          steps = map (λ step. record { var = record { 0 = step.0 }; premise = Premise.Clause step.1 }) row.now.steps.now;
        })) }
{
    let store = store_of(alloc, row.clauses)?;
    let mut log = Log::new(alloc);
    let first = Premise::Clause(row.first);
    let steps = steps_of(alloc, row.steps)?;
    log.push(&store, Chain { first, steps })?;
    write_clause(out, log.result(0).as_slice())
}

fn write_each(alloc: Global, rows: &[Row], out: &mut String) -> Result<(), AllocError>
    requires { IsTrue (list_all (λ row. is_some (chain_result (map (λ clause. clause.now) row.clauses.now) []
        (record {
          first = Premise.Clause row.first;
          steps = map (λ step. record { var = record { 0 = step.0 }; premise = Premise.Clause step.1 }) row.steps.now;
        }))) rows.now) }
{
    for row in rows {
        write_row(row, out)?;
        out.push_str(" = ")?;
        write_result(alloc, row, out)?;
        out.push('\n')?;
    }
    Ok(())
}

const CHAINS: &[Row] = &[
    // The clause so far gives the variable, and its literals come first.
    Row {
        clauses: &[&[P, Q], &[NOT_P, R]],
        first: 0,
        steps: &[(0, 1)],
    },
    Row {
        clauses: &[&[Q, P, S], &[R, NOT_P, Q]],
        first: 0,
        steps: &[(0, 1)],
    },
    // It gives the negation, and the literals of the other clause come first.
    Row {
        clauses: &[&[NOT_P, Q], &[P, R]],
        first: 0,
        steps: &[(0, 1)],
    },
    Row {
        clauses: &[&[NOT_P, Q, S], &[P, S, R]],
        first: 0,
        steps: &[(0, 1)],
    },
    // Nothing is left, or a literal and its negation.
    Row {
        clauses: &[&[P], &[NOT_P]],
        first: 0,
        steps: &[(0, 1)],
    },
    Row {
        clauses: &[&[P, Q], &[NOT_P, NOT_Q]],
        first: 0,
        steps: &[(0, 1)],
    },
    // A literal stands in a clause more than once.
    Row {
        clauses: &[&[P, Q, P, Q], &[NOT_P, R]],
        first: 0,
        steps: &[(0, 1)],
    },
    // The variable stands twice in one clause, and in both.
    Row {
        clauses: &[&[P, NOT_P, Q], &[NOT_P, R]],
        first: 0,
        steps: &[(0, 1)],
    },
    Row {
        clauses: &[&[NOT_P, Q], &[P, NOT_P, R]],
        first: 0,
        steps: &[(0, 1)],
    },
    Row {
        clauses: &[&[P, NOT_P, Q], &[P, NOT_P, R]],
        first: 0,
        steps: &[(0, 1)],
    },
    // A chain without steps is its first premise as it is.
    Row {
        clauses: &[&[P], &[Q, P, Q]],
        first: 1,
        steps: &[],
    },
    // Two steps, and two that end in the empty clause.
    Row {
        clauses: &[&[P], &[NOT_P, Q], &[NOT_Q, R, S]],
        first: 2,
        steps: &[(1, 1), (0, 0)],
    },
    Row {
        clauses: &[&[P], &[NOT_P, Q], &[NOT_Q]],
        first: 2,
        steps: &[(1, 1), (0, 0)],
    },
];

/// Adds each chain with its result.
pub fn write_chains(alloc: Global, out: &mut String) -> Result<(), AllocError> {
    write_each(alloc, CHAINS, out)
}

/// Adds the results of a log, with how many steps each took.
fn write_results(log: &Log, out: &mut String) -> Result<(), AllocError> {
    write!(out, "a log of {}:", log.len())?;
    for n in 0..log.len() {
        write!(out, " {} steps ", log.chain(n).steps.len())?;
        write_clause(out, log.result(n).as_slice())?;
    }
    out.push('\n')
}

/// Adds a log over the four clauses of two variables: first `p`, and from that the empty clause.
pub fn write_log(alloc: Global, out: &mut String) -> Result<(), AllocError> {
    let steps_to_p = steps_of(alloc, &[(1, 1)])?;
    let p = Premise::Result(0);
    let mut steps = steps_of(alloc, &[(0, 2), (1, 3)])?;
    steps.push(ChainStep {
        var: Var(0),
        premise: p,
    })?;
    let store = store_of(alloc, &[&[P, Q], &[P, NOT_Q], &[NOT_P, Q], &[NOT_P, NOT_Q]])?;
    let mut log = Log::new(alloc);
    log.push(
        &store,
        Chain {
            first: Premise::Clause(0),
            steps: steps_to_p,
        },
    )?;
    log.push(&store, Chain { first: p, steps })?;
    write_results(&log, out)
}
