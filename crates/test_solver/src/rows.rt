//! The rows.
ghost use Rattle.std.specs.Prelude.{◌<◌};

use crate::pigeons::state_pigeons;
use crate::problem::Problem;
use crate::random::{Random, literal, random_clause};
use sat_base::Clause;
use sat_core::Answer;
use std::alloc::{AllocError, Global};

/// How many of the problems with two to six holes are refuted.
fn pigeonholes_refuted(alloc: Global, problem: &mut Problem) -> Result<u32, AllocError> {
    let mut refuted: u32 = 0;
    for holes in 2..7 {
        state_pigeons(alloc, problem, holes)?;
        if problem.solve(100_000)? == Answer::Unsat {
            refuted = refuted.saturating_add(1);
        }
    }
    Ok(refuted)
}

/// States a problem of so many variables, with four times as many clauses.
fn state_random(
    alloc: Global,
    problem: &mut Problem,
    random: &mut Random,
    variables: usize,
) -> Result<(), AllocError>
    requires { 0 < variables }
{
    problem.restart(alloc, variables)?;
    for _ in 0..variables.saturating_mul(4) {
        let _added = problem.add(random_clause(alloc, random, variables)?)?;
    }
    Ok(())
}

/// How many of twenty random problems of 8 to 14 variables are answered as their truth tables say.
fn random_problems_right(alloc: Global, problem: &mut Problem) -> Result<u32, AllocError> {
    let mut random = Random { state: 1 };
    let mut right: u32 = 0;
    for _ in 0..20 {
        let variables = 8 + random.below(7) as usize;
        state_random(alloc, problem, &mut random, variables)?;
        if problem.is_right(alloc, 5_000_000)? {
            right = right.saturating_add(1);
        }
    }
    Ok(right)
}

/// States all four clauses of two literals over two variables.
fn state_four(alloc: Global, problem: &mut Problem) -> Result<(), AllocError> {
    problem.restart(alloc, 2)?;
    for (first, second) in [(true, true), (true, false), (false, true), (false, false)] {
        let literals = [literal(0, first), literal(1, second)];
        let _added = problem.add(Clause::from_slice(alloc, &literals)?)?;
    }
    Ok(())
}

/// Whether the next thing is a variable, where there are some.
fn wants_variable(variables: usize, random: &mut Random) -> bool {
    variables < 9 && random.below(2) == 0
}

/// One variable or one clause more.
fn grow(alloc: Global, problem: &mut Problem, random: &mut Random) -> Result<(), AllocError> {
    let variables = problem.solver.variables();
    if variables == 0 || wants_variable(variables, random) {
        let _var = problem.solver.new_var()?;
        return Ok(());
    }
    let clause = random_clause(alloc, random, variables)?;
    let _added = problem.add(clause)?;
    Ok(())
}

/// A small budget or a large one beyond the conflicts so far.
fn budget(problem: &Problem, random: &mut Random) -> u64 {
    let spare = if random.below(2) == 0 {
        random.below(3)
    } else {
        1_000_000
    };
    problem.solver.conflicts().saturating_add(spare)
}

/// Some variables and clauses more, and whether the answer is that of the truth table.
fn is_round_right(
    alloc: Global,
    problem: &mut Problem,
    random: &mut Random,
) -> Result<bool, AllocError> {
    for _ in 0..random.below(4) {
        grow(alloc, problem, random)?;
    }
    let budget = budget(problem, random);
    problem.is_right(alloc, budget)
}

/// Whether twenty rounds over one solver are right.
fn is_sequence_right(
    alloc: Global,
    problem: &mut Problem,
    random: &mut Random,
) -> Result<bool, AllocError> {
    problem.restart(alloc, 1)?;
    for _ in 0..20 {
        if !is_round_right(alloc, problem, random)? {
            return Ok(false);
        }
    }
    Ok(true)
}

/// How many of two hundred random sequences are right.
fn random_sequences_right(alloc: Global, problem: &mut Problem) -> Result<u32, AllocError> {
    let mut random = Random { state: 2 };
    let mut right: u32 = 0;
    for _ in 0..200 {
        if is_sequence_right(alloc, problem, &mut random)? {
            right = right.saturating_add(1);
        }
    }
    Ok(right)
}

fn write_each(alloc: Global, problem: &mut Problem, out: &mut String) -> Result<(), AllocError> {
    let refuted = pigeonholes_refuted(alloc, problem)?;
    writeln!(
        out,
        "pigeonhole problems of 3 to 7 pigeons: {refuted} refuted"
    )?;
    let right = random_problems_right(alloc, problem)?;
    writeln!(out, "random problems: {right} right")?;
    for budget in [0, 729] {
        state_four(alloc, problem)?;
        let answer = problem.solve(budget)?;
        writeln!(
            out,
            "four clauses over two variables within {budget} conflicts: {answer:?}"
        )?;
    }
    let right = random_sequences_right(alloc, problem)?;
    writeln!(out, "random sequences: {right} right")
}

/// Adds how many problems are answered as they should be.
pub fn write_answers(alloc: Global, out: &mut String) -> Result<(), AllocError> {
    let mut problem = Problem::new(alloc);
    let written = write_each(alloc, &mut problem, out);
    drop(problem);
    written
}
