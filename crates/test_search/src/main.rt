//! Runs the search over the problems in files. Each line that is read names a file, and behind it settings of a mode with commas between
//! them; behind the word `trace` what there is after each command is written too, and behind the word `text` the refutation. Each
//! refutation is checked, but behind the word `alone`.
#![tactic(auto)]

ghost use Rattle.mode_file.specs.Given.{IsInRange};
ghost use Rattle.stt_core.specs.TypedProblem.{IsTyped};
ghost use Rattle.type_bound.specs.Modest.{IsModestProblem};

mod problem;
mod row;
mod run;
mod trace;

use anyhow::Error;
use outside::{Files, StdFiles};
use problem::problem_in;
use row::{Row, Told, row_of};
use std::alloc::Global;
use stt_core::Problem;

/// What is told of the run over a row's problem.
fn told(alloc: Global, problem: &Problem, row: &Row) -> Result<String, Error>
    requires typed { IsTyped problem.now }
    requires modest { IsModestProblem 1024 problem.now }
    requires range { IsInRange row.now.mode }
{
    match row.told {
        Told::Commands => trace::trace(alloc, problem, &row.mode),
        Told::Text => run::text(alloc, problem, &row.mode),
        Told::End => run::end(alloc, problem, &row.mode),
        Told::Alone => run::alone(alloc, problem, &row.mode),
    }
}

/// What is written for a row.
fn answer<F: Files>(alloc: Global, files: &mut F, row: &Row) -> Result<String, Error>
    requires { IsInRange row.now.mode }
{
    let problem = problem_in(alloc, files, row.file.as_str())?;
    let answer = told(alloc, &problem, row);
    drop(problem);
    answer
}

fn main(rt: HostRuntime) -> anyhow::Result<()> {
    let alloc = rt.alloc();
    for line in rt.lines(alloc) {
        let line = line?;
        let row = row_of(alloc, line.as_str())?;
        let mut files = StdFiles::new(&rt);
        let text = answer(alloc, &mut files, &row)?;
        println!(rt; "{line}: {text}")?;
    }
    Ok(())
}
