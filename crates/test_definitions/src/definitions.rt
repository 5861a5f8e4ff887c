//! The definitions that are taken from a problem.

ghost use Rattle.stt_core.specs.TypedProblem.{IsTyped};

use delta_defs::{taken, unfold_problem};
use std::alloc::{AllocError, Global};
use std::str;
use stt_core::Problem;

/// How many formulas are left.
fn left(alloc: Global, problem: &Problem) -> Result<usize, AllocError> {
    let unfolded = unfold_problem(alloc, problem)?;
    Ok(unfolded.assumed.len())
}

/// The names of the definitions that are taken, each with a comma.
fn names_taken(alloc: Global, problem: &Problem) -> anyhow::Result<String>
    requires { IsTyped problem.now }
{
    let taken = taken(alloc, problem)?;
    let mut text = String::new(alloc);
    for i in 0..taken.len() {
        let name = problem.signature.consts.name_at(taken.at(i) as usize);
        text.push_str(str::from_utf8(name)?)?;
        text.push_str(", ")?;
    }
    Ok(text)
}

/// The names of the definitions that are taken, and how many formulas are left.
pub fn taken_from(alloc: Global, problem: &Problem) -> anyhow::Result<String>
    requires { IsTyped problem.now }
{
    let left = left(alloc, problem)?;
    let names = names_taken(alloc, problem)?;
    Ok(format!(in alloc; "{names}{left} left")?)
}
