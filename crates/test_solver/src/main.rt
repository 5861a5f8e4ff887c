//! Clauses, chains and logs worked out by hand, and the solver's answers beside truth tables: pigeonhole problems, random problems, and
//! random sequences of variables, clauses and answers.
#![tactic(auto)]

mod chains;
mod pigeons;
mod problem;
mod random;
mod rows;
mod table;
mod values;
mod written;

use chains::{write_chains, write_log};
use rows::write_answers;
use std::alloc::{AllocError, Global};
use values::{write_store, write_values};

/// Adds the lines of clauses, chains and logs, and those of the solver.
fn write_lines(alloc: Global, out: &mut String) -> Result<(), AllocError> {
    write_values(alloc, out)?;
    write_store(alloc, out)?;
    write_chains(alloc, out)?;
    write_log(alloc, out)?;
    write_answers(alloc, out)
}

fn main(rt: HostRuntime) -> anyhow::Result<()> {
    let alloc = rt.alloc();
    let mut out = String::new(alloc);
    write_lines(alloc, &mut out)?;
    print!(rt; "{out}")?;
    Ok(())
}
