//! Rows of clauses: their values, and their order in a store.

use crate::written::{NOT_Q, P, Q, write_clause};
use sat_base::{Assignment, Clause, ClauseStore, SatLit, value_in};
use std::alloc::{AllocError, Global};

/// Clauses, and the values of the variables.
const CLAUSES: &[(&[SatLit], &[bool])] = &[
    (&[], &[]),
    (&[P], &[true]),
    (&[P], &[false]),
    (&[NOT_Q, P], &[false, true]),
    (&[NOT_Q, P], &[false, false]),
    (&[Q, NOT_Q], &[false, false]),
];

fn assignment_of(alloc: Global, values: &[bool]) -> Result<Assignment, AllocError> {
    let mut assignment = Assignment::new(alloc);
    for value in values {
        assignment.push(*value)?;
    }
    Ok(assignment)
}

/// The clause's value, where each of its variables has one.
fn value_under(clause: &Clause, assignment: &Assignment) -> Option<bool> {
    let variables = assignment.len();
    let each_has_a_value = clause.as_slice().iter().all(|l| l.var.0 < variables);
    if each_has_a_value {
        Some(value_in(clause, assignment))
    } else {
        None
    }
}

fn write_value(
    alloc: Global,
    literals: &[SatLit],
    values: &[bool],
    out: &mut String,
) -> Result<(), AllocError> {
    let assignment = assignment_of(alloc, values)?;
    let clause = Clause::from_slice(alloc, literals)?;
    let value = value_under(&clause, &assignment);
    write_clause(out, literals)?;
    writeln!(out, " under {values:?}: {value:?}")
}

/// Adds the clauses with their values.
pub fn write_values(alloc: Global, out: &mut String) -> Result<(), AllocError> {
    for (literals, values) in CLAUSES {
        write_value(alloc, literals, values, out)?;
    }
    Ok(())
}

/// A clause that grew.
fn grown(alloc: Global) -> Result<Clause, AllocError> {
    let mut clause = Clause::new(alloc);
    for literal in [P, Q.negated()] {
        clause.push(literal)?;
    }
    Ok(clause)
}

/// Stores two clauses, of which the first one grew.
fn store_two(alloc: Global, store: &mut ClauseStore) -> Result<(), AllocError> {
    store.push(grown(alloc)?)?;
    store.push(Clause::from_slice(alloc, &[Q])?)
}

/// Adds the clauses of a store, with how many literals each has.
fn write_stored(store: &ClauseStore, out: &mut String) -> Result<(), AllocError> {
    write!(out, "stored: {}", store.len())?;
    for n in 0..store.len() {
        out.push(' ')?;
        let clause = store.get(n);
        write_clause(out, clause.as_slice())?;
        write!(out, " of {}", clause.iter().count())?;
    }
    out.push('\n')
}

/// Adds what is empty at first, and a store with two clauses.
pub fn write_store(alloc: Global, out: &mut String) -> Result<(), AllocError> {
    let mut store = ClauseStore::new(alloc);
    let no_clause = store.is_empty();
    let no_literal = Clause::new(alloc).is_empty();
    let stored = store_two(alloc, &mut store);
    let written = write_stored(&store, out);
    drop(store);
    stored?;
    written?;
    writeln!(out, "empty at first: {no_clause}, {no_literal}")
}
