//! Truth tables.

use sat_base::{Clause, ClauseStore};
use std::alloc::{AllocError, Global};

/// How many rows a table has at most: those of 14 variables.
const ROWS: usize = 16_384;

fn is_true(clause: &Clause, values: &[bool]) -> bool {
    clause
        .iter()
        .any(|l| values.get(l.var.0) == Some(&l.positive))
}

/// Whether each clause is true with these values.
pub fn hold(clauses: &ClauseStore, values: &[bool]) -> bool {
    for n in 0..clauses.len() {
        if !is_true(clauses.get(n), values) {
            return false;
        }
    }
    true
}

/// The next row of a truth table, if there is one.
fn advance(values: &mut [bool]) -> bool {
    for value in values.iter_mut() {
        *value = !*value;
        if *value {
            return true;
        }
    }
    false
}

/// Whether a row from this one on makes each clause true.
fn is_some_row_true(clauses: &ClauseStore, values: &mut [bool]) -> bool {
    for _ in 0..ROWS {
        if hold(clauses, values) {
            return true;
        }
        if !advance(values) {
            return false;
        }
    }
    false
}

/// Whether a row of the table makes each clause true.
pub fn is_satisfiable(
    alloc: Global,
    clauses: &ClauseStore,
    variables: usize,
) -> Result<bool, AllocError> {
    let mut values = vec![in alloc; false; variables]?;
    Ok(is_some_row_true(clauses, values.as_mut_slice()))
}
