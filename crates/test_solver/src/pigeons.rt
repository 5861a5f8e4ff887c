//! Pigeonhole problems: one pigeon more than there are holes, and no two of them in one hole.

use crate::problem::Problem;
use crate::random::literal;
use sat_base::{Clause, SatLit};
use std::alloc::{AllocError, Global};

/// A pigeon is in a hole, or is not.
fn sits(holes: usize, pigeon: usize, hole: usize, positive: bool) -> SatLit {
    literal(pigeon.wrapping_mul(holes).wrapping_add(hole), positive)
}

/// Two pigeons are not in one hole.
fn keep_apart(
    alloc: Global,
    problem: &mut Problem,
    holes: usize,
    pigeon: usize,
    other: usize,
) -> Result<(), AllocError> {
    for hole in 0..holes {
        let literals = [
            sits(holes, pigeon, hole, false),
            sits(holes, other, hole, false),
        ];
        let _added = problem.add(Clause::from_slice(alloc, &literals)?)?;
    }
    Ok(())
}

/// A pigeon is in some hole.
fn somewhere(alloc: Global, holes: usize, pigeon: usize) -> Result<Clause, AllocError> {
    let mut clause = Clause::new(alloc);
    for hole in 0..holes {
        clause.push(sits(holes, pigeon, hole, true))?;
    }
    Ok(clause)
}

/// Puts so many pigeons in some hole each, and no two of them in one.
fn place(
    alloc: Global,
    problem: &mut Problem,
    holes: usize,
    count: usize,
) -> Result<(), AllocError> {
    for pigeon in 0..count {
        let _added = problem.add(somewhere(alloc, holes, pigeon)?)?;
        for other in 0..pigeon {
            keep_apart(alloc, problem, holes, pigeon, other)?;
        }
    }
    Ok(())
}

/// States the problem with so many holes.
pub fn state_pigeons(alloc: Global, problem: &mut Problem, holes: usize) -> Result<(), AllocError> {
    let count = holes.wrapping_add(1);
    problem.restart(alloc, count.wrapping_mul(holes))?;
    place(alloc, problem, holes, count)
}
