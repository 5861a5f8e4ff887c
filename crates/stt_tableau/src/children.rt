//! Whether the children of a line close its alternatives.

ghost use Rattle.std.specs.Prelude.{◌≡◌, ◌≤◌, ◌↔◌, ◌++◌, IfOk, IsTrue, length, take};
ghost use Rattle.tableau_calculus.specs.Accepted.{ClosesBy, AreChildren};

use crate::alternatives::Alternatives;
use std::alloc::{AllocError, Global};
use tableau_calculus::{Child, Children, Lines, Lits};

/// The literals of both lists.
fn joined(alloc: Global, front: &Lits, back: &Lits) -> Result<Lits, AllocError>
    ensures { IfOk result (λ ls. ls ≡ front.now ++ back.now) }
{
    let mut lits = front.try_clone(alloc)?;
    for i in 0..back.len() {
        let lit = back.at(i).try_clone(alloc)?;
        lits.push(lit)?;
    }
    Ok(lits)
}

/// Whether the child closes the branch, where the first `count` lines are earlier ones.
fn closes_by(lines: &Lines, count: usize, branch: &Lits, child: Child) -> bool
    ensures { IsTrue result ↔ ClosesBy (take count lines.now) branch.now child }
{
    match child {
        Child::Closed => branch.is_closed(),
        Child::Line(j) => match lines.get(j) {
            Some(line) => j < count && line.branch.is_within(branch),
            None => false,
        },
    }
}

/// Whether there is a child for each alternative, and it closes the branch with that.
pub fn are_children(
    alloc: Global,
    lines: &Lines,
    count: usize,
    branch: &Lits,
    alternatives: &Alternatives,
    children: &Children,
) -> Result<bool, AllocError>
    ensures { IfOk result (λ b. IsTrue b ↔ AreChildren (take count lines.now) branch.now alternatives.now children.now) }
{
    if alternatives.len() != children.len() {
        return Ok(false);
    }
    for i in 0..alternatives.len() {
        let extended = joined(alloc, alternatives.at(i), branch)?;
        if !closes_by(lines, count, &extended, children.at(i)) {
            return Ok(false);
        }
    }
    Ok(true)
}
