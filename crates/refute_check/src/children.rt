//! Whether the children of a line close its alternatives.

ghost use Rattle.std.specs.Prelude.{◌≡◌, ◌↔◌, ◌++◌, List, map, IfOk, IsTrue, option_copied, slice_get};
ghost use Rattle.tableau_calculus.specs.Literals.{Literal};
ghost use Rattle.stt_core.specs.Lambda.{Lambda};
ghost use Rattle.tableau_calculus.specs.Accepted.{IsClosedBranch, ClosesBy, AreChildren};
ghost use Rattle.tableau_calculus.specs.declared.refutation.Line.{Line};
ghost use Rattle.tableau_calculus.specs.Each.{Each};
ghost use Rattle.refute_check.specs.Internal.Branches.{Represents, AreNumberedBranch, AreBranches};
ghost use Rattle.refute_check.specs.Internal.Shared.{shared_atoms, literal_in, IsGoodShared, IsSharedNumber};

use crate::branch::{Branch, LineBranch};
use crate::shared::Shared;
use literal_map::LitLists;
use std::alloc::{AllocError, Global};
use tableau_calculus::{Child, Children};

/// The branch of a line.
pub(crate) fn branch_at(earlier: &[LineBranch], j: usize) -> Option<&LineBranch>
    ensures { option_copied result ≡ slice_get earlier.now j }
{
    earlier.get(j)
}

/// Whether the child closes the branch with the alternative. An earlier line takes the time of its own literals, up to the first that
/// isn't in the branch.
fn closes_by(
    earlier: &[LineBranch],
    own: &Branch,
    known: &Branch,
    is_closed: bool,
    child: Child,
) -> bool
    ensures { (terms : List Lambda) (lines : List Line) (alternative branch : List Literal)
        → AreBranches terms lines earlier.now → Represents terms branch own.now → Represents terms alternative known.now
        → (IsTrue is_closed ↔ IsClosedBranch (alternative ++ branch))
        → IsTrue result ↔ ClosesBy lines (alternative ++ branch) child }
{
    match child {
        Child::Closed => is_closed,
        Child::Line(j) => match branch_at(earlier, j) {
            Some(branch) => branch.is_within(own, known),
            None => false,
        },
    }
}

/// Whether the branch with the alternative has a literal and its negation.
fn is_closed_with(own_is_closed: bool, own: &Branch, known: &Branch) -> bool
    ensures { (terms : List Lambda) (alternative branch : List Literal)
        → AreNumberedBranch terms branch → Represents terms branch own.now → AreNumberedBranch terms alternative → Represents terms alternative known.now
        → (IsTrue own_is_closed ↔ IsClosedBranch branch)
        → IsTrue result ↔ IsClosedBranch (alternative ++ branch) }
{
    if own_is_closed {
        return true;
    }
    if known.clashes(own) {
        return true;
    }
    known.clashes(known)
}

/// Whether there is a child for each alternative, and it closes the branch with that.
pub(crate) fn are_children(
    alloc: Global,
    shared: &Shared,
    earlier: &[LineBranch],
    own: &Branch,
    alternatives: &LitLists,
    children: &Children,
) -> Result<bool, AllocError>
    requires good { IsGoodShared shared.now }
    requires numbers { Each (Each (IsSharedNumber shared.now)) alternatives.now }
    ensures { IfOk result (λ b. (lines : List Line) (branch : List Literal)
        → AreBranches (shared_atoms shared.now) lines earlier.now → AreNumberedBranch (shared_atoms shared.now) branch → Represents (shared_atoms shared.now) branch own.now
        → IsTrue b ↔ AreChildren lines branch (map (map (literal_in shared.now)) alternatives.now) children.now) }
{
    if alternatives.len() != children.len() {
        return Ok(false);
    }
    let own_is_closed = own.clashes(own);
    for i in 0..alternatives.len() {
        let known = shared.set_of(alloc, alternatives.at(i))?;
        let is_closed = is_closed_with(own_is_closed, own, &known);
        if !closes_by(earlier, own, &known, is_closed, children.at(i)) {
            return Ok(false);
        }
    }
    Ok(true)
}
