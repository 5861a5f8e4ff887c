//! The lines of a text, one after the other.

ghost use Rattle.std.specs.Prelude.{◌≡◌, ◌↔◌, ◌++◌, [], ◌∷◌, None, Some, List, slice_get, IsTrue, IfOk, OnOk, IfSome};
ghost use Rattle.stt_core.specs.Lambda.{Lambda};
ghost use Rattle.tableau_calculus.specs.Literals.{Literal};
ghost use Rattle.tableau_calculus.specs.Accepted.{Within};
ghost use Rattle.tableau_calculus.specs.Internal.Answers.{LineAnswer};
ghost use Rattle.tableau_calculus.specs.declared.refutation.Line.{Line as TheLine};
ghost use Rattle.refute_print.specs.TextView.{the_line};
ghost use Rattle.refute_check.specs.Numbered.{numbered_line};
ghost use Rattle.refute_check.specs.Internal.Branches.{Represents, AreNumberedBranch, AreBranches};
ghost use Rattle.refute_check.specs.Internal.Seen.{IsSeen};
ghost use Rattle.refute_check.specs.Internal.Shared.{shared_scope, shared_atoms, the_rows, IsGoodShared, ExtendsShared};

use crate::branch::{Branch, LineBranch};
use crate::children::{are_children, branch_at};
use crate::numbering::Numbering;
use crate::seen::Seen;
use crate::shared::Shared;
use crate::taking::Taking;
use refute_print::TextLine;
use std::alloc::{AllocError, Global};
use tableau_calculus::Why;

/// The branches of the lines that are right.
#[derive(Drop)]
pub(crate) struct RightLines {
    pub branches: Vec<LineBranch>,
}

impl RightLines {
    pub(crate) fn new(alloc: Global) -> Self
        ensures { (terms : List Lambda) → AreBranches terms [] result.branches.items }
    {
        RightLines {
            branches: Vec::new(alloc),
        }
    }

    /// Adds a line, or answers why it fails.
    pub(crate) fn add<'t>(
        &mut self,
        alloc: Global,
        shared: &mut Shared,
        numbering: &Numbering<'_>,
        seen: &mut Seen<'t>,
        line: &'t TextLine,
    ) -> Result<Option<Why>, AllocError>
        requires good { IsGoodShared shared.old }
        requires seen { IsSeen numbering.now shared.old seen.old }
        ensures answer { IfOk result (λ why. (earlier : List TheLine) → AreBranches (shared_atoms shared.old) earlier self.old.branches.items
            → LineAnswer (shared_scope shared.old) (the_rows shared.old) earlier (numbered_line numbering.now (the_line line.now)) why) }
        ensures added { IfOk result (λ why. why ≡ None → (earlier : List TheLine) → AreBranches (shared_atoms shared.old) earlier self.old.branches.items
            → AreBranches (shared_atoms shared.new) (earlier ++ numbered_line numbering.now (the_line line.now) ∷ []) self.new.branches.items) }
        ensures extends { IfOk result (λ why. why ≡ None → ExtendsShared shared.old shared.new) }
        ensures good { IfOk result (λ why. why ≡ None → IsGoodShared shared.new) }
        ensures seen { IfOk result (λ why. why ≡ None → IsSeen numbering.now shared.new seen.new) }
    {
        let Some(branch) = shared.branch(alloc, numbering, seen, &line.branch)? else {
            return Ok(Some(Why::Typing));
        };
        let by = match shared.taking(alloc, numbering, &branch, &line.rule)? {
            Taking::By(by) => by,
            Taking::Missing => return Ok(Some(Why::Principal)),
            Taking::Untyped => return Ok(Some(Why::Typing)),
        };
        let Some(instance) = shared.instance(alloc, &by)? else {
            return Ok(Some(Why::Principal));
        };
        let own = shared.set_of(alloc, &branch)?;
        let earlier = self.branches.as_slice();
        if !are_children(
            alloc,
            shared,
            earlier,
            &own,
            &instance.alternatives,
            &line.children,
        )? {
            return Ok(Some(Why::Child));
        }
        let listed = own.listed(alloc)?;
        self.branches.push(listed)?;
        Ok(None)
    }

    /// Whether the branch of a line is within a set of literals.
    pub(crate) fn is_within(&self, i: usize, start: &Branch) -> bool
        ensures { (terms : List Lambda) (lines : List TheLine) (line : TheLine) (ls : List Literal)
            → AreBranches terms lines self.now.branches.items → slice_get lines i ≡ Some line
            → Represents terms ls start.now → IsTrue result ↔ Within line.branch ls }
    {
        match branch_at(self.branches.as_slice(), i) {
            Some(branch) => branch.is_within(start, start),
            None => false,
        }
    }
}
