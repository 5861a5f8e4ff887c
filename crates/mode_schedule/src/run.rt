//! Runs that take turns, and what makes them.

use crate::turned::Took;
use std::alloc::AllocError;

/// A run that takes turns.
pub trait Run: Drop {
    ghost use Rattle.std.specs.Prelude.{ℕ, ◌≡◌, List, IfOk};
    ghost use Rattle.tableau_calculus.specs.Literals.{Literal};
    ghost use Rattle.search_spec.specs.State.{Setting};
    ghost use Rattle.mode_schedule.specs.Internal.Turning.{TookTurn};

    // The run in this setting from these literals goes on until so many commands, which were carried out.
    ghost at: { Self → Setting → List Literal → ℕ → Type 0 };

    // The run is left as after a look that found it proved, after so many commands.
    ghost left: { Self → Setting → List Literal → ℕ → Type 0 };

    /// A turn with this slice.
    fn turn(&mut self, slice: u32) -> Result<Took, AllocError>
        requires { (setting : Setting) × (start : List Literal) × (n : ℕ) × at self.old setting start n }
        ensures { IfOk result (λ took. (setting : Setting) (start : List Literal) (n : ℕ) → at self.old setting start n
            → TookTurn (at self.new setting start) (left self.new setting start) setting start slice n took.turned took.commands) };
}

/// What makes the runs of a schedule.
pub trait MakesRuns<R: Run> {
    ghost use Rattle.std.specs.Prelude.{ℕ, ◌≡◌, ◌<◌, List, IfOk, length, slice_get, Some};
    ghost use Rattle.tableau_calculus.specs.Literals.{Literal};
    ghost use Rattle.mode_schedule.specs.Turns.{Slot};

    ghost slots: { Self → List Slot };

    ghost start: { Self → List Literal };

    // The run of the slot of this number may be made.
    ghost may_make: { Self → ℕ → Type 0 };

    /// The run of the slot of this number, before its first command.
    fn make(&self, number: u32) -> Result<R, AllocError>
        requires within { number < length (slots self.now) }
        requires may { may_make self.now number }
        ensures { IfOk result (λ run. (slot : Slot) → slice_get (slots self.now) number ≡ Some slot
            → R.at run slot.setting (start self.now) 0) };
}
