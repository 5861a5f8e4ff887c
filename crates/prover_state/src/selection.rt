//! The predicates that are chosen by, and those that are described.
ghost use Rattle.std.specs.Prelude.{◌≡◌, OnOk};
ghost use Rattle.term_bank.specs.Terms.{term_at};
ghost use Rattle.witness_names.specs.Rows.{binder_of};
ghost use Rattle.search_spec.specs.Selections.{with_selection, by_choice, by_description};
ghost use Rattle.prover_state.specs.Lasting.{lasting};
ghost use Rattle.prover_state.specs.Internal.Names.{IsPlace};
ghost use Rattle.prover_state.specs.Internal.Standing.{IsRightState};
ghost use Rattle.prover_state.specs.Internal.Advancing.{state_in, StaysRight};

use crate::command::Command;
use crate::tables::Core;
use crate::waiting::Waiting;
use command_queue::Weigher;
use std::alloc::AllocError;
use term_bank::{Id, equal_ids_for_equal_terms};

impl<W: Weigher<Waiting>> Core<W> {
    /// A closed predicate is chosen by, unless it was before.
    pub fn choose(&mut self, predicate: Id) -> Result<(), AllocError>
        requires right { IsRightState self.old.tables self.old.plan }
        requires place { IsPlace self.old.tables.basis.bank.terms predicate }
        ensures state { OnOk result (let f = term_at self.old.tables.basis.bank.terms predicate in state_in self.new ≡ with_selection
            self.old.plan.rule.mode (by_choice (binder_of f) f) (state_in self.old)) }
        ensures stays { OnOk result (StaysRight self.old self.new) }
        ensures tables { OnOk result (self.new.tables ≡ record self.old.tables { chosen = self.new.tables.chosen }) }
        ensures lasts { lasting self.new.tables ≡ lasting self.old.tables }
    {
        equal_ids_for_equal_terms(&self.tables.basis.bank);
        if !self.tables.chosen.insert(predicate)? {
            return Ok(());
        }
        self.push_alone(Command::Choose(predicate))?;
        Ok(())
    }

    /// A closed predicate is described, unless it was before.
    pub fn describe(&mut self, predicate: Id) -> Result<(), AllocError>
        requires right { IsRightState self.old.tables self.old.plan }
        requires place { IsPlace self.old.tables.basis.bank.terms predicate }
        ensures state { OnOk result (let f = term_at self.old.tables.basis.bank.terms predicate in state_in self.new ≡ with_selection
            self.old.plan.rule.mode (by_description (binder_of f) f) (state_in self.old)) }
        ensures stays { OnOk result (StaysRight self.old self.new) }
        ensures tables { OnOk result (self.new.tables ≡ record self.old.tables { described = self.new.tables.described }) }
        ensures lasts { lasting self.new.tables ≡ lasting self.old.tables }
    {
        equal_ids_for_equal_terms(&self.tables.basis.bank);
        if !self.tables.described.insert(predicate)? {
            return Ok(());
        }
        self.push_alone(Command::Describe(predicate))?;
        Ok(())
    }
}
