//! Terms for instances.
ghost use Rattle.std.specs.Prelude.{◌≡◌, OnOk};
ghost use Rattle.stt_core.specs.View.{the_type};
ghost use Rattle.term_bank.specs.Terms.{term_at};
ghost use Rattle.search_spec.specs.Terms.{with_term};
ghost use Rattle.prover_state.specs.Lasting.{lasting};
ghost use Rattle.prover_state.specs.Internal.Names.{IsPlace};
ghost use Rattle.prover_state.specs.Internal.Standing.{IsRightState};
ghost use Rattle.prover_state.specs.Internal.Advancing.{state_in, StaysRight};

use crate::clauses::literal_of;
use crate::command::{Command, Over};
use crate::places::id_of;
use crate::tables::Core;
use crate::waiting::Waiting;
use command_queue::Weigher;
use std::alloc::AllocError;
use stt_core::Ty;
use term_bank::{Id, equal_ids_for_equal_terms};

impl<W: Weigher<Waiting>> Core<W> {
    /// A term of a type is for instances: where it is new, each universal literal over the type is to be instantiated with it.
    pub fn add_term(&mut self, ty: &Ty, id: Id) -> Result<(), AllocError>
        requires right { IsRightState self.old.tables self.old.plan }
        requires place { IsPlace self.old.tables.basis.bank.terms id }
        ensures state { OnOk result (state_in self.new ≡ with_term self.old.plan.rule.mode (the_type ty.now)
            (term_at self.old.tables.basis.bank.terms id) (state_in self.old)) }
        ensures stays { OnOk result (StaysRight self.old self.new) }
        ensures tables { OnOk result (self.new.tables ≡ record self.old.tables { terms = self.new.tables.terms }) }
        ensures lasts { lasting self.new.tables ≡ lasting self.old.tables }
    {
        equal_ids_for_equal_terms(&self.tables.basis.bank);
        if !self.tables.terms.add_term(ty, id)? {
            return Ok(());
        }
        let universals = self.tables.universals.terms_of(ty);
        let count = universals.len();
        if count == 0 {
            return Ok(());
        }
        let place = id_of(universals, 0) as usize;
        let first = Command::Inst(literal_of(self.tables.noted.as_slice(), place), id);
        self.push_whole(first, Over::Universals, count)?;
        Ok(())
    }
}
