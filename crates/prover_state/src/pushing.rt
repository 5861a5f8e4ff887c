//! Pushes.
ghost use Rattle.std.specs.Prelude.{◌≡◌, [], ◌∷◌, map, OnOk};
ghost use Rattle.tableau_calculus.specs.Each.{Each};
ghost use Rattle.search_spec.specs.Instances.{with_literal, with_literals};
ghost use Rattle.search_spec.specs.State.{with_commands};
ghost use Rattle.prover_state.specs.Lasting.{lasting};
ghost use Rattle.prover_state.specs.Internal.Names.{command_at, IsNumberedCommand, IsNumberIn};
ghost use Rattle.prover_state.specs.Internal.Pending.{later_of, IsEntry};
ghost use Rattle.prover_state.specs.Internal.Pieces.{extra_delay};
ghost use Rattle.prover_state.specs.Internal.Standing.{without_witnesses, naming_in, sources, IsRightState};
ghost use Rattle.prover_state.specs.Internal.Advancing.{the_literal, state_in, StaysRight};

use crate::clauses::literal_of;
use crate::command::{Command, Planned};
use crate::fitting::small;
use crate::tables::Core;
use crate::waiting::Waiting;
use command_queue::Weigher;
use sat_base::SatLit;
use std::alloc::AllocError;
use term_bank::equal_ids_for_equal_terms;

impl<W: Weigher<Waiting>> Core<W> {
    /// Pushes the commands of a loop, each of which waits so much longer than others of its kind.
    pub(crate) fn push_loop(&mut self, planned: Planned, extra: u32) -> Result<(), AllocError>
        requires right { IsRightState self.old.tables self.old.plan }
        requires entry { IsEntry (without_witnesses self.old.tables.basis.bank) (naming_in self.old.tables) (sources self.old.tables)
            planned }
        requires even { let first = command_at (naming_in self.old.tables) planned.first in Each
            (λ c. extra_delay self.old.plan.rule.mode c ≡ extra) (first ∷ later_of (without_witnesses self.old.tables.basis.bank)
            (sources self.old.tables) first planned.rest) }
        ensures state { OnOk result (let first = command_at (naming_in self.old.tables) planned.first in state_in self.new ≡ with_commands
            self.old.plan.rule.mode (first ∷ later_of (without_witnesses self.old.tables.basis.bank) (sources self.old.tables) first
            planned.rest) (state_in self.old)) }
        ensures stays { OnOk result (StaysRight self.old self.new) }
        ensures tables { self.new.tables ≡ self.old.tables }
    {
        let now = small(self.tables.moment as usize + extra as usize)?;
        self.plan.push(planned, u64::from(now))?;
        Ok(())
    }

    /// Pushes one command.
    pub fn push_alone(&mut self, command: Command) -> Result<(), AllocError>
        requires right { IsRightState self.old.tables self.old.plan }
        requires numbers { IsNumberedCommand (naming_in self.old.tables) command }
        ensures state { OnOk result (state_in self.new ≡ with_commands self.old.plan.rule.mode
            (command_at (naming_in self.old.tables) command ∷ []) (state_in self.old)) }
        ensures stays { OnOk result (StaysRight self.old self.new) }
        ensures tables { self.new.tables ≡ self.old.tables }
    {
        let extra = self.extra_delay(command);
        let alone = Planned {
            first: command,
            rest: None,
        };
        self.push_loop(alone, extra)?;
        Ok(())
    }

    /// A literal is to be processed, unless it was seen before.
    pub fn see(&mut self, lit: SatLit) -> Result<(), AllocError>
        requires right { IsRightState self.old.tables self.old.plan }
        requires number { IsNumberIn self.old.tables.basis.lits lit }
        ensures state { OnOk result (state_in self.new ≡ with_literal self.old.plan.rule.mode (the_literal self.old.tables.basis lit)
            (state_in self.old)) }
        ensures stays { OnOk result (StaysRight self.old self.new) }
        ensures tables { OnOk result (self.new.tables ≡ record self.old.tables { seen = self.new.tables.seen }) }
        ensures lasts { lasting self.new.tables ≡ lasting self.old.tables }
    {
        equal_ids_for_equal_terms(&self.tables.basis.bank);
        self.tables.basis.lits.atoms_differ();
        if !self.tables.seen.insert(lit)? {
            return Ok(());
        }
        self.push_alone(Command::Process(lit))?;
        Ok(())
    }

    /// Sees literals one after the other.
    pub fn see_all(&mut self, lits: &[SatLit]) -> Result<(), AllocError>
        requires right { IsRightState self.old.tables self.old.plan }
        requires numbers { Each (IsNumberIn self.old.tables.basis.lits) lits.now }
        ensures state { OnOk result (state_in self.new ≡ with_literals self.old.plan.rule.mode
            (map (the_literal self.old.tables.basis) lits.now) (state_in self.old)) }
        ensures stays { OnOk result (StaysRight self.old self.new) }
        ensures tables { OnOk result (self.new.tables ≡ record self.old.tables { seen = self.new.tables.seen }) }
        ensures lasts { lasting self.new.tables ≡ lasting self.old.tables }
    {
        for i in 0..lits.len() {
            self.see(literal_of(lits, i))?;
        }
        Ok(())
    }
}
