//! Instances of rules.
ghost use Rattle.std.specs.Prelude.{◌≡◌, map, OnOk};
ghost use Rattle.tableau_calculus.specs.Each.{Each};
ghost use Rattle.search_spec.specs.Instances.{with_instance};
ghost use Rattle.prover_state.specs.Lasting.{lasting};
ghost use Rattle.prover_state.specs.Internal.Names.{IsNumberIn};
ghost use Rattle.prover_state.specs.Internal.Standing.{IsRightState};
ghost use Rattle.prover_state.specs.Internal.Steps.{StepsGrow};
ghost use Rattle.prover_state.specs.Internal.Advancing.{the_literal, state_in, StaysRight};

use crate::clauses::{add_clauses, all_shallow, joined};
use crate::tables::Core;
use crate::waiting::Waiting;
use command_queue::Weigher;
use literal_map::Instance;
use std::alloc::AllocError;
use term_bank::equal_ids_for_equal_terms;

impl<W: Weigher<Waiting>> Core<W> {
    /// Adds the clauses of an instance, and the literals of its alternatives are to be processed, unless one of them is too deep. Room
    /// for their entries is made before the clauses are added.
    pub fn add_instance(&mut self, instance: Instance) -> Result<(), AllocError>
        requires right { IsRightState self.old.tables self.old.plan }
        requires principals { Each (IsNumberIn self.old.tables.basis.lits) instance.principals }
        requires alternatives { Each (Each (IsNumberIn self.old.tables.basis.lits)) instance.alternatives }
        ensures state { OnOk result (let d = the_literal self.old.tables.basis in state_in self.new ≡ with_instance self.old.plan.rule.mode
            (map d instance.principals) (map (map d) instance.alternatives) (state_in self.old)) }
        ensures stays { OnOk result (StaysRight self.old self.new) }
        ensures tables { OnOk result
            (self.new.tables ≡ record self.old.tables {
              seen = self.new.tables.seen;
              steps = self.new.tables.steps;
              solver
                  = self.new.tables.solver;
            }) }
        ensures steps { OnOk result (StepsGrow (λ i. i ≡ instance) self.old.tables.steps self.new.tables.steps) }
        ensures lasts { lasting self.new.tables ≡ lasting self.old.tables }
    {
        let basis = &self.tables.basis;
        equal_ids_for_equal_terms(&basis.bank);
        basis.lits.atoms_differ();
        if !all_shallow(&basis.bank, &basis.lits, &instance.alternatives) {
            return Ok(());
        }
        let lits = joined(self.tables.alloc, &instance.alternatives)?;
        self.plan.reserve(lits.len())?;
        let atoms = self.tables.basis.lits.len();
        add_clauses(
            &mut self.tables.steps,
            &mut self.tables.solver,
            atoms,
            instance,
        )?;
        self.see_all(lits.as_slice())?;
        Ok(())
    }
}
