//! The choices and the descriptions in a formula.
ghost use Rattle.std.specs.Prelude.{◌≡◌, OnOk};
ghost use Rattle.term_bank.specs.Terms.{term_at};
ghost use Rattle.search_spec.specs.Selections.{selections_in, with_selections};
ghost use Rattle.prover_state.specs.Lasting.{lasting};
ghost use Rattle.prover_state.specs.Internal.Names.{IsNumberIn, IsPlace};
ghost use Rattle.prover_state.specs.Internal.Selecting.{head_selection};
ghost use Rattle.prover_state.specs.Internal.Standing.{IsRightState};
ghost use Rattle.prover_state.specs.Internal.Advancing.{the_atom, state_in, StaysRight};

use crate::clauses::DEPTH;
use crate::selected::{Selected, count_parts, part_of, selection_of};
use crate::tables::Core;
use crate::waiting::Waiting;
use command_queue::Weigher;
use sat_base::SatLit;
use std::alloc::AllocError;
use term_bank::Id;

impl<W: Weigher<Waiting>> Core<W> {
    /// The predicate by which a term chooses or describes at its head is chosen by or described, unless it was before.
    fn select_head(&mut self, id: Id) -> Result<(), AllocError>
        requires right { IsRightState self.old.tables self.old.plan }
        requires place { IsPlace self.old.tables.basis.bank.terms id }
        ensures state { OnOk result (state_in self.new ≡ with_selections self.old.plan.rule.mode
            (head_selection (term_at self.old.tables.basis.bank.terms id)) (state_in self.old)) }
        ensures stays { OnOk result (StaysRight self.old self.new) }
        ensures tables { OnOk result
            (self.new.tables ≡ record self.old.tables { chosen = self.new.tables.chosen; described = self.new.tables.described }) }
        ensures lasts { lasting self.new.tables ≡ lasting self.old.tables }
    {
        // The node is asked for its clause that the term is typed.
        let _typed = self.tables.basis.bank.node(id);
        match selection_of(&self.tables.basis.bank, id) {
            Selected::Chosen(predicate) => self.choose(predicate),
            Selected::Described(predicate) => self.describe(predicate),
            Selected::Nothing => Ok(()),
        }
    }

    /// Takes up what a term chooses or describes by, unless the term was walked before.
    fn walk(&mut self, id: Id) -> Result<(), AllocError>
        requires right { IsRightState self.old.tables self.old.plan }
        requires place { IsPlace self.old.tables.basis.bank.terms id }
        ensures state { OnOk result (state_in self.new ≡ with_selections self.old.plan.rule.mode
            (selections_in (term_at self.old.tables.basis.bank.terms id)) (state_in self.old)) }
        ensures stays { OnOk result (StaysRight self.old self.new) }
        ensures tables { OnOk result
            (self.new.tables ≡ record self.old.tables {
              chosen = self.new.tables.chosen;
              described = self.new.tables.described;
              walked
                  = self.new.tables.walked;
            }) }
        ensures lasts { lasting self.new.tables ≡ lasting self.old.tables }
    {
        if self.tables.walked.contains(id) {
            return Ok(());
        }
        // The node is asked for its clause that the term is its term.
        let _node = self.tables.basis.bank.node(id);
        self.select_head(id)?;
        for i in 0..count_parts(&self.tables.basis.bank, id) {
            let part = part_of(&self.tables.basis.bank, id, i);
            self.walk(part)?;
        }
        self.tables.walked.insert(id)?;
        Ok(())
    }

    /// The closed predicates by which the atom of a literal chooses or describes, from left to right, are chosen by or described, unless
    /// they were before. Each term is walked once in a search. The walk takes room for each level of the atom, and below the depth at
    /// which literals enter the clauses there is none.
    pub fn select(&mut self, lit: SatLit) -> Result<(), AllocError>
        requires right { IsRightState self.old.tables self.old.plan }
        requires number { IsNumberIn self.old.tables.basis.lits lit }
        ensures state { OnOk result (state_in self.new ≡ with_selections self.old.plan.rule.mode
            (selections_in (the_atom self.old.tables.basis lit)) (state_in self.old)) }
        ensures stays { OnOk result (StaysRight self.old self.new) }
        ensures tables { OnOk result
            (self.new.tables ≡ record self.old.tables {
              chosen = self.new.tables.chosen;
              described = self.new.tables.described;
              walked
                  = self.new.tables.walked;
            }) }
        ensures lasts { lasting self.new.tables ≡ lasting self.old.tables }
    {
        let atom = self.tables.basis.lits.formula_of(lit);
        if self.tables.basis.bank.depth(atom) > DEPTH {
            return Err(AllocError);
        }
        self.walk(atom)
    }
}
