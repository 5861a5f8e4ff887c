//! Literals that were processed.
ghost use Rattle.std.specs.Prelude.{◌≡◌, ◌<◌, [], ◌∷◌, ◌++◌, length, if◌then◌else◌, OnOk};
ghost use Rattle.stt_core.specs.SimpleType.{SimpleType};
ghost use Rattle.mating_rules.specs.Noted.{IsRightIndex};
ghost use Rattle.instantiate.specs.Listing.{ids_of};
ghost use Rattle.tableau_calculus.specs.Each.{Each};
ghost use Rattle.prover_state.specs.Lasting.{lasting};
ghost use Rattle.prover_state.specs.Internal.Names.{IsNumberIn};
ghost use Rattle.prover_state.specs.Internal.Standing.{can_pair, is_universal, IsBasis, IsRightState};
ghost use Rattle.prover_state.specs.Internal.Advancing.{the_literal, state_in};

use crate::fitting::small;
use crate::shape::{has_equal_sides, quantified_type};
use crate::tables::{Core, Tables};
use crate::waiting::Waiting;
use command_queue::Weigher;
use sat_base::SatLit;
use std::alloc::AllocError;

impl Tables {
    /// Lists the place behind the noted literals for a literal that is to stand there, where it is universal.
    fn list_universal(&mut self, lit: SatLit) -> Result<(), AllocError>
        requires basis { IsBasis self.old.basis }
        requires number { IsNumberIn self.old.basis.lits lit }
        requires places { (a : SimpleType) → Each (λ i. i < length self.old.noted.items) (ids_of a self.old.universals) }
        ensures listed { OnOk result ((a : SimpleType) → ids_of a self.new.universals
            ≡ (if is_universal self.old.basis.bank.terms self.old.basis.lits a lit then ids_of a self.old.universals ++ length
            self.old.noted.items ∷ [] else ids_of a self.old.universals)) }
        ensures tables { self.new ≡ record self.old { universals = self.new.universals } }
    {
        if !lit.positive {
            return Ok(());
        }
        let atom = self.basis.lits.formula_of(lit);
        match quantified_type(&self.basis.bank, atom) {
            Some(ty) => {
                let place = small(self.noted.len())?;
                self.universals.add_term(ty, place)?;
                Ok(())
            }
            None => Ok(()),
        }
    }

    /// Adds a literal to the index, where it can be the partner of another one.
    fn index_literal(&mut self, lit: SatLit) -> Result<(), AllocError>
        requires basis { IsBasis self.old.basis }
        requires number { IsNumberIn self.old.basis.lits lit }
        requires index { IsRightIndex self.old.basis.bank.terms self.old.basis.lits self.old.index }
        ensures noted { OnOk result
            (self.new.index.noted ≡ (if can_pair self.old.basis.bank.terms self.old.basis.lits lit then self.old.index.noted ++ lit ∷ []
            else self.old.index.noted)) }
        ensures index { OnOk result (IsRightIndex self.old.basis.bank.terms self.old.basis.lits self.new.index) }
        ensures tables { self.new ≡ record self.old { index = self.new.index } }
    {
        let atom = self.basis.lits.formula_of(lit);
        if !lit.positive && has_equal_sides(&self.basis.bank, atom) {
            return Ok(());
        }
        self.index.add(&self.basis.bank, &self.basis.lits, lit)?;
        Ok(())
    }
}

impl<W: Weigher<Waiting>> Core<W> {
    /// A literal is noted, as the last one.
    pub fn note_literal(&mut self, lit: SatLit) -> Result<(), AllocError>
        requires right { IsRightState self.old.tables self.old.plan }
        requires number { IsNumberIn self.old.tables.basis.lits lit }
        ensures state { OnOk result (let s = state_in self.old in state_in self.new ≡ record s
            { noted = s.noted ++ the_literal self.old.tables.basis lit ∷ [] }) }
        ensures right { OnOk result (IsRightState self.new.tables self.new.plan) }
        ensures tables { OnOk result
            (self.new.tables ≡ record self.old.tables {
              noted = self.new.tables.noted;
              index = self.new.tables.index;
              universals
                  = self.new.tables.universals;
            }) }
        ensures plan { self.new.plan ≡ self.old.plan }
        ensures lasts { lasting self.new.tables ≡ lasting self.old.tables }
    {
        self.tables.list_universal(lit)?;
        self.tables.index_literal(lit)?;
        self.tables.noted.push(lit)?;
        Ok(())
    }
}
