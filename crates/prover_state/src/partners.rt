//! Loops over the partners of a literal, and over the terms for one.
ghost use Rattle.std.specs.Prelude.{◌≡◌, true, map, OnOk};
ghost use Rattle.search_spec.specs.Partners.{matings, confrontations};
ghost use Rattle.search_spec.specs.Spine.{is_spine};
ghost use Rattle.search_spec.specs.State.{inst, with_commands};
ghost use Rattle.search_spec.specs.Terms.{terms_of};
ghost use Rattle.prover_state.specs.Internal.Names.{IsNumberIn};
ghost use Rattle.prover_state.specs.Internal.Pending.{equation_type, range_of};
ghost use Rattle.prover_state.specs.Internal.Shapes.{IsBaseEquation, IsQuantifiedFormula};
ghost use Rattle.prover_state.specs.Internal.Standing.{IsRightState};
ghost use Rattle.prover_state.specs.Internal.Advancing.{the_literal, the_atom, state_in, StaysRight};

use crate::clauses::literal_of;
use crate::command::{Command, Over};
use crate::places::{id_of, listed_under};
use crate::tables::Core;
use crate::waiting::Waiting;
use command_queue::Weigher;
use sat_base::SatLit;
use std::alloc::AllocError;

impl<W: Weigher<Waiting>> Core<W> {
    /// A literal, whose atom is a compared constant with arguments, is to be mated with each noted one of the other sign that has this
    /// head.
    pub fn push_matings(&mut self, lit: SatLit) -> Result<(), AllocError>
        requires right { IsRightState self.old.tables self.old.plan }
        requires number { IsNumberIn self.old.tables.basis.lits lit }
        requires spine { is_spine (the_atom self.old.tables.basis lit) ≡ true }
        ensures state { OnOk result (let s = state_in self.old in state_in self.new ≡ with_commands self.old.plan.rule.mode
            (matings (the_literal self.old.tables.basis lit) s.noted) s) }
        ensures stays { OnOk result (StaysRight self.old self.new) }
        ensures tables { self.new.tables ≡ self.old.tables }
    {
        let partners = self.tables.partners(lit)?;
        let count = partners.len();
        if count == 0 {
            return Ok(());
        }
        let partner = literal_of(partners, 0);
        if lit.positive {
            return self.push_whole(Command::Mate(lit, partner), Over::Negatives, count);
        }
        self.push_whole(Command::Mate(partner, lit), Over::Positives, count)
    }

    /// An equation, or the negation of one, on a base type other than that of formulas is to be confronted with each noted one of the
    /// other sign, where a negated one has two different sides.
    pub fn push_confrontations(&mut self, lit: SatLit) -> Result<(), AllocError>
        requires right { IsRightState self.old.tables self.old.plan }
        requires number { IsNumberIn self.old.tables.basis.lits lit }
        requires equation { IsBaseEquation (the_atom self.old.tables.basis lit) }
        ensures state { OnOk result (let s = state_in self.old in let l = the_literal self.old.tables.basis lit in state_in self.new
            ≡ with_commands self.old.plan.rule.mode (confrontations (equation_type l.atom) l s.noted) s) }
        ensures stays { OnOk result (StaysRight self.old self.new) }
        ensures tables { self.new.tables ≡ self.old.tables }
    {
        let partners = self.tables.partners(lit)?;
        let count = partners.len();
        if count == 0 {
            return Ok(());
        }
        let partner = literal_of(partners, 0);
        if lit.positive {
            return self.push_whole(Command::Confront(lit, partner), Over::Negatives, count);
        }
        self.push_whole(Command::Confront(partner, lit), Over::Positives, count)
    }

    /// A literal that says of a predicate that it holds everywhere is to be instantiated with each term of the type.
    pub fn push_instances(&mut self, lit: SatLit) -> Result<(), AllocError>
        requires right { IsRightState self.old.tables self.old.plan }
        requires number { IsNumberIn self.old.tables.basis.lits lit }
        requires quantified { IsQuantifiedFormula (the_atom self.old.tables.basis lit) }
        ensures state { OnOk result (let s = state_in self.old in let l = the_literal self.old.tables.basis lit in state_in self.new
            ≡ with_commands self.old.plan.rule.mode (map (inst l) (terms_of (range_of l.atom) s)) s) }
        ensures stays { OnOk result (StaysRight self.old self.new) }
        ensures tables { self.new.tables ≡ self.old.tables }
    {
        let ids = listed_under(&self.tables.basis, &self.tables.terms, lit);
        let count = ids.len();
        if count == 0 {
            return Ok(());
        }
        let first = Command::Inst(lit, id_of(ids, 0));
        self.push_whole(first, Over::Terms, count)
    }
}
