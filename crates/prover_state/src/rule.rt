//! Instances of rules that make no witness.
ghost use Rattle.std.specs.Prelude.{◌≡◌, ◌<◌, ◌-◌, ◌^◌, List, length, map, None, false, IfOk, OnOk};
ghost use Rattle.tableau_calculus.specs.Each.{Each};
ghost use Rattle.tableau_calculus.specs.CutFree.{is_cut_use};
ghost use Rattle.tableau_calculus.specs.Literals.{Literal};
ghost use Rattle.tableau_calculus.specs.RuleUses.{principals_of, EachPart};
ghost use Rattle.term_bank.specs.Terms.{term_at};
ghost use Rattle.tableau_rules.specs.Changes.{denial_of};
ghost use Rattle.tableau_rules.specs.Uses.{IsInstanceBy};
ghost use Rattle.refute_print.specs.Sizes.{IsSmallTerm};
ghost use Rattle.search_spec.specs.Instances.{with_instance};
ghost use Rattle.prover_state.specs.Lasting.{declarations_of, lasting};
ghost use Rattle.prover_state.specs.Internal.Growing.{BasisGrows};
ghost use Rattle.prover_state.specs.Internal.Names.{IsNumberIn, IsPlace};
ghost use Rattle.prover_state.specs.Internal.Standing.{rows_in, IsBasis};
ghost use Rattle.prover_state.specs.Internal.Steps.{IsMadeInstance, StepsGrow};
ghost use Rattle.prover_state.specs.Internal.Advancing.{the_literal, state_in, StaysRight, IsReadyCore};

use crate::tables::{Basis, Core};
use crate::waiting::Waiting;
use command_queue::Weigher;
use literal_map::{BankUse, Instance};
use std::alloc::{AllocError, Global};
use tableau_rules::{RuleRefused, make};

impl Basis {
    /// The instance of a rule that makes no witness.
    pub(crate) fn make_instance(
        &mut self,
        alloc: Global,
        by: &BankUse,
    ) -> Result<Instance, AllocError>
        requires good { IsBasis self.old }
        requires principals { Each (IsNumberIn self.old.lits) (principals_of by.now) }
        requires parts { EachPart (IsPlace self.old.bank.terms) (IsNumberIn self.old.lits) by.now }
        requires few { length self.old.witnesses < 2 ^ 32 - 1 }
        requires unwitnessed { denial_of by.now ≡ None }
        requires fits { (alternatives : List (List Literal)) × IsInstanceBy self.old.bank self.old.lits (rows_in self.old) by.now
            alternatives }
        ensures by { IfOk result (λ i. i.by ≡ by.now) }
        ensures principals { IfOk result (λ i. i.principals ≡ principals_of by.now) }
        ensures numbers { IfOk result (λ i. Each (Each (IsNumberIn self.new.lits)) i.alternatives) }
        ensures instance { IfOk result (λ i. IsInstanceBy self.new.bank self.new.lits (rows_in self.new) by.now
            (map (map (the_literal self.new)) i.alternatives)) }
        ensures good { OnOk result (IsBasis self.new) }
        ensures grows { OnOk result (BasisGrows self.old self.new) }
        ensures declared { declarations_of self.new ≡ declarations_of self.old }
    {
        let made = make(
            alloc,
            &mut self.bank,
            &mut self.normal,
            &mut self.lits,
            &mut self.witnesses,
            by,
        );
        match made {
            Ok(instance) => Ok(instance),
            Err(refused) => match refused {
                RuleRefused::Memory => Err(AllocError),
                RuleRefused::NotThisRule => unreachable!(),
            },
        }
    }
}

impl<W: Weigher<Waiting>> Core<W> {
    /// Adds the instance of a rule that makes no witness and is no cut. Its term, where it takes one, is small enough for a text.
    pub fn apply_rule(&mut self, by: BankUse) -> Result<(), AllocError>
        requires ready { IsReadyCore self.old }
        requires principals { Each (IsNumberIn self.old.tables.basis.lits) (principals_of by) }
        requires parts { EachPart (IsPlace self.old.tables.basis.bank.terms) (IsNumberIn self.old.tables.basis.lits) by }
        requires small { EachPart (λ u. IsSmallTerm (term_at self.old.tables.basis.bank.terms u)) (λ l. Unit {0}) by }
        requires unwitnessed { denial_of by ≡ None }
        requires uncut { is_cut_use by ≡ false }
        requires fits { (alternatives : List (List Literal)) × IsInstanceBy self.old.tables.basis.bank self.old.tables.basis.lits
            (rows_in self.old.tables.basis) by alternatives }
        ensures state { OnOk result ((alternatives : List (List Literal)) → IsInstanceBy self.old.tables.basis.bank self.old.tables.basis.lits (rows_in self.old.tables.basis) by alternatives
            → state_in self.new ≡ with_instance self.old.plan.rule.mode (map (the_literal self.old.tables.basis) (principals_of by)) alternatives (state_in self.old)) }
        ensures stays { OnOk result (StaysRight self.old self.new) }
        ensures basis { OnOk result (BasisGrows self.old.tables.basis self.new.tables.basis) }
        ensures steps { OnOk result (StepsGrow (IsMadeInstance self.new.tables.basis) self.old.tables.steps self.new.tables.steps) }
        ensures tables { OnOk result
            (self.new.tables ≡ record self.old.tables {
              basis = self.new.tables.basis;
              seen = self.new.tables.seen;
              steps
                  = self.new.tables.steps;
              solver = self.new.tables.solver;
            }) }
        ensures lasts { lasting self.new.tables ≡ lasting self.old.tables }
    {
        let instance = self.tables.basis.make_instance(self.tables.alloc, &by)?;
        self.add_instance(instance)?;
        Ok(())
    }
}
