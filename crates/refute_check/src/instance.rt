//! The instances of rules.

ghost use Rattle.std.specs.Prelude.{◌≡◌, ◌<◌, ◌^◌, List, length, None, OnOk, IfOk, IfSome};
ghost use Rattle.tableau_calculus.specs.Literals.{Literal};
ghost use Rattle.tableau_calculus.specs.Rules.{PlainRule};
ghost use Rattle.refute_check.specs.Internal.Shared.{IsGoodShared, ExtendsShared};
ghost use Rattle.refute_check.specs.Internal.Taking.{IsTaken, FindsUse};

use crate::shared::Shared;
use literal_map::{BankUse, Instance};
use std::alloc::{AllocError, Global};
use tableau_rules::{RuleRefused, make};
use term_bank::equal_ids_for_equal_terms;

impl Shared {
    /// The instance of a rule, or none where it has none. A rule whose instance would need a witness that the table doesn't have has none.
    pub(crate) fn instance(
        &mut self,
        alloc: Global,
        by: &BankUse,
    ) -> Result<Option<Instance>, AllocError>
        requires good { IsGoodShared self.old }
        requires taken { (ls : List Literal) × (rule : PlainRule) × IsTaken self.old ls rule by.now }
        ensures finds { IfOk result (λ o. (ls : List Literal) (rule : PlainRule) → IsTaken self.old ls rule by.now
            → FindsUse self.old self.new ls rule o) }
        ensures extends { IfOk result (λ o. IfSome o (λ _. ExtendsShared self.old self.new)) }
        ensures good { IfOk result (λ o. IfSome o (λ _. IsGoodShared self.new)) }
    {
        let count = self.witnesses.len();
        if count == u32::MAX {
            return Err(AllocError);
        }
        let made = make(
            alloc,
            &mut self.bank,
            &mut self.normal,
            &mut self.lits,
            &mut self.witnesses,
            by,
        );
        equal_ids_for_equal_terms(&self.bank);
        match made {
            Ok(instance) => {
                if self.witnesses.len() == count {
                    Ok(Some(instance))
                } else {
                    Ok(None)
                }
            }
            Err(refused) => match refused {
                RuleRefused::NotThisRule => Ok(None),
                RuleRefused::Memory => Err(AllocError),
            },
        }
    }
}
