//! What the rules of a text take, by numbers.

ghost use Rattle.std.specs.Prelude.{◌≡◌, List, OnOk, IfOk};
ghost use Rattle.tableau_calculus.specs.Literals.{Literal};
ghost use Rattle.tableau_calculus.specs.declared.rule_use.RuleUse.TheVariants.{AtOne, AtTwo, AllPos, WithPredicate, Cut};
ghost use Rattle.refute_check.specs.Numbered.{numbered_rule, numbered_term, numbered_literal};
ghost use Rattle.refute_check.specs.Internal.Shared.{AreNumbersOf, IsGoodShared, ExtendsShared};
ghost use Rattle.refute_check.specs.Internal.Taking.{Takes};
ghost use Rattle.refute_check.specs.declared.shared.Shared.{Shared as TheShared};

use crate::known::literal_at;
use crate::numbering::Numbering;
use crate::shared::Shared;
use literal_map::{BankUse, LitList};
use refute_print::{TextLit, TextRule, TextTerm};
use std::alloc::{AllocError, Global};
use tableau_calculus::{OfPredicate, OnePlace, RuleUse, TwoPlaces};

/// What a rule takes, where that is typed and its principals stand at its places.
#[derive(Drop)]
pub(crate) enum Taking {
    Untyped,
    Missing,
    By(BankUse),
}

/// A rule with the literal at a place of the branch.
fn at_one(branch: &LitList, rule: OnePlace, i: usize) -> Taking
    ensures { (s : TheShared) (ls : List Literal) → AreNumbersOf s ls branch.now → Takes s ls (AtOne rule i) result }
{
    match literal_at(branch, i) {
        Some(lit) => Taking::By(RuleUse::AtOne(rule, lit)),
        None => Taking::Missing,
    }
}

/// A rule with the literals at two places of the branch.
fn at_two(branch: &LitList, rule: TwoPlaces, i: usize, j: usize) -> Taking
    ensures { (s : TheShared) (ls : List Literal) → AreNumbersOf s ls branch.now → Takes s ls (AtTwo rule i j) result }
{
    match literal_at(branch, i) {
        Some(first) => match literal_at(branch, j) {
            Some(second) => Taking::By(RuleUse::AtTwo(rule, first, second)),
            None => Taking::Missing,
        },
        None => Taking::Missing,
    }
}

impl Shared {
    /// The instance of a quantified formula at a term.
    fn at_term(
        &mut self,
        alloc: Global,
        numbering: &Numbering<'_>,
        branch: &LitList,
        i: usize,
        term: &TextTerm,
    ) -> Result<Taking, AllocError>
        requires good { IsGoodShared self.old }
        ensures takes { IfOk result (λ taking. (ls : List Literal) → AreNumbersOf self.old ls branch.now
            → Takes self.new ls (AllPos i (numbered_term numbering.now term.now)) taking) }
        ensures extends { OnOk result (ExtendsShared self.old self.new) }
        ensures good { OnOk result (IsGoodShared self.new) }
    {
        let Some(id) = self.term(alloc, numbering, term)? else {
            return Ok(Taking::Untyped);
        };
        match literal_at(branch, i) {
            Some(lit) => Ok(Taking::By(RuleUse::AllPos(lit, id))),
            None => Ok(Taking::Missing),
        }
    }

    /// A rule of a predicate.
    fn of_predicate(
        &mut self,
        alloc: Global,
        numbering: &Numbering<'_>,
        rule: OfPredicate,
        predicate: &TextTerm,
    ) -> Result<Taking, AllocError>
        requires good { IsGoodShared self.old }
        ensures takes { IfOk result (λ taking. (ls : List Literal) → Takes self.new ls
            (WithPredicate rule (numbered_term numbering.now predicate.now)) taking) }
        ensures extends { OnOk result (ExtendsShared self.old self.new) }
        ensures good { OnOk result (IsGoodShared self.new) }
    {
        match self.predicate(alloc, numbering, predicate)? {
            Some(id) => Ok(Taking::By(RuleUse::WithPredicate(rule, id))),
            None => Ok(Taking::Untyped),
        }
    }

    /// The cut with a literal.
    fn of_cut(
        &mut self,
        alloc: Global,
        numbering: &Numbering<'_>,
        lit: &TextLit,
    ) -> Result<Taking, AllocError>
        requires good { IsGoodShared self.old }
        ensures takes { IfOk result (λ taking. (ls : List Literal) → Takes self.new ls (Cut (numbered_literal numbering.now lit.now))
            taking) }
        ensures extends { OnOk result (ExtendsShared self.old self.new) }
        ensures good { OnOk result (IsGoodShared self.new) }
    {
        match self.literal(alloc, numbering, lit)? {
            Some(lit) => Ok(Taking::By(RuleUse::Cut(lit))),
            None => Ok(Taking::Untyped),
        }
    }

    /// What a rule of a text takes in a branch.
    pub(crate) fn taking(
        &mut self,
        alloc: Global,
        numbering: &Numbering<'_>,
        branch: &LitList,
        rule: &TextRule,
    ) -> Result<Taking, AllocError>
        requires good { IsGoodShared self.old }
        ensures takes { IfOk result (λ taking. (ls : List Literal) → AreNumbersOf self.old ls branch.now
            → Takes self.new ls (numbered_rule numbering.now rule.now) taking) }
        ensures extends { OnOk result (ExtendsShared self.old self.new) }
        ensures good { OnOk result (IsGoodShared self.new) }
    {
        match rule {
            RuleUse::AtOne(rule, i) => Ok(at_one(branch, *rule, *i)),
            RuleUse::AtTwo(rule, i, j) => Ok(at_two(branch, *rule, *i, *j)),
            RuleUse::AllPos(i, term) => Ok(self.at_term(alloc, numbering, branch, *i, term)?),
            RuleUse::WithPredicate(rule, f) => Ok(self.of_predicate(alloc, numbering, *rule, f)?),
            RuleUse::Cut(lit) => Ok(self.of_cut(alloc, numbering, lit)?),
        }
    }
}
