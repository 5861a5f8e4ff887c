//! The terms of a check, each of which is there once.

ghost use Rattle.std.specs.Prelude.{◌≡◌, ◌↔◌, [], Some, option_map, IfOk, OnOk, IsTrue};
ghost use Rattle.stt_core.specs.Typing.{IsScope};
ghost use Rattle.stt_core.specs.ScopeView.{the_scope};
ghost use Rattle.stt_core.specs.SimpleType.{SimpleType, predicate};
ghost use Rattle.stt_core.specs.View.{the_type};
ghost use Rattle.stt_core.specs.Canonical.{IsCanonical};
ghost use Rattle.tableau_calculus.specs.Literals.{IsLiteral};
ghost use Rattle.refute_check.specs.Numbered.{numbered_term, numbered_literal};
ghost use Rattle.refute_check.specs.Internal.Shared.{shared_scope, declared_in, shared_atoms, the_rows, IsGoodShared, ExtendsShared, NumbersLiteral, HasPlace, HasPredicate};

use crate::number_line::number_literal;
use crate::number_term::number_term;
use crate::numbering::Numbering;
use bank_normal::Normaliser;
use literal_map::LitTable;
use refute_print::{TextLit, TextTerm};
use sat_base::SatLit;
use std::alloc::{AllocError, Global};
use stt_core::{Nf, Signature, Ty, Types, type_of_closed};
use tableau_calculus::{Lit, is_typed_literal};
use term_bank::{Bank, Id};
use witness_names::Witnesses;

/// A bank, with numbers for atoms and for the predicates of witnesses. The types of the witnesses stand in a list of their own too.
#[derive(Drop)]
pub(crate) struct Shared {
    pub bank: Bank,
    pub normal: Normaliser,
    pub lits: LitTable,
    pub witnesses: Witnesses,
    pub types: Types,
}

fn is_predicate(found: Option<Ty>) -> bool
    ensures { IsTrue result ↔ ((a : SimpleType) × (option_map the_type found ≡ Some (predicate a))) }
{
    match found {
        Some(Ty::Arrow(_, outcome)) => outcome.same(&Ty::Base(0)),
        Some(Ty::Base(_)) => false,
        None => false,
    }
}

impl Shared {
    /// No terms, over a signature.
    pub(crate) fn new(alloc: Global, sig: &Signature) -> Result<Self, AllocError>
        requires declared { IsScope (the_scope sig.now []) }
        ensures good { IfOk result IsGoodShared }
        ensures scope { IfOk result (λ s. shared_scope s ≡ the_scope sig.now []) }
        ensures declared { IfOk result (λ s. declared_in s ≡ the_scope sig.now []) }
        ensures rows { IfOk result (λ s. the_rows s ≡ []) }
        ensures atoms { IfOk result (λ s. shared_atoms s ≡ []) }
    {
        let sig = sig.try_clone(alloc)?;
        Ok(Shared {
            bank: Bank::new(alloc, sig),
            normal: Normaliser::new(alloc),
            lits: LitTable::new(alloc),
            witnesses: Witnesses::new(alloc),
            types: Types::new(alloc),
        })
    }

    /// The type of a closed term, where it is canonical.
    fn type_of(&self, alloc: Global, nf: &Nf) -> Result<Option<Ty>, AllocError>
        requires good { IsGoodShared self.now }
        ensures { IfOk result (λ found. (a : SimpleType) → (option_map the_type found ≡ Some a) ↔ IsCanonical (shared_scope self.now) [] a
            nf.now) }
    {
        Ok(type_of_closed(alloc, self.bank.sig(), &self.types, nf)?)
    }

    fn is_literal(&self, alloc: Global, lit: &Lit) -> Result<bool, AllocError>
        requires good { IsGoodShared self.now }
        ensures { IfOk result (λ b. IsTrue b ↔ IsLiteral (shared_scope self.now) lit.now) }
    {
        Ok(is_typed_literal(alloc, self.bank.sig(), &self.types, lit)?)
    }

    /// The number of a literal, or none where it is none over what is declared.
    fn number(&mut self, alloc: Global, lit: &Lit) -> Result<Option<SatLit>, AllocError>
        requires good { IsGoodShared self.old }
        ensures number { IfOk result (NumbersLiteral self.new lit.now) }
        ensures extends { OnOk result (ExtendsShared self.old self.new) }
        ensures good { OnOk result (IsGoodShared self.new) }
    {
        if !self.is_literal(alloc, lit)? {
            return Ok(None);
        }
        let id = self.bank.import(&lit.atom)?;
        let atom = self.lits.lit_of(&self.bank, id)?;
        Ok(Some(SatLit {
            var: atom.var,
            positive: lit.positive,
        }))
    }

    /// The number of a text's literal, or none where it is none over what is declared.
    pub(crate) fn literal(
        &mut self,
        alloc: Global,
        numbering: &Numbering<'_>,
        lit: &TextLit,
    ) -> Result<Option<SatLit>, AllocError>
        requires good { IsGoodShared self.old }
        ensures number { IfOk result (NumbersLiteral self.new (numbered_literal numbering.now lit.now)) }
        ensures extends { OnOk result (ExtendsShared self.old self.new) }
        ensures good { OnOk result (IsGoodShared self.new) }
    {
        match number_literal(alloc, numbering, lit)? {
            Some(lit) => Ok(self.number(alloc, &lit)?),
            None => Ok(None),
        }
    }

    /// The place of a term, or none where it isn't closed and canonical over what is declared.
    fn place_of(&mut self, alloc: Global, nf: &Nf) -> Result<Option<Id>, AllocError>
        requires good { IsGoodShared self.old }
        ensures place { IfOk result (HasPlace self.new nf.now) }
        ensures extends { OnOk result (ExtendsShared self.old self.new) }
        ensures good { OnOk result (IsGoodShared self.new) }
    {
        if self.type_of(alloc, nf)?.is_none() {
            return Ok(None);
        }
        let id = self.bank.import(nf)?;
        Ok(Some(id))
    }

    /// The place of a text's term, or none where it isn't closed and canonical over what is declared.
    pub(crate) fn term(
        &mut self,
        alloc: Global,
        numbering: &Numbering<'_>,
        term: &TextTerm,
    ) -> Result<Option<Id>, AllocError>
        requires good { IsGoodShared self.old }
        ensures place { IfOk result (HasPlace self.new (numbered_term numbering.now term.now)) }
        ensures extends { OnOk result (ExtendsShared self.old self.new) }
        ensures good { OnOk result (IsGoodShared self.new) }
    {
        let nf = number_term(alloc, numbering, term)?;
        let place = self.place_of(alloc, &nf);
        drop(nf);
        place
    }

    /// The place of a predicate, or none where the term is none.
    fn predicate_place(&mut self, alloc: Global, nf: &Nf) -> Result<Option<Id>, AllocError>
        requires good { IsGoodShared self.old }
        ensures place { IfOk result (HasPredicate self.new nf.now) }
        ensures extends { OnOk result (ExtendsShared self.old self.new) }
        ensures good { OnOk result (IsGoodShared self.new) }
    {
        let found = self.type_of(alloc, nf)?;
        if !is_predicate(found) {
            return Ok(None);
        }
        let id = self.bank.import(nf)?;
        Ok(Some(id))
    }

    /// The same of a predicate.
    pub(crate) fn predicate(
        &mut self,
        alloc: Global,
        numbering: &Numbering<'_>,
        term: &TextTerm,
    ) -> Result<Option<Id>, AllocError>
        requires good { IsGoodShared self.old }
        ensures place { IfOk result (HasPredicate self.new (numbered_term numbering.now term.now)) }
        ensures extends { OnOk result (ExtendsShared self.old self.new) }
        ensures good { OnOk result (IsGoodShared self.new) }
    {
        let nf = number_term(alloc, numbering, term)?;
        let place = self.predicate_place(alloc, &nf);
        drop(nf);
        place
    }
}
