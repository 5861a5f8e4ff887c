//! The tables in which instances are made.
ghost use Rattle.std.specs.Prelude.{◌<◌, [], length, map, IfOk, IsTrue};
ghost use Rattle.tableau_calculus.specs.Each.{Each};
ghost use Rattle.stt_core.specs.Canonical.{IsCanonical};
ghost use Rattle.stt_core.specs.SimpleType.{formula};
ghost use Rattle.stt_core.specs.Typing.{AreDeclared};
ghost use Rattle.tableau_calculus.specs.RuleUses.{principals_of, EachPart};
ghost use Rattle.term_bank.specs.Content.{content_scope};
ghost use Rattle.term_bank.specs.Terms.{term_at};
ghost use Rattle.mating_rules.specs.Noted.{IsRightIndex};
ghost use Rattle.test_tables.specs.Sound.{AreSoundTables};

use crate::notation::{WITNESSES, term_of, write_nf};
use crate::refusal::RowRefused;
use bank_normal::Normaliser;
use literal_map::{BankUse, Instance, LitList, LitTable};
use mating_rules::Index;
use sat_base::SatLit;
use std::alloc::{AllocError, Global};
use stt_core::{Signature, Term, Ty, Types, type_of};
use tableau_calculus::RuleUse;
use tableau_rules::{RuleRefused, make};
use term_bank::{Bank, Id};
use witness_names::Witnesses;

/// Terms, the literals of formulas, and witnesses.
#[derive(Drop)]
pub struct Tables {
    bank: Bank,
    normal: Normaliser,
    lits: LitTable,
    witnesses: Witnesses,
    alloc: Global,
}

impl Tables {
    /// Tables over these declarations, with nothing in them.
    pub fn new(alloc: Global, sig: Signature) -> Tables
        requires { AreDeclared (length sig.bases) (map (λ c. c.type) sig.consts) }
        ensures { AreSoundTables result }
    {
        Tables {
            bank: Bank::new(alloc, sig),
            normal: Normaliser::new(alloc),
            lits: LitTable::new(alloc),
            witnesses: Witnesses::new(alloc),
            alloc,
        }
    }

    /// The normal form of a closed term, where no witness has a type yet.
    fn normal_form(&mut self, term: &Term) -> Result<Id, RowRefused>
        requires { AreSoundTables self.old }
        ensures { AreSoundTables self.new }
    {
        if self.bank.witness_types() > 0 {
            return Err(RowRefused::Unread);
        }
        let none = Types::new(self.alloc);
        match type_of(self.alloc, self.bank.sig(), &none, &none, term)? {
            Some(_) => Ok(self.normal.normalise(&mut self.bank, term)?),
            None => Err(RowRefused::Unread),
        }
    }

    /// The normal form of the closed term that a text stands for.
    pub fn term(&mut self, text: &str) -> Result<Id, RowRefused>
        requires { AreSoundTables self.old }
        ensures { AreSoundTables self.new }
    {
        let term = term_of(self.alloc, text)?;
        self.normal_form(&term)
    }

    /// Whether the number is that of a closed formula.
    fn is_formula(&self, id: Id) -> Result<bool, AllocError>
        ensures within { IfOk result (λ is. IsTrue is → id < length self.now.bank.terms) }
        ensures formula { IfOk result (λ is. IsTrue is → IsCanonical (content_scope self.now.bank) [] formula
            (term_at self.now.bank.terms id)) }
    {
        if id as usize >= self.bank.len() {
            return Ok(false);
        }
        if !self.bank.is_closed(id) {
            return Ok(false);
        }
        Ok(self.bank.ty(id)?.same(&Ty::Base(0)))
    }

    /// The literal of the formula that a text stands for.
    pub fn literal(&mut self, text: &str) -> Result<SatLit, RowRefused>
        requires { AreSoundTables self.old }
        ensures { AreSoundTables self.new }
    {
        let id = self.term(text)?;
        if self.is_formula(id)? {
            Ok(self.lits.lit_of(&self.bank, id)?)
        } else {
            Err(RowRefused::Unread)
        }
    }

    /// The literal that a sign and the text of a formula stand for.
    pub fn signed(&mut self, word: &str) -> Result<SatLit, RowRefused>
        requires { AreSoundTables self.old }
        ensures { AreSoundTables self.new }
    {
        match word.strip_prefix('-') {
            Some(text) => Ok(self.literal(text)?.negated()),
            None => match word.strip_prefix('+') {
                Some(text) => self.literal(text),
                None => Err(RowRefused::Unread),
            },
        }
    }

    fn is_number(&self, lit: SatLit) -> bool
        ensures { IsTrue result → lit.var.0 < length self.now.lits }
    {
        lit.var.0 < self.lits.len()
    }

    fn is_place(&self, id: Id) -> bool
        ensures { IsTrue result → id < length self.now.bank.terms }
    {
        (id as usize) < self.bank.len()
    }

    /// Whether what the rule takes is there.
    fn is_within(&self, by: &BankUse) -> bool
        ensures principals { IsTrue result → Each (λ l. l.var.0 < length self.now.lits) (principals_of by.now) }
        ensures parts { IsTrue result → EachPart (λ id. id < length self.now.bank.terms) (λ l. l.var.0 < length self.now.lits) by.now }
    {
        match by {
            RuleUse::AtOne(_, lit) => self.is_number(*lit),
            RuleUse::AtTwo(_, first, second) => self.is_number(*first) && self.is_number(*second),
            RuleUse::AllPos(lit, term) => self.is_number(*lit) && self.is_place(*term),
            RuleUse::WithPredicate(_, term) => self.is_place(*term),
            RuleUse::Cut(lit) => self.is_number(*lit),
        }
    }

    /// The instance of a rule, where it has one.
    pub fn instance(&mut self, by: &BankUse) -> Result<Option<Instance>, RowRefused>
        requires { AreSoundTables self.old }
        ensures { AreSoundTables self.new }
    {
        if !self.is_within(by) {
            return Err(RowRefused::Unread);
        }
        if self.witnesses.len() == u32::MAX {
            return Err(RowRefused::Memory);
        }
        let made = make(
            self.alloc,
            &mut self.bank,
            &mut self.normal,
            &mut self.lits,
            &mut self.witnesses,
            by,
        );
        match made {
            Ok(instance) => Ok(Some(instance)),
            Err(RuleRefused::NotThisRule) => Ok(None),
            Err(RuleRefused::Memory) => Err(RowRefused::Memory),
        }
    }

    /// Notes the literals one after the other, and adds the text of each one's partners among those before it.
    fn write_noted(
        &self,
        index: &mut Index,
        noted: &LitList,
        out: &mut String,
    ) -> Result<(), RowRefused>
        requires sound { AreSoundTables self.now }
        requires right { IsRightIndex self.now.bank.terms self.now.lits index.old }
    {
        for lit in noted.as_slice() {
            if !self.is_number(*lit) {
                return Err(RowRefused::Unread);
            }
            out.push(' ')?;
            let partners = index.note(&self.bank, &self.lits, *lit)?;
            self.write_lits(partners.as_slice(), out)?;
        }
        Ok(())
    }

    /// Notes the literals where none is noted yet, and adds the text of each one's partners.
    pub fn write_partners(&self, noted: &LitList, out: &mut String) -> Result<(), RowRefused>
        requires { AreSoundTables self.now }
    {
        let mut index = Index::new(self.alloc);
        self.write_noted(&mut index, noted, out)
    }

    /// How many partners are found for the later literals, which are noted so many times after the earlier ones.
    fn count_noted(
        &self,
        index: &mut Index,
        earlier: &LitList,
        later: &LitList,
        rounds: usize,
    ) -> Result<usize, RowRefused>
        requires sound { AreSoundTables self.now }
        requires right { IsRightIndex self.now.bank.terms self.now.lits index.old }
    {
        self.note_all(index, earlier)?;
        let mut count: usize = 0;
        for _ in 0..rounds {
            count = count.saturating_add(self.note_all(index, later)?);
        }
        Ok(count)
    }

    /// How many partners are found for the later literals, where none is noted before the earlier ones.
    pub fn count_partners(
        &self,
        earlier: &LitList,
        later: &LitList,
        rounds: usize,
    ) -> Result<usize, RowRefused>
        requires { AreSoundTables self.now }
    {
        let mut index = Index::new(self.alloc);
        self.count_noted(&mut index, earlier, later, rounds)
    }

    /// Notes the literals. The answer is the number of all their partners.
    fn note_all(&self, index: &mut Index, lits: &LitList) -> Result<usize, RowRefused>
        requires sound { AreSoundTables self.now }
        requires right { IsRightIndex self.now.bank.terms self.now.lits index.old }
        ensures { IsRightIndex self.now.bank.terms self.now.lits index.new }
    {
        let mut count: usize = 0;
        for lit in lits.as_slice() {
            if !self.is_number(*lit) {
                return Err(RowRefused::Unread);
            }
            let partners = index.note(&self.bank, &self.lits, *lit)?;
            count = count.saturating_add(partners.len());
        }
        Ok(count)
    }

    fn write_term(&self, id: Id, out: &mut String) -> Result<(), AllocError> {
        if id as usize >= self.bank.len() {
            return out.push('?');
        }
        write_nf(out, &self.bank.export(id)?)
    }

    fn write_lit(&self, lit: SatLit, out: &mut String) -> Result<(), AllocError> {
        out.push(if lit.positive { '+' } else { '-' })?;
        if lit.var.0 >= self.lits.len() {
            return out.push('?');
        }
        self.write_term(self.lits.formula_of(lit), out)
    }

    /// Adds the texts of literals, in brackets.
    pub fn write_lits(&self, lits: &[SatLit], out: &mut String) -> Result<(), AllocError> {
        out.push('[')?;
        for (i, lit) in lits.iter().enumerate() {
            if i > 0 {
                out.push(',')?;
            }
            self.write_lit(*lit, out)?;
        }
        out.push(']')?;
        Ok(())
    }

    /// Adds, for each witness, its letter and its predicate.
    pub fn write_witnesses(&self, out: &mut String) -> Result<(), AllocError> {
        for w in 0..self.witnesses.len() {
            out.push_str(", ")?;
            let letter = WITNESSES.get(w as usize).copied().unwrap_or(b'?');
            out.push(char::from(letter))?;
            out.push_str(" for ")?;
            self.write_term(self.witnesses.predicate(w), out)?;
        }
        Ok(())
    }
}
