//! Tables of atoms.
ghost use Rattle.std.specs.Prelude.{◌≡◌, ℕ, ◌<◌, length, [], Some, IfOk, OnErr, IfSome, IfNone, All, get_or, slice_get, take};
ghost use Rattle.stt_core.specs.Canonical.{IsCanonical};
ghost use Rattle.stt_core.specs.SimpleType.{formula};
ghost use Rattle.tableau_calculus.specs.Literals.{as_literal};
ghost use Rattle.term_bank.specs.Content.{content_scope};
ghost use Rattle.term_bank.specs.Terms.{term_at};
ghost use Rattle.literal_map.specs.Atoms.{bank_literal, IsAtom, Begins};

use crate::unsigned::atom_of;
use indexmap::IndexSet;
use sat_base::{SatLit, Var};
use std::alloc::{AllocError, Global};
use std::marker::Model;
use term_bank::{Bank, Id, equal_ids_for_equal_terms};

/// The atoms in the order in which they got their numbers. Contracts see the list of their places in the bank.
#[derive(Drop)]
pub struct LitTable {
    atoms: IndexSet<Id>,
}

impl Model for LitTable {
    ghost use Rattle.std.specs.Prelude.{List, ℕ};

    ghost Value = { List ℕ };

    ghost view = { λ table. table.atoms.keys };
}

impl LitTable {
    /// A table without atoms.
    pub fn new(alloc: Global) -> LitTable
        ensures { result ≡ [] }
    {
        LitTable {
            atoms: IndexSet::new(alloc),
        }
    }

    /// A table with the same atoms.
    pub fn try_clone(&self) -> Result<LitTable, AllocError>
        ensures { IfOk result (λ table. table ≡ self.now) }
    {
        Ok(LitTable {
            atoms: self.atoms.clone()?,
        })
    }

    /// How many atoms have a number.
    pub fn len(&self) -> usize
        ensures { result ≡ length self.now }
    {
        self.atoms.len()
    }

    /// No atom has two numbers. This does nothing: what it says stands in its contract.
    pub fn atoms_differ(&self)
        ensures { (v w id : ℕ) → slice_get self.now v ≡ Some id → slice_get self.now w ≡ Some id → v ≡ w }
    {
        let _len = self.atoms.len();
    }

    /// The literal of a formula. Where its atom has no number it gets the next one.
    pub fn lit_of(&mut self, bank: &Bank, id: Id) -> Result<SatLit, AllocError>
        requires within { id < length bank.now.terms }
        requires formula { IsCanonical (content_scope bank.now) [] formula (term_at bank.now.terms id) }
        requires atoms { All (IsAtom bank.now) self.old }
        ensures number { IfOk result (λ l. l.var.0 < length self.new) }
        ensures literal { IfOk result (λ l. bank_literal bank.now.terms self.new l ≡ as_literal (term_at bank.now.terms id)) }
        ensures begins { Begins self.old self.new }
        ensures atoms { All (IsAtom bank.now) self.new }
        ensures err { OnErr result (self.new ≡ self.old) }
    {
        let formula = atom_of(bank, id);
        let (number, _) = self.atoms.insert_full(formula.atom)?;
        Ok(SatLit {
            var: Var(number),
            positive: formula.positive,
        })
    }

    /// Takes the numbers from `len` on back from their atoms.
    pub fn truncate(&mut self, len: usize)
        ensures { self.new ≡ take len self.old }
    {
        self.atoms.truncate(len);
    }

    /// The atom of a literal.
    pub fn formula_of(&self, lit: SatLit) -> Id
        requires { lit.var.0 < length self.now }
        ensures { slice_get self.now lit.var.0 ≡ Some result }
    {
        match self.atoms.get_index(lit.var.0) {
            Some(id) => *id,
            None => unreachable!(),
        }
    }

    /// The literal of a formula, where its atom has a number.
    pub fn find(&self, bank: &Bank, id: Id) -> Option<SatLit>
        requires within { id < length bank.now.terms }
        requires atoms { All (IsAtom bank.now) self.now }
        ensures number { IfSome result (λ l. l.var.0 < length self.now) }
        ensures literal { IfSome result (λ l. bank_literal bank.now.terms self.now l ≡ as_literal (term_at bank.now.terms id)) }
        ensures none { IfNone result ((l : SatLit) → l.var.0 < length self.now → bank_literal bank.now.terms self.now l ≡ as_literal
            (term_at bank.now.terms id) → ⊥) }
    {
        let formula = atom_of(bank, id);
        equal_ids_for_equal_terms(bank);
        match self.atoms.get_index_of(&formula.atom) {
            Some(number) => Some(SatLit {
                var: Var(number),
                positive: formula.positive,
            }),
            None => None,
        }
    }
}
