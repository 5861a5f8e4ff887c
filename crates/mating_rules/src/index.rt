//! Literals by the heads of their atoms.
ghost use Rattle.std.specs.Prelude.{◌≡◌, ℕ, ◌<◌, ◌++◌, List, [], ◌∷◌, length, All, IfOk, OnOk, OnErr};
ghost use Rattle.stt_core.specs.Lambda.{Lambda};
ghost use Rattle.literal_map.specs.Atoms.{IsAtom};
ghost use Rattle.mating_rules.specs.Noted.{IsRightIndex, partners_of};

use crate::heads::Heads;
use crate::partners::Partners;
use literal_map::LitTable;
use sat_base::SatLit;
use std::alloc::{AllocError, Global};
use std::marker::Model;
use term_bank::Bank;

/// The literals that were noted. Contracts see their list, and which of them are kept under each head.
#[derive(Drop)]
pub struct Index {
    noted: Vec<SatLit>,
    heads: Heads,
}

impl Model for Index {
    ghost use Rattle.mating_rules.specs.Noted.{Notes};
    ghost use Rattle.mating_rules.specs.Internal.NotesCode.{notes_code};

    ghost Value = { Notes };

    ghost coded = { notes_code };

    ghost view = { λ a. record { noted = a.noted.items; heads = a.heads } };
}

impl Index {
    /// An index without literals.
    pub fn new(alloc: Global) -> Index
        ensures empty { result ≡ record { noted = []; heads = [] } }
        ensures right { (terms : List Lambda) (atoms : List ℕ) → IsRightIndex terms atoms result }
    {
        Index {
            noted: Vec::new(alloc),
            heads: Heads::new(alloc),
        }
    }

    /// The partners of a literal among those that were noted.
    pub fn partners(
        &self,
        bank: &Bank,
        lits: &LitTable,
        lit: SatLit,
    ) -> Result<&[SatLit], AllocError>
        requires number { lit.var.0 < length lits.now }
        requires atoms { All (IsAtom bank.now) lits.now }
        requires right { IsRightIndex bank.now.terms lits.now self.now }
        ensures { IfOk result (λ found. found.now ≡ partners_of bank.now.terms lits.now lit self.now.noted) }
    {
        let atom = lits.formula_of(lit);
        Ok(self.heads.kept_for(bank.node(atom), !lit.positive)?)
    }

    /// Adds a literal, as the last one that was noted.
    pub fn add(&mut self, bank: &Bank, lits: &LitTable, lit: SatLit) -> Result<(), AllocError>
        requires number { lit.var.0 < length lits.now }
        requires atoms { All (IsAtom bank.now) lits.now }
        requires right { IsRightIndex bank.now.terms lits.now self.old }
        ensures noted { OnOk result (self.new.noted ≡ self.old.noted ++ lit ∷ []) }
        ensures right { IsRightIndex bank.now.terms lits.now self.new }
        ensures err { OnErr result (self.new ≡ self.old) }
    {
        let atom = lits.formula_of(lit);
        self.noted.reserve(1)?;
        self.heads.add_under(bank.node(atom), lit)?;
        Ok(self.noted.push(lit)?)
    }

    /// Notes a literal. The answer are its partners among those that were noted before.
    pub fn note(
        &mut self,
        bank: &Bank,
        lits: &LitTable,
        lit: SatLit,
    ) -> Result<Partners, AllocError>
        requires number { lit.var.0 < length lits.now }
        requires atoms { All (IsAtom bank.now) lits.now }
        requires right { IsRightIndex bank.now.terms lits.now self.old }
        ensures partners { IfOk result (λ found. found ≡ partners_of bank.now.terms lits.now lit self.old.noted) }
        ensures noted { OnOk result (self.new.noted ≡ self.old.noted ++ lit ∷ []) }
        ensures right { IsRightIndex bank.now.terms lits.now self.new }
        ensures err { OnErr result (self.new ≡ self.old) }
    {
        let atom = lits.formula_of(lit);
        self.noted.reserve(1)?;
        let partners = self.heads.keep_under(bank.node(atom), lit)?;
        self.noted.push(lit)?;
        Ok(partners)
    }
}
