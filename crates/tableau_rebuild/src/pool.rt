//! Literals of which each is made once.
ghost use Rattle.std.specs.Prelude.{◌≡◌, ◌<◌, [], ◌∷◌, ◌++◌, ℕ, List, length, Some, slice_get, IfOk, OnOk, All};
ghost use Rattle.stt_core.specs.Lambda.{Lambda};
ghost use Rattle.search_spec.specs.Numbered.{literal_at};
ghost use Rattle.term_bank.specs.Terms.{term_at};
ghost use Rattle.literal_map.specs.Atoms.{IsAtom};
ghost use Rattle.tableau_rebuild.specs.Tables.{atoms_at};
ghost use Rattle.tableau_rebuild.specs.Pools.{IsMadePool};

use crate::literals::lit_of;
use indexmap::IndexSet;
use literal_map::LitTable;
use refute_share::{SharedLit, SharedLits, SharedTerm, TermPool};
use sat_base::SatLit;
use std::alloc::{AllocError, Global};
use std::rc::Rc;
use term_bank::{Bank, Id};

/// The literals that were made of their numbers so far, and the terms. Lines share them.
#[derive(Drop)]
pub struct Pool {
    numbers: IndexSet<SatLit>,
    lits: SharedLits,
    terms: TermPool,
}

impl Pool {
    /// A pool without literals.
    pub fn new(alloc: Global) -> Pool
        ensures { (terms : List Lambda) (atoms : List ℕ) → IsMadePool terms atoms result }
    {
        Pool {
            numbers: IndexSet::new(alloc),
            lits: SharedLits::new(alloc),
            terms: TermPool::new(alloc),
        }
    }

    /// The term of a number.
    pub(crate) fn term(
        &mut self,
        bank: &Bank,
        atoms: &LitTable,
        id: Id,
    ) -> Result<Rc<SharedTerm>, AllocError>
        requires within { id < length bank.now.terms }
        requires made { IsMadePool bank.now.terms atoms.now self.old }
        ensures made { OnOk result (IsMadePool bank.now.terms atoms.now self.new) }
        ensures term { IfOk result (λ term. term.value ≡ term_at bank.now.terms id) }
    {
        let _atoms = atoms.len();
        Ok(self.terms.share(bank, id)?)
    }

    /// The literal that a number with a sign stands for.
    pub(crate) fn lit(
        &mut self,
        bank: &Bank,
        atoms: &LitTable,
        literal: SatLit,
    ) -> Result<SharedLit, AllocError>
        requires atoms { All (IsAtom bank.now) atoms.now }
        requires within { literal.var.0 < length atoms.now }
        requires made { IsMadePool bank.now.terms atoms.now self.old }
        ensures made { OnOk result (IsMadePool bank.now.terms atoms.now self.new) }
        ensures lit { IfOk result (λ l. l ≡ literal_at (atoms_at bank.now.terms atoms.now) literal) }
    {
        Ok(lit_of(bank, atoms, literal, &mut self.terms)?)
    }

    /// The place of a literal in the pool, which gets it where it isn't there yet.
    fn place_of(
        &mut self,
        bank: &Bank,
        atoms: &LitTable,
        literal: SatLit,
    ) -> Result<usize, AllocError>
        requires atoms { All (IsAtom bank.now) atoms.now }
        requires within { literal.var.0 < length atoms.now }
        requires made { IsMadePool bank.now.terms atoms.now self.old }
        ensures made { OnOk result (IsMadePool bank.now.terms atoms.now self.new) }
        ensures place { IfOk result (λ place. slice_get self.new.lits place ≡ Some
            (literal_at (atoms_at bank.now.terms atoms.now) literal)) }
    {
        let (place, is_new) = self.numbers.insert_full(literal)?;
        if is_new {
            let lit = lit_of(bank, atoms, literal, &mut self.terms)?;
            self.lits.push(lit)?;
            return Ok(place);
        }
        Ok(place)
    }

    /// Appends the literal of a number to a list, which shares it.
    pub(crate) fn push_to(
        &mut self,
        bank: &Bank,
        atoms: &LitTable,
        literal: SatLit,
        lits: &mut SharedLits,
    ) -> Result<(), AllocError>
        requires atoms { All (IsAtom bank.now) atoms.now }
        requires within { literal.var.0 < length atoms.now }
        requires made { IsMadePool bank.now.terms atoms.now self.old }
        ensures made { OnOk result (IsMadePool bank.now.terms atoms.now self.new) }
        ensures pushed { OnOk result (lits.new ≡ lits.old ++ literal_at (atoms_at bank.now.terms atoms.now) literal ∷ []) }
    {
        let place = self.place_of(bank, atoms, literal)?;
        lits.share(&self.lits, place)?;
        Ok(())
    }
}
