//! Witness tables.
ghost use Rattle.std.specs.Prelude.{◌≡◌, ◌<◌, ◌-◌, ◌^◌, length, [], Some, IfOk, OnOk, OnErr, nat_eq, position, slice_get};
ghost use Rattle.tableau_calculus.specs.Witnesses.{IsTypedRow};
ghost use Rattle.term_bank.specs.Content.{content_scope};
ghost use Rattle.term_bank.specs.Terms.{term_at};
ghost use Rattle.witness_names.specs.Rows.{row_of, rows_of, AreRows, with_predicate};

use indexmap::IndexSet;
use std::alloc::{AllocError, Global};
use std::marker::Model;
use term_bank::{Bank, Id, equal_ids_for_equal_terms};

/// A predicate for each witness. Contracts see the list of their places in the bank.
#[derive(Drop)]
pub struct Witnesses {
    predicates: IndexSet<Id>,
}

impl Model for Witnesses {
    ghost use Rattle.std.specs.Prelude.{List, ℕ, ◌<◌, ◌^◌, length};

    ghost Value = { List ℕ };

    ghost view = { λ table. table.predicates.keys };

    ghost invariant = { λ table. length table.predicates.keys < 2 ^ 32 };
}

impl Witnesses {
    /// A table without witnesses.
    pub fn new(alloc: Global) -> Witnesses
        ensures { result ≡ [] }
    {
        Witnesses {
            predicates: IndexSet::new(alloc),
        }
    }

    /// How many witnesses there are.
    pub fn len(&self) -> u32
        ensures { result ≡ length self.now }
    {
        self.predicates.len() as u32
    }

    /// The predicate of a witness.
    pub fn predicate(&self, w: u32) -> Id
        requires { w < length self.now }
        ensures { slice_get self.now w ≡ Some result }
    {
        match self.predicates.get_index(w as usize) {
            Some(id) => *id,
            None => unreachable!(),
        }
    }

    /// The witness of a predicate, where it has one.
    pub fn find(&self, predicate: Id) -> Option<u32>
        ensures { result ≡ position (nat_eq predicate) self.now }
    {
        match self.predicates.get_index_of(&predicate) {
            Some(number) => Some(number as u32),
            None => None,
        }
    }

    /// The witness of a predicate. A predicate that has none gets a new one.
    pub fn fresh(&mut self, bank: &Bank, predicate: Id) -> Result<u32, AllocError>
        requires few { length self.old < 2 ^ 32 - 1 }
        requires within { predicate < length bank.now.terms }
        requires predicate { IsTypedRow (content_scope bank.now) (rows_of bank.now.terms self.old)
            (row_of (term_at bank.now.terms predicate)) }
        requires rows { AreRows bank.now self.old }
        ensures row { IfOk result (λ w. slice_get self.new w ≡ Some predicate) }
        ensures added { OnOk result (self.new ≡ with_predicate self.old predicate) }
        ensures rows { AreRows bank.now self.new }
        ensures err { OnErr result (self.new ≡ self.old) }
    {
        equal_ids_for_equal_terms(bank);
        let (number, _) = self.predicates.insert_full(predicate)?;
        Ok(number as u32)
    }
}
