//! Clauses in the order in which they were added.
ghost use Rattle.std.specs.Prelude.{◌≡◌, ◌<◌, [], ◌∷◌, ◌++◌, length, Some, IsTrue, ◌↔◌, OnOk, OnErr, slice_get};

use crate::clause::Clause;
use std::alloc::{AllocError, Global};
use std::marker::Model;

/// A list of clauses. A clause is named by its number, from 0.
#[derive(Drop)]
pub struct ClauseStore {
    clauses: Vec<Clause>,
}

impl Model for ClauseStore {
    ghost use Rattle.std.specs.Prelude.{List};
    ghost use Rattle.sat_base.specs.declared.literal.SatLit.{SatLit};

    ghost Value = { List (List SatLit) };

    ghost view = { λ store. store.clauses.items };
}

impl ClauseStore {
    pub fn new(alloc: Global) -> Self
        ensures { result ≡ [] }
    {
        ClauseStore {
            clauses: Vec::new(alloc),
        }
    }

    /// Appends a clause. Where there is no memory the store stays as it was, and the clause is dropped.
    pub fn push(&mut self, clause: Clause) -> Result<(), AllocError>
        ensures ok { OnOk result (self.new ≡ self.old ++ clause ∷ []) }
        ensures err { OnErr result (self.new ≡ self.old) }
    {
        self.clauses.push(clause)?;
        Ok(())
    }

    pub fn len(&self) -> usize
        ensures { result ≡ length self.now }
    {
        self.clauses.len()
    }

    pub fn is_empty(&self) -> bool
        ensures { IsTrue result ↔ (self.now ≡ []) }
    {
        self.clauses.is_empty()
    }

    /// Clause number `n`.
    pub fn get(&self, n: usize) -> &Clause
        requires { n < length self.now }
        ensures { slice_get self.now n ≡ Some result.now }
    {
        &self.clauses[n]
    }
}
