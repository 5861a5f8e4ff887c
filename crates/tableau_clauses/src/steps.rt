//! Clauses by number, each there once, with where it comes from.
ghost use Rattle.std.specs.Prelude.{◌≡◌, ◌<◌, [], ◌∷◌, not, map, length, take, slice_get, Some, IfOk, OnOk, OnErr};
ghost use Rattle.std.specs.List.{list_any};
ghost use Rattle.search_spec.specs.Clauses.{same_clause};
ghost use Rattle.search_spec.specs.Numbered.{numbers};
ghost use Rattle.tableau_clauses.specs.Internal.Stepping.{with_steps, Adds};
ghost use Rattle.tableau_clauses.specs.Table.{clauses_in, origins_in};

use crate::key::Key;
use crate::origin::{Origin, PackedOrigin};
use indexmap::IndexMap;
use sat_base::Clause;
use std::alloc::{AllocError, Global};
use std::marker::Model;

/// Clauses, each of which is there once. A clause's number is its place.
#[derive(Drop)]
pub(crate) struct Steps {
    table: IndexMap<Key, PackedOrigin>,
    alloc: Global,
}

impl Model for Steps {
    ghost use Rattle.std.specs.Prelude.{List};
    ghost use Rattle.tableau_clauses.specs.Table.{Step};

    ghost Value = { List Step };

    ghost view = { λ steps. steps.table.entries };
}

impl Steps {
    pub(crate) fn new(alloc: Global) -> Steps
        ensures { result ≡ [] }
    {
        Steps {
            table: IndexMap::new(alloc),
            alloc,
        }
    }

    pub(crate) fn len(&self) -> usize
        ensures { result ≡ length self.now }
    {
        self.table.len()
    }

    /// A copy of the clause with this number.
    pub(crate) fn clause(&self, n: usize) -> Result<Clause, AllocError>
        requires { n < length self.now }
        ensures { IfOk result (λ clause. slice_get (clauses_in self.now) n ≡ Some clause) }
    {
        match self.table.get_index(n) {
            Some((key, _)) => key.clause(self.alloc),
            None => unreachable!(),
        }
    }

    /// Where the clause with this number comes from.
    pub(crate) fn origin(&self, n: usize) -> Origin
        requires { n < length self.now }
        ensures { slice_get (origins_in self.now) n ≡ Some result }
    {
        match self.table.get_index(n) {
            Some((_, origin)) => origin.origin(),
            None => unreachable!(),
        }
    }

    /// Adds the clause, unless it is there. Whether it was added.
    pub(crate) fn add(&mut self, clause: Clause, origin: Origin) -> Result<bool, AllocError>
        ensures ok { OnOk result (self.new ≡ with_steps origin self.old (clause ∷ [])) }
        ensures fresh { IfOk result (λ is_new. is_new ≡ not (list_any (same_clause numbers clause) (clauses_in self.old))) }
        ensures err { OnErr result (self.new ≡ self.old) }
    {
        let key = Key::of(self.alloc, &clause)?;
        let origin = PackedOrigin::of(origin)?;
        Ok(self.add_key(key, origin)?)
    }

    /// Adds the clause of a key, unless it is there. Whether it was added.
    fn add_key(&mut self, key: Key, origin: PackedOrigin) -> Result<bool, AllocError>
        ensures ok { OnOk result (self.new ≡ with_steps origin self.old (key ∷ [])) }
        ensures fresh { IfOk result (λ is_new. is_new ≡ not (list_any (same_clause numbers key) (clauses_in self.old))) }
        ensures err { OnErr result (self.new ≡ self.old) }
    {
        match self.table.get_index_of(&key) {
            Some(_) => Ok(false),
            None => {
                self.table.insert(key, origin)?;
                Ok(true)
            }
        }
    }

    /// Adds those of the clauses that aren't there yet, in their order.
    pub(crate) fn add_all(&mut self, clauses: Vec<Clause>, origin: Origin) -> Result<(), AllocError>
        ensures ok { OnOk result (self.new ≡ with_steps origin self.old clauses.items) }
        ensures adds { Adds origin self.old self.new }
    {
        for clause in clauses {
            self.add(clause, origin)?;
        }
        Ok(())
    }

    /// Takes away what was added after the first clauses.
    pub(crate) fn truncate(&mut self, len: usize)
        ensures { self.new ≡ take len self.old }
    {
        self.table.truncate(len);
    }
}
