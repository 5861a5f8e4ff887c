//! For each literal the clauses that watch it.
ghost use Rattle.std.specs.Prelude.{◌≡◌, ◌<◌, ◌+◌, ◌*◌, [], ◌∷◌, ◌++◌, if◌then◌else◌, length, OnOk, OnErr};
ghost use Rattle.sat_base.specs.declared.literal.SatLit.{SatLit};
ghost use Rattle.sat_base.specs.Literal.{same_literal};

use crate::packed::{Packed, number_of};
use sat_base::SatLit;
use std::alloc::{AllocError, Global};
use std::marker::Model;
use std::mem;

/// A clause that watches a literal, and some literal of it: where that one is true, the clause is.
#[derive(Clone, Copy)]
pub struct Watch {
    pub clause: u32,
    pub blocker: Packed,
}

/// The clauses that watch a literal.
#[derive(Drop)]
pub struct Watchers {
    pub entries: Vec<Watch>,
}

impl Model for Watchers {
    ghost use Rattle.std.specs.Prelude.{List};
    ghost use Rattle.sat_propagate.specs.declared.watch_lists.Watch.{Watch};

    ghost Value = { List Watch };

    ghost view = { λ w. w.entries.items };
}

/// A list for each literal, by its number as it is packed.
#[derive(Drop)]
pub struct WatchLists {
    alloc: Global,
    lists: Vec<Watchers>,
}

impl Model for WatchLists {
    ghost use Rattle.sat_propagate.specs.Internal.WatchLists.{WatchTable};

    ghost Value = { WatchTable };

    ghost view = { λ table. table.lists.items };
}

impl WatchLists {
    ghost use Rattle.sat_propagate.specs.Internal.WatchLists.{watchers, with_entries};

    pub fn new(alloc: Global) -> Self
        ensures { result ≡ [] }
    {
        WatchLists {
            alloc,
            lists: Vec::new(alloc),
        }
    }

    /// Lists for the two literals on one variable more.
    pub fn add_variable(&mut self) -> Result<(), AllocError>
        ensures ok { OnOk result (self.new ≡ self.old ++ [] ∷ [] ∷ []) }
        ensures err { OnErr result (self.new ≡ self.old) }
    {
        self.lists.reserve(2)?;
        self.lists.push_reserved(Watchers {
            entries: Vec::new(self.alloc),
        });
        self.lists.push_reserved(Watchers {
            entries: Vec::new(self.alloc),
        });
        Ok(())
    }

    pub fn push(&mut self, literal: SatLit, watch: Watch) -> Result<(), AllocError>
        requires { literal.var.0 * 2 + 1 < length self.old }
        ensures ok { OnOk result
            ((m : SatLit) → watchers self.new m ≡ (if same_literal literal m then watchers self.old m ++ watch ∷ [] else watchers self.old
            m)) }
        ensures err { OnErr result (self.new ≡ self.old) }
        ensures made { length self.new ≡ length self.old }
    {
        let _made = self.lists.len();
        let list = &mut self.lists[number_of(literal)];
        list.entries.push(watch)?;
        Ok(())
    }

    /// Takes the entries of a literal out.
    pub fn take(&mut self, literal: Packed) -> Vec<Watch>
        requires { literal.var.0 * 2 + 1 < length self.old }
        ensures entries { with_entries self.new literal result.items ≡ self.old }
        ensures made { length self.new ≡ length self.old }
    {
        let none = Vec::new(self.alloc);
        let list = &mut self.lists[literal.number()];
        mem::replace(&mut list.entries, none)
    }

    /// Puts entries in the place of those of a literal.
    pub fn put(&mut self, literal: Packed, entries: Vec<Watch>)
        requires { literal.var.0 * 2 + 1 < length self.old }
        ensures { self.new ≡ with_entries self.old literal entries.items }
    {
        let list = &mut self.lists[literal.number()];
        list.entries = entries;
    }
}
