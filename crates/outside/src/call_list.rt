// Numbers of calls.
ghost use Rattle.std.specs.Prelude.{◌≡◌, ◌↔◌, ◌++◌, [], ◌∷◌, Contains, IsTrue, OnOk, OnErr};

use std::alloc::{AllocError, Global};
use std::marker::Model;

/// Numbers of calls, counted from 0.
#[derive(Drop)]
pub struct CallList {
    numbers: Vec<u64>,
}

impl Model for CallList {
    ghost use Rattle.std.specs.Prelude.{List, ℕ};

    ghost Value = { List ℕ };

    ghost view = { λ l. l.numbers.items };
}

impl CallList {
    pub fn new(alloc: Global) -> Self
        ensures { result ≡ [] }
    {
        CallList {
            numbers: Vec::new(alloc),
        }
    }

    pub fn push(&mut self, number: u64) -> Result<(), AllocError>
        ensures ok { OnOk result (self.new ≡ self.old ++ number ∷ []) }
        ensures err { OnErr result (self.new ≡ self.old) }
    {
        self.numbers.push(number)?;
        Ok(())
    }

    pub fn contains(&self, number: u64) -> bool
        ensures { IsTrue result ↔ Contains self.now number }
    {
        self.numbers.contains(&number)
    }
}
