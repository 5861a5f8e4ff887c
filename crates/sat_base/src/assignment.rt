//! Values of variables.
ghost use Rattle.std.specs.Prelude.{◌≡◌, ◌<◌, [], ◌∷◌, ◌++◌, length, IsTrue, ◌↔◌, OnOk, OnErr};

use crate::literal::Var;
use std::alloc::{AllocError, Global};
use std::marker::Model;

/// A value for each variable below a number: entry k is the value of variable k.
#[derive(Drop)]
pub struct Assignment {
    values: Vec<bool>,
}

impl Model for Assignment {
    ghost use Rattle.std.specs.Prelude.{List, Bool};

    ghost Value = { List Bool };

    ghost view = { λ assignment. assignment.values.items };
}

impl Assignment {
    ghost use Rattle.sat_base.specs.Truth.{assigned};

    /// The assignment of no variable.
    pub fn new(alloc: Global) -> Self
        ensures { result ≡ [] }
    {
        Assignment {
            values: Vec::new(alloc),
        }
    }

    /// Gives the next variable its value.
    pub fn push(&mut self, value: bool) -> Result<(), AllocError>
        ensures ok { OnOk result (self.new ≡ self.old ++ value ∷ []) }
        ensures err { OnErr result (self.new ≡ self.old) }
    {
        self.values.push(value)?;
        Ok(())
    }

    /// How many variables have a value.
    pub fn len(&self) -> usize
        ensures { result ≡ length self.now }
    {
        self.values.len()
    }

    pub fn is_empty(&self) -> bool
        ensures { IsTrue result ↔ (self.now ≡ []) }
    {
        self.values.is_empty()
    }

    /// The value of a variable.
    pub fn value(&self, var: Var) -> bool
        requires { var.0 < length self.now }
        ensures { result ≡ assigned self.now var }
    {
        self.values[var.0]
    }
}
