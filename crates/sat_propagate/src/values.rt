//! Which literals are true.
ghost use Rattle.std.specs.Prelude.{◌≡◌, ◌<◌, ◌+◌, ◌*◌, [], length, OnOk, OnErr};
ghost use Rattle.sat_base.specs.declared.literal.SatLit.{SatLit};
ghost use Rattle.sat_base.specs.Literal.{negated};
ghost use Rattle.sat_propagate.specs.Internal.Trail.{is_true_by, SetsValue};

use crate::packed::{Packed, number_of};
use sat_base::SatLit;
use std::alloc::{AllocError, Global};
use std::marker::Model;

/// A byte for each literal, by its number as it is packed: whether it is true. And one more: whether it is false.
#[derive(Drop)]
pub struct Values {
    bytes: Vec<bool>,
    denials: Vec<bool>,
}

impl Model for Values {
    ghost use Rattle.std.specs.Prelude.{Bool, List};
    ghost use Rattle.sat_propagate.specs.Internal.Trail.{AreDenials};

    ghost Value = { List Bool };

    ghost view = { λ values. values.bytes.items };

    ghost invariant = { λ values. AreDenials values.denials.items values.bytes.items };
}

impl Values {
    pub fn new(alloc: Global) -> Self
        ensures { result ≡ [] }
    {
        Values {
            bytes: Vec::new(alloc),
            denials: Vec::new(alloc),
        }
    }

    /// One variable more, none of whose literals is true.
    pub fn add_variable(&mut self) -> Result<(), AllocError>
        ensures ok { OnOk result ((l : SatLit) → is_true_by self.new l ≡ is_true_by self.old l) }
        ensures longer { OnOk result (length self.new ≡ length self.old + 2) }
        ensures err { OnErr result (self.new ≡ self.old) }
    {
        self.bytes.reserve(2)?;
        self.denials.reserve(2)?;
        self.denials.push_reserved(false);
        self.denials.push_reserved(false);
        self.bytes.push_reserved(false);
        self.bytes.push_reserved(false);
        Ok(())
    }

    /// Whether a literal is true.
    pub fn get(&self, literal: Packed) -> bool
        ensures { result ≡ is_true_by self.now literal }
    {
        match self.bytes.get(literal.number()) {
            Some(value) => *value,
            None => false,
        }
    }

    /// Whether a literal is false.
    pub fn denies(&self, literal: Packed) -> bool
        ensures { result ≡ is_true_by self.now (negated literal) }
    {
        match self.denials.get(literal.number()) {
            Some(value) => *value,
            None => false,
        }
    }

    /// Makes a literal true or not true.
    pub fn set(&mut self, literal: SatLit, value: bool)
        requires { literal.var.0 * 2 + 1 < length self.old }
        ensures { SetsValue self.old self.new literal value }
    {
        let _made = self.bytes.len();
        let at = number_of(literal);
        let opposite = number_of(literal.negated());
        self.bytes[at] = value;
        self.denials[opposite] = value;
    }
}
