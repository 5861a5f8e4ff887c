//! A number for each literal that has one.
ghost use Rattle.std.specs.Prelude.{◌≡◌, [], ◌<◌, length, Some, None, OnOk, OnErr};

use sat_base::SatLit;
use std::alloc::{AllocError, Global};
use std::marker::Model;

/// The numbers of the two literals on a variable.
#[derive(Clone, Copy)]
pub struct Stamps {
    pub positive: Option<usize>,
    pub negative: Option<usize>,
}

impl Stamps {
    const NONE: Stamps = Stamps {
        positive: None,
        negative: None,
    };
}

/// An entry for each variable up to the greatest one that had a number.
#[derive(Drop)]
pub struct StampTable {
    entries: Vec<Stamps>,
}

impl Model for StampTable {
    ghost use Rattle.std.specs.Prelude.{List};
    ghost use Rattle.sat_log.specs.declared.stamps.Stamps.{Stamps};

    ghost Value = { List Stamps };

    ghost view = { λ table. table.entries.items };
}

impl StampTable {
    ghost use Rattle.sat_log.specs.Internal.Stamps.{stamp_of, Updates};

    pub fn new(alloc: Global) -> Self
        ensures { result ≡ [] }
    {
        StampTable {
            entries: Vec::new(alloc),
        }
    }

    /// The literal's number, if it has one.
    pub fn get(&self, literal: SatLit) -> Option<usize>
        ensures { result ≡ stamp_of self.now literal }
    {
        let stamps = self.entries.get(literal.var.0)?;
        if literal.positive {
            stamps.positive
        } else {
            stamps.negative
        }
    }

    /// Gives the literal a number.
    pub fn set(&mut self, literal: SatLit, stamp: usize) -> Result<(), AllocError>
        ensures ok { OnOk result (Updates self.old self.new literal (Some stamp)) }
        ensures err { OnErr result (self.new ≡ self.old) }
    {
        let len = literal.var.0.checked_add(1).ok_or(AllocError)?;
        if self.entries.len() < len {
            self.entries.resize(len, Stamps::NONE)?;
        }
        self.write(literal, Some(stamp));
        Ok(())
    }

    /// Takes the literal's number away.
    pub fn forget(&mut self, literal: SatLit)
        ensures { Updates self.old self.new literal None }
    {
        if literal.var.0 < self.entries.len() {
            self.write(literal, None);
        }
    }

    fn write(&mut self, literal: SatLit, stamp: Option<usize>)
        requires { literal.var.0 < length self.old }
        ensures { Updates self.old self.new literal stamp }
    {
        let stamps = &mut self.entries[literal.var.0];
        if literal.positive {
            stamps.positive = stamp;
        } else {
            stamps.negative = stamp;
        }
    }
}
