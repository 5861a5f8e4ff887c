//! Lists of partners.
ghost use Rattle.std.specs.Prelude.{◌≡◌, ◌<◌, Some, [], length, IfOk, slice_get};

use sat_base::SatLit;
use std::alloc::{AllocError, Global};
use std::marker::Model;

/// The partners of a literal, in the order in which they were noted.
#[derive(Drop)]
pub struct Partners {
    items: Vec<SatLit>,
}

impl Model for Partners {
    ghost use Rattle.std.specs.Prelude.{List};
    ghost use Rattle.sat_base.specs.declared.literal.SatLit.{SatLit};

    ghost Value = { List SatLit };

    ghost view = { λ list. list.items.items };
}

impl Partners {
    pub(crate) fn new(alloc: Global) -> Partners
        ensures { result ≡ [] }
    {
        Partners {
            items: Vec::new(alloc),
        }
    }

    /// The list of these literals.
    pub(crate) fn from_slice(alloc: Global, lits: &[SatLit]) -> Result<Partners, AllocError>
        ensures { IfOk result (λ list. list ≡ lits.now) }
    {
        let mut items = Vec::with_capacity(alloc, lits.len())?;
        items.extend_from_slice(lits)?;
        Ok(Partners { items })
    }

    pub fn len(&self) -> usize
        ensures { result ≡ length self.now }
    {
        self.items.len()
    }

    pub fn as_slice(&self) -> &[SatLit]
        ensures { result.now ≡ self.now }
    {
        self.items.as_slice()
    }

    /// The partner at a place of the list.
    pub fn at(&self, i: usize) -> SatLit
        requires { i < length self.now }
        ensures { slice_get self.now i ≡ Some result }
    {
        self.items[i]
    }
}
