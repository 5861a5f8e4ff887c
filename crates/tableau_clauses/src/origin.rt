//! Where clauses come from.
ghost use Rattle.std.specs.Prelude.{◌≡◌, IfOk};

use std::alloc::AllocError;
use std::marker::Model;

/// Where a clause comes from: a literal of the start, or the instance with this number.
#[derive(Clone, Copy, PartialEq, Eq)]
pub enum Origin {
    Start,
    Instance(usize),
}

/// An origin in four bytes: no number for the start, and one more than that of an instance.
#[derive(Drop)]
pub(crate) struct PackedOrigin {
    code: u32,
}

impl Model for PackedOrigin {
    ghost use Rattle.tableau_clauses.specs.declared.origin.Origin.{Origin};
    ghost use Rattle.tableau_clauses.specs.Internal.Origins.{origin_by};

    ghost Value = { Origin };

    ghost view = { λ o. origin_by o.code };
}

impl PackedOrigin {
    /// The origin in four bytes. There is no room for instances from 2^32 - 1 on.
    pub(crate) fn of(origin: Origin) -> Result<PackedOrigin, AllocError>
        ensures { IfOk result (λ packed. packed ≡ origin) }
    {
        match origin {
            Origin::Start => Ok(PackedOrigin { code: 0 }),
            Origin::Instance(k) => {
                if k >= u32::MAX as usize {
                    return Err(AllocError);
                }
                Ok(PackedOrigin { code: k as u32 + 1 })
            }
        }
    }

    /// The origin.
    pub(crate) fn origin(&self) -> Origin
        ensures { result ≡ self.now }
    {
        if self.code == 0 {
            Origin::Start
        } else {
            Origin::Instance(self.code as usize - 1)
        }
    }
}
