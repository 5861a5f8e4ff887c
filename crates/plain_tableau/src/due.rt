//! The places of the instances that are due.
ghost use Rattle.std.specs.Prelude.{◌≡◌, ◌<◌, ℕ, true, false, nat_eq, if◌then◌else◌, IfSome, IfNone, OnOk};
ghost use Rattle.plain_tableau.specs.Internal.Due.{is_due_place};

use std::alloc::{AllocError, Global};
use std::collections::BTreeSet;

/// Places in a list, the least of which is at hand.
#[derive(Drop)]
pub(crate) struct Due {
    places: BTreeSet<usize>,
}

impl Due {
    /// No place.
    pub(crate) fn new(alloc: Global) -> Due
        ensures { (u : ℕ) → is_due_place result u ≡ false }
    {
        Due {
            places: BTreeSet::new(alloc),
        }
    }

    /// Puts a place in or takes it out.
    pub(crate) fn set(&mut self, place: usize, is_due: bool) -> Result<(), AllocError>
        ensures { OnOk result ((u : ℕ) → is_due_place self.new u ≡ (if nat_eq place u then is_due else is_due_place self.old u)) }
    {
        if is_due {
            self.places.insert(place)?;
        } else {
            self.places.remove(&place);
        }
        Ok(())
    }

    /// The least place.
    pub(crate) fn first(&self) -> Option<usize>
        ensures there { IfSome result (λ u. is_due_place self.now u ≡ true) }
        ensures least { IfSome result (λ u. (v : ℕ) → v < u → is_due_place self.now v ≡ false) }
        ensures none { IfNone result ((v : ℕ) → is_due_place self.now v ≡ false) }
    {
        match self.places.first() {
            Some(place) => Some(*place),
            None => None,
        }
    }
}
