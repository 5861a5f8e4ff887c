//! Numbers by base types.
ghost use Rattle.std.specs.Prelude.{◌≡◌, ◌<◌, ◌++◌, [], ◌∷◌, length, map, nat_eq, if◌then◌else◌, OnOk};
ghost use Rattle.stt_core.specs.SimpleType.{base};
ghost use Rattle.instantiate.specs.Listing.{ids_of};
ghost use Rattle.prover_state.specs.Internal.ByBase.{listings};

use crate::fitting::small;
use std::alloc::{AllocError, Global};
use std::marker::Model;

/// Lists of numbers, one for each base type. Contracts see the numbers with their base types.
#[derive(Drop)]
pub struct ByBase {
    lists: Vec<Vec<u32>>,
    alloc: Global,
}

impl Model for ByBase {
    ghost use Rattle.std.specs.Prelude.{List, map};
    ghost use Rattle.std.specs.Coded.{coded_list, coded×, coded_ℕ};
    ghost use Rattle.stt_core.specs.Internal.TypeCode.{type_code};
    ghost use Rattle.instantiate.specs.Listing.{Listing};
    ghost use Rattle.prover_state.specs.Internal.ByBase.{listings};

    ghost Value = { List Listing };

    ghost coded = { coded_list (coded× type_code coded_ℕ) };

    ghost view = { λ b. listings 0 (map (λ v. v.items) b.lists.items) };
}

/// Appends empty lists up to the one of a base type.
fn reach(alloc: Global, lists: &mut Vec<Vec<u32>>, n: u32) -> Result<(), AllocError>
    ensures same { OnOk result (listings 0 (map (λ v. v.items) lists.new.items) ≡ listings 0 (map (λ v. v.items) lists.old.items)) }
    ensures there { OnOk result (n < length lists.new.items) }
{
    for _ in lists.len()..n as usize + 1 {
        lists.push(Vec::new(alloc))?;
    }
    Ok(())
}

impl ByBase {
    pub(crate) fn new(alloc: Global) -> ByBase
        ensures { result ≡ [] }
    {
        ByBase {
            lists: Vec::new(alloc),
            alloc,
        }
    }

    /// The numbers under a base type, in the order in which they came.
    pub fn under(&self, n: u32) -> &[u32]
        ensures { result.now ≡ ids_of (base n) self.now }
    {
        match self.lists.get(n as usize) {
            Some(list) => list.as_slice(),
            None => &[],
        }
    }

    /// Appends a number under a base type.
    pub fn push(&mut self, n: u32, k: usize) -> Result<(), AllocError>
        ensures { OnOk result
            ((m : _) → ids_of (base m) self.new ≡ (if nat_eq n m then ids_of (base m) self.old ++ k ∷ [] else ids_of (base m) self.old)) }
    {
        reach(self.alloc, &mut self.lists, n)?;
        let number = small(k)?;
        self.lists[n as usize].push(number)?;
        Ok(())
    }
}
