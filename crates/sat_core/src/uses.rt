//! In which clauses variables occur.
ghost use Rattle.std.specs.Prelude.{◌≡◌, ◌<◌, ◌⊎◌, [], ◌∷◌, ◌++◌, ℕ, length, IfOk, OnOk, OnErr, IfSome, IfNone};
ghost use Rattle.sat_base.specs.declared.literal.Var.{Var};
ghost use Rattle.sat_core.specs.Internal.Uses.{no_use, first_use, followed, IsListed, IsUse};

use sat_base::Var;
use std::alloc::{AllocError, Global};
use std::marker::Model;

/// A clause in which a variable occurs, and the place of the variable's next use.
#[derive(Clone, Copy)]
pub struct Use {
    pub clause: u32,
    pub next: u32,
}

/// The places of a variable's first and last use.
#[derive(Clone, Copy)]
pub struct Ends {
    pub first: u32,
    pub last: u32,
}

// The place of no use.
const NONE: u32 = u32::MAX;

/// For each variable the numbers of the clauses in which it occurs, in order.
#[derive(Drop)]
pub struct Uses {
    uses: Vec<Use>,
    ends: Vec<Ends>,
}

impl Model for Uses {
    ghost use Rattle.sat_core.specs.Internal.Uses.{UseTable, AreLinked};

    ghost Value = { UseTable };

    ghost view = { λ table. record { uses = table.uses.items; ends = table.ends.items } };

    ghost invariant = { λ table. AreLinked table.uses.items table.ends.items };
}

impl Uses {
    pub fn new(alloc: Global) -> Self
        ensures { result ≡ record { uses = []; ends = [] } }
    {
        Uses {
            uses: Vec::new(alloc),
            ends: Vec::new(alloc),
        }
    }

    pub fn add_variable(&mut self) -> Result<(), AllocError>
        ensures ok { OnOk result (self.new ≡ record self.old { ends = self.old.ends ++ record { first = no_use; last = no_use } ∷ [] }) }
        ensures err { OnErr result (self.new ≡ self.old) }
    {
        self.ends.push(Ends {
            first: NONE,
            last: NONE,
        })?;
        Ok(())
    }

    /// The place of a variable's first use.
    pub fn first(&self, var: Var) -> u32
        requires { var.0 < length self.now.ends }
        ensures { result ≡ first_use self.now var }
    {
        self.ends[var.0].first
    }

    /// The use at a place, if there is one.
    pub fn at(&self, place: u32) -> Option<Use>
        ensures each { IfSome result (λ entry. (k : ℕ) → IsListed self.now.uses place k
            → (k ≡ entry.clause) ⊎ IsListed self.now.uses entry.next k) }
        ensures within { IfSome result (λ entry. place < length self.now.uses) }
        ensures onward { IfSome result (λ entry. place < entry.next) }
        ensures none { IfNone result ((k : ℕ) → ¬ IsListed self.now.uses place k) }
    {
        self.uses.get(place as usize).copied()
    }

    /// Enters a clause's number for a variable.
    pub fn push(&mut self, var: Var, number: usize) -> Result<(), AllocError>
        requires { var.0 < length self.old.ends }
        ensures there { OnOk result (IsUse self.new var number) }
        ensures kept { (v : Var) (k : ℕ) → IsUse self.old v k → IsUse self.new v k }
        ensures made { length self.new.ends ≡ length self.old.ends }
    {
        let clause = narrow(number)?;
        let place = narrow(self.uses.len())?;
        self.uses.push(Use { clause, next: NONE })?;
        let ends = self.ends[var.0];
        if ends.last == NONE {
            self.ends[var.0] = Ends {
                first: place,
                last: place,
            };
            return Ok(());
        }
        follow(&mut self.uses, ends.last, place);
        self.ends[var.0] = Ends {
            first: ends.first,
            last: place,
        };
        Ok(())
    }
}

/// Lets the use at a place be followed by another one.
fn follow(uses: &mut Vec<Use>, last: u32, next: u32)
    requires { last < length uses.old.items }
    ensures { uses.new.items ≡ followed uses.old.items last next }
{
    let clause = uses[last as usize].clause;
    uses[last as usize] = Use { clause, next };
}

/// A number in four bytes. There is no room for numbers from 2^32 - 1 on.
fn narrow(n: usize) -> Result<u32, AllocError>
    ensures number { IfOk result (λ m. m ≡ n) }
    ensures below { IfOk result (λ m. m < no_use) }
{
    if n >= NONE as usize {
        return Err(AllocError);
    }
    Ok(n as u32)
}
