//! Branches as sets of numbers.

ghost use Rattle.std.specs.Prelude.{◌≡◌, ℕ, Bool, false, ◌&&◌, ◌||◌, not, ◌==◌, OnOk, IfOk, IsTrue, ◌↔◌, List, nat_eq};
ghost use Rattle.std.specs.List.{list_all, list_any};
ghost use Rattle.indexmap.specs.IndexSet.{contains};
ghost use Rattle.tableau_calculus.specs.Kinds.{same_sign};
ghost use Rattle.refute_check.specs.Internal.Branches.{branch_has, line_has};

use indexmap::IndexSet;
use std::alloc::{AllocError, Global};

/// The literals of a branch: the numbers of the atoms that stand in it, and of those that stand in it negated.
#[derive(Drop)]
pub(crate) struct Branch {
    positive: IndexSet<usize>,
    negative: IndexSet<usize>,
}

/// The literals of a line's branch, which are only gone over: the numbers of the atoms that stand in it, and of those that stand in it
/// negated.
#[derive(Drop)]
pub(crate) struct LineBranch {
    positive: Vec<u32>,
    negative: Vec<u32>,
}

/// Whether each of the numbers is in one of the two sets.
fn is_among(numbers: &[u32], left: &IndexSet<usize>, right: &IndexSet<usize>) -> bool
    ensures { result ≡ list_all (λ k. contains nat_eq left.now k || contains nat_eq right.now k) numbers.now }
{
    numbers.iter().all(|k| {
        let k = *k as usize;
        left.contains(&k) || right.contains(&k)
    })
}

/// The numbers of the set, with no more room than they need. There is no room for numbers from 2^32 on.
fn listed(alloc: Global, set: &IndexSet<usize>) -> Result<Vec<u32>, AllocError>
    ensures { IfOk result (λ numbers. numbers.items ≡ set.now.keys) }
{
    let keys = set.as_slice();
    let mut numbers = Vec::with_capacity(alloc, keys.len())?;
    for key in keys {
        match u32::try_from(*key) {
            Ok(number) => numbers.push(number)?,
            Err(_) => return Err(AllocError),
        }
    }
    Ok(numbers)
}

/// Whether the two sets have a number in common.
fn meet(few: &IndexSet<usize>, many: &IndexSet<usize>) -> bool
    ensures { result ≡ list_any (contains nat_eq many.now) few.now.keys }
{
    few.iter().any(|k| many.contains(k))
}

impl Branch {
    pub(crate) fn new(alloc: Global) -> Self
        ensures { (sign : Bool) (k : ℕ) → branch_has result sign k ≡ false }
    {
        Branch {
            positive: IndexSet::new(alloc),
            negative: IndexSet::new(alloc),
        }
    }

    /// Adds the literal of this sign whose atom has this number.
    pub(crate) fn insert(&mut self, positive: bool, number: usize) -> Result<(), AllocError>
        ensures { OnOk result ((sign : Bool) (k : ℕ) → branch_has self.new sign k
            ≡ (branch_has self.old sign k || (same_sign positive sign && number == k))) }
    {
        if positive {
            self.positive.insert(number)?;
        } else {
            self.negative.insert(number)?;
        }
        Ok(())
    }

    /// The same literals in lists.
    #[tactic(auto, using(crate::proofs::SetLaws::listed_has))]
    pub(crate) fn listed(&self, alloc: Global) -> Result<LineBranch, AllocError>
        ensures { IfOk result (λ line. (sign : Bool) (k : ℕ) → line_has line sign k ≡ branch_has self.now sign k) }
    {
        Ok(LineBranch {
            positive: listed(alloc, &self.positive)?,
            negative: listed(alloc, &self.negative)?,
        })
    }

    /// Whether a literal's negation is in the other branch. It takes the time of this one's literals.
    pub(crate) fn clashes(&self, other: &Branch) -> bool
        ensures { IsTrue result ↔ ((k : ℕ) × (sign : Bool) × IsTrue (branch_has self.now sign k)
            × IsTrue (branch_has other.now (not sign) k)) }
    {
        meet(&self.positive, &other.negative) || meet(&self.negative, &other.positive)
    }
}

impl LineBranch {
    /// Whether each literal is in one of the two branches.
    pub(crate) fn is_within(&self, left: &Branch, right: &Branch) -> bool
        ensures { IsTrue result ↔ ((sign : Bool) (k : ℕ) → IsTrue (line_has self.now sign k)
            → IsTrue (branch_has left.now sign k || branch_has right.now sign k)) }
    {
        is_among(&self.positive, &left.positive, &right.positive)
            && is_among(&self.negative, &left.negative, &right.negative)
    }
}
