//! What a bank tells of its terms. None of it takes memory.

ghost use Rattle.std.specs.Prelude.{◌≡◌, ℕ, ◌<◌, ◌≤◌, [], length, Some, IsTrue, ◌↔◌, IfSome};
ghost use Rattle.stt_core.specs.Lambda.{witness};
ghost use Rattle.stt_core.specs.Occurrence.{IsClosed, IsFree, Occurs};
ghost use Rattle.stt_core.specs.Depth.{depth};
ghost use Rattle.term_bank.specs.Terms.{term_at};

use crate::bank::Bank;
use crate::node::Id;

impl Bank {
    /// Whether the two terms are the same.
    pub fn same(&self, a: Id, b: Id) -> bool
        requires a_within { a < length self.now.terms }
        requires b_within { b < length self.now.terms }
        ensures { IsTrue result ↔ (term_at self.now.terms a ≡ term_at self.now.terms b) }
    {
        self.terms_differ();
        a == b
    }

    /// The greatest witness that occurs in the term, or none where no witness does.
    pub fn max_witness(&self, id: Id) -> Option<u32>
        requires { id < length self.now.terms }
        ensures occurs { IfSome result (λ w. Occurs (witness w) (term_at self.now.terms id)) }
        ensures greatest { (w : ℕ) → Occurs (witness w) (term_at self.now.terms id) → (m : ℕ) × (result ≡ Some m) × (w ≤ m) }
    {
        self.marks(id).greatest
    }

    /// How deep the term nests.
    pub fn depth(&self, id: Id) -> usize
        requires { id < length self.now.terms }
        ensures { result ≡ depth (term_at self.now.terms id) }
    {
        self.marks(id).depth as usize
    }

    /// How many binders more would bind every variable of the term.
    pub fn missing(&self, id: Id) -> u64
        requires { id < length self.now.terms }
        ensures bound { (k : ℕ) → IsFree k (term_at self.now.terms id) → k < result }
        ensures least { (n : ℕ) → ((k : ℕ) → IsFree k (term_at self.now.terms id) → k < n) → result ≤ n }
    {
        u64::from(self.marks(id).missing)
    }

    /// Whether no bound variable is free in the term.
    pub fn is_closed(&self, id: Id) -> bool
        requires { id < length self.now.terms }
        ensures { IsTrue result ↔ IsClosed (term_at self.now.terms id) }
    {
        self.marks(id).missing == 0
    }
}
