//! The order in which variables are proposed for decisions.
ghost use Rattle.std.specs.Prelude.{◌≡◌, ◌+◌, ◌<◌, [], ◌∷◌, ◌++◌, ◌≢◌, Some, None, List, false, length, slice_set, slice_index_or, IfSome, IfNone, OnOk, OnErr, vec_len, vec_capacity};
ghost use Rattle.sat_base.specs.declared.literal.Var.{Var};
ghost use Rattle.sat_propagate.specs.Internal.Decider.{wished_signs, wished, scores, heap_place, with_gain, with_gains, scaled_down, scores_before, next_gain, IsOpenVariable};

use crate::trail::Trail;
use sat_base::Var;
use std::alloc::{AllocError, Global};

/// A variable's score, its place in the heap if it is there, and the value that it is given where it is decided.
#[derive(Clone, Copy)]
struct Standing {
    score: u64,
    place: Option<usize>,
    sign: bool,
}

/// Proposes variables, those that took part in recent conflicts first, and of two with equal scores the newer one. The
/// heap has variables that may be open: none comes before the one above it. Nothing rests on what is proposed.
#[derive(Drop)]
pub struct Decider {
    heap: Vec<Var>,
    standings: Vec<Standing>,
    gain: u64,
}

// What a variable gains by the first conflict, and how great a gain may become.
const FIRST_GAIN: u64 = 1 << 16;

const MOST_GAIN: u64 = 1 << 56;

// A gain is greater than that of the conflict before by this part of it.
const GROWTH: u64 = 20;

// No heap is higher.
const HEIGHT: usize = 64;

impl Decider {
    pub fn new(alloc: Global) -> Self
        ensures heap { result.heap.items ≡ [] }
        ensures standings { result.standings.items ≡ [] }
        ensures gain { result.gain ≡ 65536 }
    {
        Decider {
            heap: Vec::new(alloc),
            standings: Vec::new(alloc),
            gain: FIRST_GAIN,
        }
    }

    pub fn add_variable(&mut self) -> Result<(), AllocError>
        ensures gain { self.new.gain ≡ self.old.gain }
        ensures ok { OnOk result (wished_signs self.new.standings.items ≡ wished_signs self.old.standings.items ++ false ∷ []) }
        ensures scores { OnOk result (scores self.new.standings.items ≡ scores self.old.standings.items ++ 0 ∷ []) }
        ensures err { OnErr result (self.new.standings.items ≡ self.old.standings.items) }
    {
        let var = Var(self.standings.len());
        self.standings.push(Standing {
            score: 0,
            place: None,
            sign: false,
        })?;
        self.propose(var);
        Ok(())
    }

    /// A conflict was met in which these variables took part. Later ones count more.
    pub fn advance(&mut self, variables: &[Var])
        ensures gain { self.new.gain ≡ next_gain self.old.gain }
        ensures signs { wished_signs self.new.standings.items ≡ wished_signs self.old.standings.items }
        ensures scores { scores self.new.standings.items
            ≡ with_gains (scores_before self.old.gain (scores self.old.standings.items)) variables.now (next_gain self.old.gain) }
    {
        self.gain = self.gain.saturating_add(self.gain / GROWTH);
        if self.gain > MOST_GAIN {
            self.rescale();
        }
        for var in variables {
            self.bump(*var);
        }
    }

    fn bump(&mut self, var: Var)
        ensures gain { self.new.gain ≡ self.old.gain }
        ensures signs { wished_signs self.new.standings.items ≡ wished_signs self.old.standings.items }
        ensures scores { scores self.new.standings.items ≡ with_gain (scores self.old.standings.items) var self.old.gain }
    {
        let gain = self.gain;
        if var.0 < self.standings.len() {
            let standing = &mut self.standings[var.0];
            standing.score = standing.score.saturating_add(gain);
            if let Some(place) = standing.place {
                self.rise(var, place);
            }
        }
    }

    fn rescale(&mut self)
        ensures gain { self.new.gain ≡ 65536 }
        ensures signs { wished_signs self.new.standings.items ≡ wished_signs self.old.standings.items }
        ensures scores { scores self.new.standings.items ≡ scaled_down (scores self.old.standings.items) }
    {
        self.gain = FIRST_GAIN;
        for v in 0..self.standings.len() {
            let standing = &mut self.standings[v];
            standing.score /= MOST_GAIN / FIRST_GAIN;
        }
        for place in (0..self.heap.len()).rev() {
            if let Some(var) = self.heap.get(place).copied() {
                self.sink(var, place);
            }
        }
    }

    /// A variable is open again. Where there is no memory it is not proposed.
    pub fn propose(&mut self, var: Var)
        ensures kept { heap_place self.old.standings.items var ≢ None → self.new ≡ self.old }
        ensures longer { heap_place self.old.standings.items var ≡ None → vec_len self.old.heap < vec_capacity self.old.heap
            → length self.new.heap.items ≡ length self.old.heap.items + 1 }
        ensures gain { self.new.gain ≡ self.old.gain }
        ensures signs { wished_signs self.new.standings.items ≡ wished_signs self.old.standings.items }
        ensures scores { scores self.new.standings.items ≡ scores self.old.standings.items }
    {
        if self.place(var).is_some() {
            return;
        }
        let place = self.heap.len();
        if self.heap.push(var).is_ok() {
            self.rise(var, place);
        }
    }

    /// The next proposal of a variable without a value.
    pub fn next(&mut self, trail: &Trail) -> Option<Var>
        ensures open { IfSome result (λ v. IsOpenVariable trail.now v) }
        ensures first { (v : Var) (rest : List Var) → self.old.heap.items ≡ v ∷ rest → IsOpenVariable trail.now v → result ≡ Some v }
        ensures none { IfNone result (self.new.heap.items ≡ []) }
        ensures gain { self.new.gain ≡ self.old.gain }
        ensures signs { wished_signs self.new.standings.items ≡ wished_signs self.old.standings.items }
        ensures scores { scores self.new.standings.items ≡ scores self.old.standings.items }
    {
        for _ in 0..self.heap.len() {
            let var = self.pop()?;
            if var.0 < trail.variables() && trail.is_open(var) {
                return Some(var);
            }
        }
        None
    }

    /// Takes the first variable out of the heap. The last one is sorted in from its place.
    fn pop(&mut self) -> Option<Var>
        ensures first { (v : Var) (rest : List Var) → self.old.heap.items ≡ v ∷ rest → result ≡ Some v }
        ensures some { IfSome result (λ v. length self.new.heap.items + 1 ≡ length self.old.heap.items) }
        ensures none { IfNone result (self.new.heap.items ≡ []) }
        ensures gain { self.new.gain ≡ self.old.gain }
        ensures signs { wished_signs self.new.standings.items ≡ wished_signs self.old.standings.items }
        ensures scores { scores self.new.standings.items ≡ scores self.old.standings.items }
    {
        let last = self.heap.pop()?;
        let Some(first) = self.heap.first().copied() else {
            self.set_place(last, None);
            return Some(last);
        };
        self.set_place(first, None);
        self.sink(last, 0);
        Some(first)
    }

    /// The value that a variable is given where it is decided.
    pub fn sign(&self, var: Var) -> bool
        ensures { result ≡ slice_index_or (wished_signs self.now.standings.items) var.0 false }
    {
        match self.standings.get(var.0) {
            Some(standing) => standing.sign,
            None => false,
        }
    }

    pub fn wish(&mut self, var: Var, sign: bool)
        ensures gain { self.new.gain ≡ self.old.gain }
        ensures heap { self.new.heap.items ≡ self.old.heap.items }
        ensures signs { wished_signs self.new.standings.items ≡ slice_set (wished_signs self.old.standings.items) var.0 sign }
        ensures scores { scores self.new.standings.items ≡ scores self.old.standings.items }
    {
        if var.0 < self.standings.len() {
            let standing = &mut self.standings[var.0];
            standing.sign = sign;
        }
    }

    /// Wishes a value for each variable.
    pub fn wish_all(&mut self, signs: &[bool])
        ensures gain { self.new.gain ≡ self.old.gain }
        ensures heap { self.new.heap.items ≡ self.old.heap.items }
        ensures signs { wished_signs self.new.standings.items ≡ wished (wished_signs self.old.standings.items) signs.now }
        ensures scores { scores self.new.standings.items ≡ scores self.old.standings.items }
    {
        for v in 0..signs.len() {
            self.wish(Var(v), signs[v]);
        }
    }

    fn place(&self, var: Var) -> Option<usize>
        ensures { result ≡ heap_place self.now.standings.items var }
    {
        self.standings.get(var.0)?.place
    }

    fn set_place(&mut self, var: Var, place: Option<usize>)
        ensures gain { self.new.gain ≡ self.old.gain }
        ensures heap { self.new.heap.items ≡ self.old.heap.items }
        ensures signs { wished_signs self.new.standings.items ≡ wished_signs self.old.standings.items }
        ensures scores { scores self.new.standings.items ≡ scores self.old.standings.items }
    {
        if var.0 < self.standings.len() {
            let standing = &mut self.standings[var.0];
            standing.place = place;
        }
    }

    fn put(&mut self, var: Var, place: usize)
        ensures length { length self.new.heap.items ≡ length self.old.heap.items }
        ensures gain { self.new.gain ≡ self.old.gain }
        ensures signs { wished_signs self.new.standings.items ≡ wished_signs self.old.standings.items }
        ensures scores { scores self.new.standings.items ≡ scores self.old.standings.items }
    {
        if place < self.heap.len() {
            self.heap[place] = var;
        }
        self.set_place(var, Some(place));
    }

    fn score(&self, var: Var) -> u64 {
        match self.standings.get(var.0) {
            Some(standing) => standing.score,
            None => 0,
        }
    }

    fn is_before(&self, var: Var, other: Var) -> bool {
        let score = self.score(var);
        let others = self.score(other);
        score > others || score == others && var.0 > other.0
    }

    /// Puts a variable at a place of the heap or above, those that it comes before below it.
    fn rise(&mut self, var: Var, place: usize)
        ensures length { length self.new.heap.items ≡ length self.old.heap.items }
        ensures gain { self.new.gain ≡ self.old.gain }
        ensures signs { wished_signs self.new.standings.items ≡ wished_signs self.old.standings.items }
        ensures scores { scores self.new.standings.items ≡ scores self.old.standings.items }
    {
        let mut at = place;
        for _ in 0..HEIGHT {
            let Some(before) = at.checked_sub(1) else {
                break;
            };
            let upper = before / 2;
            let Some(above) = self.heap.get(upper).copied() else {
                break;
            };
            if !self.is_before(var, above) {
                break;
            }
            self.put(above, at);
            at = upper;
        }
        self.put(var, at);
    }

    /// Puts a variable at a place of the heap or below, those that come before it above it.
    fn sink(&mut self, var: Var, place: usize)
        ensures length { length self.new.heap.items ≡ length self.old.heap.items }
        ensures gain { self.new.gain ≡ self.old.gain }
        ensures signs { wished_signs self.new.standings.items ≡ wished_signs self.old.standings.items }
        ensures scores { scores self.new.standings.items ≡ scores self.old.standings.items }
    {
        let mut at = place;
        for _ in 0..HEIGHT {
            let Some(lower) = self.lower(at) else {
                break;
            };
            let Some(below) = self.heap.get(lower).copied() else {
                break;
            };
            if !self.is_before(below, var) {
                break;
            }
            self.put(below, at);
            at = lower;
        }
        self.put(var, at);
    }

    /// Of the two places below a place that of the variable which comes first.
    fn lower(&self, at: usize) -> Option<usize> {
        let left = at.checked_mul(2)?.checked_add(1)?;
        let right = left.checked_add(1)?;
        match (self.heap.get(left), self.heap.get(right)) {
            (Some(a), Some(b)) if self.is_before(*b, *a) => Some(right),
            _ => Some(left),
        }
    }
}
