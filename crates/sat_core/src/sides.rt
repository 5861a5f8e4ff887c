//! Which variables are proposed sooner after a conflict.
ghost use Rattle.std.specs.Prelude.{◌≡◌, ◌≢◌, ◌<◌, ◌≤◌, ℕ, [], false, Some, IsTrue, length, slice_get, IfSome, IfNone, OnOk};
ghost use Rattle.sat_base.specs.declared.literal.Var.{Var};
ghost use Rattle.sat_core.specs.Internal.Marks.{is_marked};
ghost use Rattle.sat_core.specs.Internal.Reasons.{IsReasonOf, IsAddedPair};
ghost use Rattle.sat_core.specs.Internal.Sides.{found_or, AreNoted, IsPaired, HasPair, NotesMet};

use crate::marks::Marks;
use crate::spares::reason_number;
use sat_base::Var;
use sat_log::Premise;
use sat_propagate::Propagator;
use std::alloc::{AllocError, Global};

/// The variables that took part in a conflict: those that were met, and for each literal that was learned the other variable of the clause
/// that made it false, where that is an added one of two literals. None are found where there is no such clause. The lists are kept from
/// one conflict to the next. Nothing rests on what is found.
#[derive(Drop)]
pub struct Sides {
    noted: Vec<bool>,
    found: Vec<Var>,
}

impl Sides {
    pub fn new(alloc: Global) -> Self
        ensures noted { result.noted.items ≡ [] }
        ensures found { result.found.items ≡ [] }
    {
        Sides {
            noted: Vec::new(alloc),
            found: Vec::new(alloc),
        }
    }

    /// The variables that were found, each once, or the ones that were met where there are no others.
    pub fn found_or<'a>(&'a self, met: &'a [Var]) -> &'a [Var]
        ensures { result.now ≡ found_or self.now.found.items met.now }
    {
        if self.found.is_empty() {
            met
        } else {
            self.found.as_slice()
        }
    }

    /// Finds the variables that were met, and the other ones of the pairs that made what was learned false, if there is such a pair. The
    /// marked ones are those of what was learned.
    pub fn find(
        &mut self,
        propagator: &Propagator,
        names: &[Premise],
        marks: &Marks,
    ) -> Result<(), AllocError>
        ensures none { ((v : Var) → ¬ HasPair propagator.now names.now marks.now v) → self.new.found.items ≡ [] }
        ensures noted { OnOk result (NotesMet propagator.now names.now marks.now self.new.noted.items) }
    {
        self.restart(propagator.trail.variables())?;
        for var in marks.met() {
            if is_paired(propagator, names, marks, *var) {
                return self.find_all(propagator, names, marks);
            }
        }
        Ok(())
    }

    fn find_all(
        &mut self,
        propagator: &Propagator,
        names: &[Premise],
        marks: &Marks,
    ) -> Result<(), AllocError>
        ensures { OnOk result (AreNoted (length self.old.noted.items) marks.now self.new.noted.items) }
    {
        for var in marks.met() {
            self.note(*var)?;
        }
        for var in marks.met() {
            if marks.contains(*var) {
                self.note_pair(propagator, names, *var)?;
            }
        }
        Ok(())
    }

    /// Forgets what was found.
    fn restart(&mut self, variables: usize) -> Result<(), AllocError>
        ensures found { self.new.found.items ≡ [] }
        ensures made { OnOk result (variables ≤ length self.new.noted.items) }
    {
        for var in self.found.as_slice() {
            if let Some(slot) = self.noted.get_mut(var.0) {
                *slot = false;
            }
        }
        self.found.clear();
        if self.noted.len() < variables {
            self.noted.resize(variables, false)?;
        }
        Ok(())
    }

    /// Notes the variables of the pair that made a variable's literal true, if one did.
    fn note_pair(
        &mut self,
        propagator: &Propagator,
        names: &[Premise],
        var: Var,
    ) -> Result<(), AllocError>
        ensures kept { (v : Var) → IsTrue (is_marked self.old.noted.items v) → IsTrue (is_marked self.new.noted.items v) }
        ensures made { length self.new.noted.items ≡ length self.old.noted.items }
    {
        let Some(pair) = pair_of(propagator, names, var) else {
            return Ok(());
        };
        for literal in propagator.literals(pair) {
            self.note(literal.literal().var)?;
        }
        Ok(())
    }

    fn note(&mut self, var: Var) -> Result<(), AllocError>
        ensures noted { var.0 < length self.old.noted.items → IsTrue (is_marked self.new.noted.items var) }
        ensures kept { (v : Var) → IsTrue (is_marked self.old.noted.items v) → IsTrue (is_marked self.new.noted.items v) }
        ensures made { length self.new.noted.items ≡ length self.old.noted.items }
    {
        let Some(slot) = self.noted.get_mut(var.0) else {
            return Ok(());
        };
        if !*slot {
            *slot = true;
            self.found.push(var)?;
        }
        Ok(())
    }
}

/// Whether a variable is marked, and an added clause of two literals made its literal true.
fn is_paired(propagator: &Propagator, names: &[Premise], marks: &Marks, var: Var) -> bool
    ensures yes { IsTrue result → IsPaired propagator.now names.now marks.now var }
    ensures no { result ≡ false → ¬ IsPaired propagator.now names.now marks.now var }
{
    marks.contains(var) && pair_of(propagator, names, var).is_some()
}

/// The number of the clause that made a variable's literal true, where it is an added one of two literals.
fn pair_of(propagator: &Propagator, names: &[Premise], var: Var) -> Option<usize>
    ensures within { IfSome result (λ n. n < length propagator.now.clauses.items) }
    ensures some { IfSome result (λ n. IsReasonOf propagator.now.trail var n) }
    ensures pair { IfSome result (λ n. IsAddedPair propagator.now.clauses.items names.now n) }
    ensures no { IfNone result ((n : ℕ) → IsReasonOf propagator.now.trail var n → ¬ IsAddedPair propagator.now.clauses.items names.now n) }
{
    let reason = reason_number(propagator, var)?;
    if propagator.literals(reason).len() != 2 || !is_added(names, reason) {
        return None;
    }
    Some(reason)
}

/// Whether a clause of the propagator is one that was added, and not learned.
fn is_added(names: &[Premise], n: usize) -> bool
    ensures yes { IsTrue result → (number : ℕ) × (slice_get names.now n ≡ Some (Premise.Clause number)) }
    ensures no { result ≡ false → (number : ℕ) → slice_get names.now n ≢ Some (Premise.Clause number) }
{
    match names.get(n) {
        Some(Premise::Clause(_)) => true,
        _ => false,
    }
}
