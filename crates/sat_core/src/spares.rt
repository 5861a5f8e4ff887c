//! Which literals of a clause follow from its others.
ghost use Rattle.std.specs.Prelude.{◌≡◌, ◌≤◌, ◌<◌, ◌∷◌, ◌++◌, ℕ, [], length, IfSome, IfNone, OnOk, IsSorted};
ghost use Rattle.std.specs.List.{Contains};
ghost use Rattle.std.specs.Ordering.{nat_cmp};
ghost use Rattle.sat_base.specs.declared.literal.Var.{Var};
ghost use Rattle.sat_core.specs.Internal.Reasons.{IsReasonOf, IsReasonClause};
ghost use Rattle.sat_core.specs.Internal.Spares.{held, AreJudged, JudgesMet};
ghost use Rattle.sat_core.specs.declared.spares.Visit.{Visit};

use crate::marks::Marks;
use sat_base::Var;
use sat_propagate::{Packed, Propagator};
use std::alloc::{AllocError, Global};

/// What is known of a variable's literal: nothing, that it follows from marked ones, or that it doesn't.
#[derive(Clone, Copy, PartialEq, Eq)]
enum Known {
    Nothing,
    Follows,
    Fails,
}

/// A variable whose reason is read, and how many of the reason's literals were read.
#[derive(Clone, Copy)]
struct Visit {
    var: Var,
    read: usize,
}

/// What the reading of a reason found: that its variable is known now, or another one that has to be known first.
enum Found {
    Known(Known),
    Needed { visit: Visit, var: Var },
}

/// What is known of each variable while a clause is made shorter, and the places of the literals that follow. Its lists
/// are kept from one clause to the next. Nothing rests on what they say.
#[derive(Drop)]
pub struct Spares {
    known: Vec<Known>,
    judged: Vec<Var>,
    visits: Vec<Visit>,
    places: Vec<usize>,
}

impl Spares {
    pub fn new(alloc: Global) -> Self
        ensures known { result.known.items ≡ [] }
        ensures judged { result.judged.items ≡ [] }
        ensures visits { result.visits.items ≡ [] }
        ensures places { result.places.items ≡ [] }
    {
        Spares {
            known: Vec::new(alloc),
            judged: Vec::new(alloc),
            visits: Vec::new(alloc),
            places: Vec::new(alloc),
        }
    }

    /// Finds the literals before a place that follow, step by step, from marked ones before them: those of the marked
    /// variables that were met, and those that these need.
    pub fn find(
        &mut self,
        propagator: &Propagator,
        marks: &Marks,
        start: usize,
    ) -> Result<(), AllocError>
        ensures sorted { OnOk result (IsSorted nat_cmp self.new.places.items) }
        ensures judged { OnOk result (JudgesMet propagator.now.trail marks.now start self.new.judged.items) }
    {
        self.restart(propagator.trail.variables())?;
        for var in marks.met() {
            let is_before = match propagator.trail.find(*var) {
                Some(place) => place < start,
                None => false,
            };
            if is_before && marks.contains(*var) {
                self.judge(propagator, marks, *var)?;
            }
        }
        self.places.sort_unstable();
        Ok(())
    }

    /// The places of the literals that follow, in order.
    pub fn places(&self) -> &[usize]
        ensures { result.now ≡ self.now.places.items }
    {
        self.places.as_slice()
    }

    /// Forgets what is known.
    fn restart(&mut self, variables: usize) -> Result<(), AllocError>
        ensures judged { self.new.judged.items ≡ [] }
        ensures places { self.new.places.items ≡ [] }
        ensures made { OnOk result (variables ≤ length self.new.known.items) }
    {
        for var in self.judged.as_slice() {
            if let Some(slot) = self.known.get_mut(var.0) {
                *slot = Known::Nothing;
            }
        }
        self.judged.clear();
        self.places.clear();
        if self.known.len() < variables {
            self.known.resize(variables, Known::Nothing)?;
        }
        Ok(())
    }

    /// Finds out whether a variable's literal follows, after the others that this needs.
    fn judge(&mut self, propagator: &Propagator, marks: &Marks, var: Var) -> Result<(), AllocError>
        ensures judged { OnOk result (Contains self.new.judged.items var) }
        ensures kept { OnOk result (AreJudged self.old.judged.items self.new.judged.items) }
    {
        self.visits.clear();
        self.visits.push(Visit { var, read: 0 })?;
        for _ in 0..u64::MAX {
            let Some(visit) = self.visits.pop() else {
                break;
            };
            match self.read_on(propagator, marks, visit) {
                Found::Known(Known::Follows) => self.note_follows(propagator, visit.var)?,
                Found::Known(_) => self.note_fails(visit.var)?,
                Found::Needed { visit, var } => {
                    self.visits.push(visit)?;
                    self.visits.push(Visit { var, read: 0 })?;
                }
            }
        }
        self.fail_rest()
    }

    /// Reads a variable's reason up to the first literal that decides what is known of it, or of which nothing is known.
    fn read_on(&self, propagator: &Propagator, marks: &Marks, visit: Visit) -> Found
        ensures same { (needing : Visit) (v : Var) → result ≡ Found.Needed needing v → needing.var ≡ visit.var }
    {
        let Some(reason) = reason_of(propagator, visit.var) else {
            return Found::Known(Known::Fails);
        };
        for i in visit.read..reason.len() {
            let var = reason[i].literal().var;
            if var != visit.var && !marks.contains(var) {
                match self.known(var) {
                    Known::Follows => {}
                    Known::Fails => return Found::Known(Known::Fails),
                    Known::Nothing => {
                        let visit = Visit {
                            var: visit.var,
                            read: i,
                        };
                        return Found::Needed { visit, var };
                    }
                }
            }
        }
        Found::Known(Known::Follows)
    }

    fn known(&self, var: Var) -> Known {
        self.known.get(var.0).copied().unwrap_or(Known::Fails)
    }

    fn note(&mut self, var: Var, known: Known) -> Result<(), AllocError>
        ensures judged { OnOk result (self.new.judged.items ≡ self.old.judged.items ++ var ∷ []) }
        ensures visits { OnOk result (self.new.visits.items ≡ self.old.visits.items) }
    {
        self.judged.push(var)?;
        if let Some(slot) = self.known.get_mut(var.0) {
            *slot = known;
        }
        Ok(())
    }

    fn note_follows(&mut self, propagator: &Propagator, var: Var) -> Result<(), AllocError>
        ensures judged { OnOk result (self.new.judged.items ≡ self.old.judged.items ++ var ∷ []) }
        ensures visits { OnOk result (self.new.visits.items ≡ self.old.visits.items) }
    {
        if let Some(place) = propagator.trail.find(var) {
            self.places.push(place)?;
        }
        self.note(var, Known::Follows)
    }

    /// A variable's literal doesn't follow, nor do those whose reasons need it.
    fn note_fails(&mut self, var: Var) -> Result<(), AllocError>
        ensures { OnOk result (AreJudged (held (self.old.judged.items ++ var ∷ []) self.old.visits.items) self.new.judged.items) }
    {
        self.note(var, Known::Fails)?;
        self.fail_rest()
    }

    /// The literals of the variables whose reasons are read don't follow.
    fn fail_rest(&mut self) -> Result<(), AllocError>
        ensures { OnOk result (AreJudged (held self.old.judged.items self.old.visits.items) self.new.judged.items) }
    {
        while let Some(needing) = self.visits.pop() {
            self.note(needing.var, Known::Fails)?;
        }
        Ok(())
    }
}

/// The literals of the clause that made a variable's literal true, if one did.
fn reason_of(propagator: &Propagator, var: Var) -> Option<&[Packed]>
    ensures some { IfSome result (λ literals. IsReasonClause propagator.now.trail propagator.now.clauses.items var literals.now) }
    ensures none { IfNone result ((n : ℕ) → IsReasonOf propagator.now.trail var n → length propagator.now.clauses.items ≤ n) }
{
    let reason = reason_number(propagator, var)?;
    Some(propagator.literals(reason))
}

/// The number of the clause that made a variable's literal true, if one did.
pub fn reason_number(propagator: &Propagator, var: Var) -> Option<usize>
    ensures within { IfSome result (λ n. n < length propagator.now.clauses.items) }
    ensures some { IfSome result (λ n. IsReasonOf propagator.now.trail var n) }
    ensures only { IfSome result (λ n. (m : ℕ) → IsReasonOf propagator.now.trail var m → m ≡ n) }
    ensures none { IfNone result ((n : ℕ) → IsReasonOf propagator.now.trail var n → length propagator.now.clauses.items ≤ n) }
{
    let place = propagator.trail.find(var)?;
    if place >= propagator.trail.len() {
        return None;
    }
    let reason = propagator.trail.step(place).reason?;
    if reason >= propagator.clauses.len() {
        return None;
    }
    Some(reason)
}
