//! From a conflict to the chain of a clause.
ghost use Rattle.std.specs.Prelude.{◌≡◌, ◌<◌, ◌≤◌, ◌≢◌, ◌⊎◌, ◌+◌, ◌-◌, ◌&&◌, ◌||◌, ℕ, List, [], ◌∷◌, ◌++◌, not, Some, None, IsTrue, length, drop, slice_get, IfOk, OnOk, OnErr, IfSome, IfNone};
ghost use Rattle.sat_base.specs.declared.literal.Var.{Var};
ghost use Rattle.sat_base.specs.declared.literal.SatLit.{SatLit};
ghost use Rattle.sat_base.specs.Literal.{holds, mentions_variable, same_var, IsOver};
ghost use Rattle.sat_laws.specs.Internal.Analysis.{how_many};
ghost use Rattle.sat_propagate.specs.Internal.Trail.{literals, IsTrail};
ghost use Rattle.sat_propagate.specs.Internal.Propagator.{IsPropagator, IsConflict};
ghost use Rattle.sat_core.specs.Internal.Learned.{IsShortening, AreNamedPremises};
ghost use Rattle.sat_log.specs.Chains.{premise_clause, chain_result};
ghost use Rattle.sat_log.specs.Propagation.{IsFalseIn};
ghost use Rattle.sat_core.specs.Internal.Marks.{is_marked, marks_literal, others};

use crate::marks::Marks;
use sat_base::{SatLit, Var};
use sat_log::{Chain, ChainStep, ChainSteps, Premise};
use sat_propagate::{Packed, Propagator, Step, Trail};
use std::alloc::{AllocError, Global};

/// Marks a variable that has a value. How many more marked ones have a place from `start` on: one or none.
fn mark_one(trail: &Trail, marks: &mut Marks, var: Var, start: usize) -> Result<usize, AllocError>
    requires valued { IsTrue (mentions_variable (literals trail.now.steps) var) }
    requires made { var.0 < length marks.old.marked }
    ensures marks { OnOk result ((v : Var) → is_marked marks.new.marked v ≡ (is_marked marks.old.marked v || same_var v var)) }
    ensures made { length marks.new.marked ≡ length marks.old.marked }
    ensures counted { IfOk result
        (λ late. (late ≤ 1) × (late + how_many (marks_literal marks.old.marked) (drop start (literals trail.now.steps)) ≡ how_many
        (marks_literal marks.new.marked) (drop start (literals trail.now.steps)))) }
{
    if marks.contains(var) {
        return Ok(0);
    }
    marks.mark(var)?;
    if start <= trail.place(var) {
        Ok(1)
    } else {
        Ok(0)
    }
}

/// Marks the variables of a clause's literals other than one, if there is one. How many more marked ones have a place
/// from `start` on.
pub fn mark_others(
    trail: &Trail,
    marks: &mut Marks,
    among: &[Packed],
    own: Option<SatLit>,
    start: usize,
) -> Result<usize, AllocError>
    requires valued { (l : SatLit) → IsTrue (holds among.now l) → IsTrue (mentions_variable (literals trail.now.steps) l.var) }
    requires made { IsOver (length marks.old.marked) among.now }
    ensures marks { OnOk result
        ((v : Var) → is_marked marks.new.marked v ≡ (is_marked marks.old.marked v || mentions_variable (others own among.now) v)) }
    ensures made { length marks.new.marked ≡ length marks.old.marked }
    ensures counted { IfOk result (λ late. late + how_many (marks_literal marks.old.marked) (drop start (literals trail.now.steps))
        ≡ how_many (marks_literal marks.new.marked) (drop start (literals trail.now.steps))) }
{
    let mut late = 0;
    for packed in among {
        let literal = packed.literal();
        if own != Some(literal) {
            late += mark_one(trail, marks, literal.var, start)?;
        }
    }
    Ok(late)
}

/// Marks the variables of some literals, each of which has a value.
fn mark_all(trail: &Trail, marks: &mut Marks, among: &[SatLit]) -> Result<(), AllocError>
    requires valued { (l : SatLit) → IsTrue (holds among.now l) → IsTrue (mentions_variable (literals trail.now.steps) l.var) }
    requires made { IsOver (length marks.old.marked) among.now }
    ensures marks { OnOk result
        ((v : Var) → is_marked marks.new.marked v ≡ (is_marked marks.old.marked v || mentions_variable (others None among.now) v)) }
    ensures made { length marks.new.marked ≡ length marks.old.marked }
{
    for literal in among {
        let _late = mark_one(trail, marks, literal.var, 0)?;
    }
    Ok(())
}

/// Takes the mark of a literal's variable away and marks those of the others of the clause that made it true. How many
/// marked variables have a place from `start` on then.
fn resolve_marks(
    trail: &Trail,
    marks: &mut Marks,
    reason: &[Packed],
    own: SatLit,
    start: usize,
    late: usize,
) -> Result<usize, AllocError>
    requires valued { (l : SatLit) → IsTrue (holds reason.now l) → IsTrue (mentions_variable (literals trail.now.steps) l.var) }
    requires made { IsOver (length marks.old.marked) reason.now }
    requires own_made { own.var.0 < length marks.old.marked }
    requires own_marked { IsTrue (is_marked marks.old.marked own.var) }
    requires own_late { IsTrue (holds (drop start (literals trail.now.steps)) own) }
    requires counted { late ≡ how_many (marks_literal marks.old.marked) (drop start (literals trail.now.steps)) }
    ensures marks { OnOk result
        ((v : Var) → is_marked marks.new.marked v ≡ ((is_marked marks.old.marked v && not (same_var v own.var)) || mentions_variable
        (others (Some own) reason.now) v)) }
    ensures made { length marks.new.marked ≡ length marks.old.marked }
    ensures counted { IfOk result (λ n. (n ≡ how_many (marks_literal marks.new.marked) (drop start (literals trail.now.steps)))
        × (late ≤ n + 1)) }
{
    let _len = trail.len();
    marks.unmark(own.var);
    let more = mark_others(trail, marks, reason, Some(own), start)?;
    Ok(late - 1 + more)
}

/// The chain of the first unique implication point, where a clause is false and there is a decision: `start` is the
/// place of the last one. The variables of the chain's clause are marked then. The clauses that it took are listed.
pub fn point_chain(
    alloc: Global,
    propagator: &Propagator,
    names: &[Premise],
    marks: &mut Marks,
    used: &mut Vec<usize>,
    conflict: usize,
    start: usize,
) -> Result<Chain, AllocError>
    requires right { IsPropagator propagator.now.trail propagator.now.processed propagator.now.clauses.items propagator.now.lists }
    requires conflict { IsConflict propagator.now.trail propagator.now.clauses.items conflict }
    requires decided { 0 < length propagator.now.trail.starts }
    requires last { slice_get propagator.now.trail.starts (length propagator.now.trail.starts - 1) ≡ Some start }
    requires named { length names.now ≡ length propagator.now.clauses.items }
    requires made { length propagator.now.trail.phases ≤ length marks.old.marked }
    ensures shortening { IfOk result (λ chain. IsShortening propagator.now.clauses.items propagator.now.trail names.now marks.new.marked
        start chain) }
    ensures made { length marks.new.marked ≡ length marks.old.marked }
{
    let trail = &propagator.trail;
    marks.clear()?;
    let mut late = mark_others(trail, marks, propagator.literals(conflict), None, start)?;
    note_used(used, conflict)?;
    let mut steps = ChainSteps::new(alloc);
    for place in (start..trail.len()).rev() {
        let step = trail.step(place);
        if marks.contains(step.literal.var) {
            let Some(reason) = reason_to_resolve(step, late) else {
                let first = name_of(names, conflict);
                return Ok(Chain { first, steps });
            };
            note_used(used, reason)?;
            let literals = propagator.literals(reason);
            late = resolve_marks(trail, marks, literals, step.literal, start, late)?;
            steps.push(ChainStep {
                var: step.literal.var,
                premise: name_of(names, reason),
            })?;
        }
    }
    unreachable!()
}

/// The reason of a step, where it is not the only late one that is marked.
fn reason_to_resolve(step: Step, late: usize) -> Option<usize>
    ensures some { IfSome result (λ n. (step.reason ≡ Some n) × (late ≢ 1)) }
    ensures none { IfNone result ((step.reason ≡ None) ⊎ (late ≡ 1)) }
{
    if late == 1 { None } else { step.reason }
}

/// Lists a clause from which something is learned.
pub fn note_used(used: &mut Vec<usize>, n: usize) -> Result<(), AllocError>
    ensures ok { OnOk result (used.new.items ≡ used.old.items ++ n ∷ []) }
    ensures err { OnErr result (used.new.items ≡ used.old.items) }
{
    used.push(n)?;
    Ok(())
}

/// The name of a clause.
pub fn name_of(names: &[Premise], n: usize) -> Premise
    requires { n < length names.now }
    ensures { slice_get names.now n ≡ Some result }
{
    names[n]
}

/// The chain of the empty clause, where the literals of a clause are false and there is no decision.
pub fn refuted_chain(
    alloc: Global,
    propagator: &Propagator,
    names: &[Premise],
    marks: &mut Marks,
    first: Premise,
    among: &[SatLit],
) -> Result<Chain, AllocError>
    requires right { IsPropagator propagator.now.trail propagator.now.processed propagator.now.clauses.items propagator.now.lists }
    requires falsified { IsFalseIn (literals propagator.now.trail.steps) among.now }
    requires root { propagator.now.trail.starts ≡ [] }
    requires over { IsOver (length propagator.now.trail.phases) among.now }
    requires named { length names.now ≡ length propagator.now.clauses.items }
    requires made { length propagator.now.trail.phases ≤ length marks.old.marked }
    ensures refuted { IfOk result (λ chain. (store results : List (List SatLit))
        → AreNamedPremises store results names.now propagator.now.clauses.items → premise_clause store results first ≡ Some among.now
        → chain_result store results chain ≡ Some []) }
    ensures trail { OnOk result (IsTrail propagator.now.trail) }
    ensures made { length marks.new.marked ≡ length marks.old.marked }
{
    let trail = &propagator.trail;
    marks.clear()?;
    mark_all(trail, marks, among)?;
    let mut steps = ChainSteps::new(alloc);
    for place in (0..trail.len()).rev() {
        let step = trail.step(place);
        if marks.contains(step.literal.var) {
            let Some(reason) = step.reason else {
                unreachable!();
            };
            let literals = propagator.literals(reason);
            marks.unmark(step.literal.var);
            let _more = mark_others(trail, marks, literals, Some(step.literal), 0)?;
            steps.push(ChainStep {
                var: step.literal.var,
                premise: name_of(names, reason),
            })?;
        }
    }
    Ok(Chain { first, steps })
}
