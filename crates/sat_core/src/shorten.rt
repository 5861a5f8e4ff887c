//! What is learned from a conflict, without the literals that its others make false.
ghost use Rattle.std.specs.Prelude.{◌≡◌, ◌<◌, ◌≤◌, length, IfOk, OnOk};
ghost use Rattle.sat_propagate.specs.Internal.Propagator.{IsPropagator, IsConflict};
ghost use Rattle.sat_core.specs.Internal.Learned.{Learns, IsShortening};

use crate::analysis::{mark_others, name_of, note_used, point_chain};
use crate::marks::Marks;
use crate::spares::Spares;
use sat_log::{Chain, ChainStep, Premise};
use sat_propagate::Propagator;
use std::alloc::{AllocError, Global};

/// The chain of what is learned where a clause is false and there is a decision: the clause of the first unique
/// implication point, without the literals that follow from its others. The clauses that it took are listed.
pub fn learned_chain(
    alloc: Global,
    propagator: &Propagator,
    names: &[Premise],
    marks: &mut Marks,
    spares: &mut Spares,
    used: &mut Vec<usize>,
    conflict: usize,
) -> Result<Chain, AllocError>
    requires right { IsPropagator propagator.now.trail propagator.now.processed propagator.now.clauses.items propagator.now.lists }
    requires conflict { IsConflict propagator.now.trail propagator.now.clauses.items conflict }
    requires decided { 0 < length propagator.now.trail.starts }
    requires named { length names.now ≡ length propagator.now.clauses.items }
    requires made { length propagator.now.trail.phases ≤ length marks.old.marked }
    ensures learned { IfOk result (λ chain. Learns propagator.now.clauses.items propagator.now.trail names.now chain) }
    ensures made { length marks.new.marked ≡ length marks.old.marked }
{
    let trail = &propagator.trail;
    let start = trail.start(trail.levels() - 1);
    used.clear();
    let mut chain = point_chain(alloc, propagator, names, marks, used, conflict, start)?;
    marks.note_met();
    spares.find(propagator, marks, start)?;
    let places = spares.places();
    for i in (0..places.len()).rev() {
        shorten(propagator, names, marks, used, &mut chain, places[i], start)?;
    }
    Ok(chain)
}

/// Resolves the literal at a place away, where it is before the last decision and has a reason.
fn shorten(
    propagator: &Propagator,
    names: &[Premise],
    marks: &mut Marks,
    used: &mut Vec<usize>,
    chain: &mut Chain,
    place: usize,
    start: usize,
) -> Result<(), AllocError>
    requires right { IsPropagator propagator.now.trail propagator.now.processed propagator.now.clauses.items propagator.now.lists }
    requires named { length names.now ≡ length propagator.now.clauses.items }
    requires shortening { IsShortening propagator.now.clauses.items propagator.now.trail names.now marks.old.marked start chain.old }
    requires made { length propagator.now.trail.phases ≤ length marks.old.marked }
    ensures shortening { OnOk result (IsShortening propagator.now.clauses.items propagator.now.trail names.now marks.new.marked start
        chain.new) }
    ensures made { length marks.new.marked ≡ length marks.old.marked }
{
    let trail = &propagator.trail;
    if start <= place || trail.len() <= place {
        return Ok(());
    }
    let step = trail.step(place);
    let Some(reason) = step.reason else {
        return Ok(());
    };
    if marks.contains(step.literal.var) {
        note_used(used, reason)?;
        let literals = propagator.literals(reason);
        marks.unmark(step.literal.var);
        let _late = mark_others(trail, marks, literals, Some(step.literal), 0)?;
        chain.steps.push(ChainStep {
            var: step.literal.var,
            premise: name_of(names, reason),
        })?;
    }
    Ok(())
}
