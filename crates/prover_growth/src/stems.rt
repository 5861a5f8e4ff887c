//! Partial terms, made again from what they grew from.
ghost use Rattle.std.specs.Prelude.{◌≡◌, ◌<◌, Some, length, slice_get, IfOk};
ghost use Rattle.stt_core.specs.View.{the_type};
ghost use Rattle.command_queue.specs.Queue.{Queue};
ghost use Rattle.instantiate.specs.Growing.{TakesHead};
ghost use Rattle.search_spec.specs.Commands.{growth_by};
ghost use Rattle.prover_state.specs.declared.command.Planned.{Planned};
ghost use Rattle.prover_state.specs.declared.command.Delays.{Delays};
ghost use Rattle.prover_state.specs.Internal.Heads.{the_hole_head};
ghost use Rattle.prover_state.specs.Internal.Names.{sketch_at};
ghost use Rattle.prover_state.specs.Internal.Standing.{scope_by, sketches_in, IsRightState};

use crate::taking::taken_type;
use instantiate::Partial;
use prover_state::{HoleHead, Stem, Tables, head_of};
use std::alloc::AllocError;
use stt_core::Ty;

/// What is at a place of a list.
fn stem_at(stems: &[Stem], p: usize) -> &Stem
    requires { p < length stems.now }
    ensures { slice_get stems.now p ≡ Some result.now }
{
    &stems[p]
}

/// The type of a partial term.
pub(crate) fn root_of(tables: &Tables, p: usize) -> &Ty
    requires right { (q : Queue Planned Delays) × IsRightState tables.now q }
    requires number { p < length (sketches_in tables.now) }
    ensures { the_type result.now ≡ (sketch_at (sketches_in tables.now) p).type }
{
    match stem_at(tables.stems.as_slice(), p) {
        Stem::Blank(ty) => ty,
        Stem::Grown { parent, .. } => root_of(tables, *parent as usize),
    }
}

/// The partial term with a head in the first hole of an earlier one, which is given.
fn grown_from(
    tables: &Tables,
    before: Partial,
    parent: usize,
    head: HoleHead,
) -> Result<Partial, AllocError>
    requires right { (q : Queue Planned Delays) × IsRightState tables.now q }
    requires number { parent < length (sketches_in tables.now) }
    requires takes { TakesHead (scope_by tables.now.basis) (sketch_at (sketches_in tables.now) parent).partial (the_hole_head head) }
    requires before { before ≡ (sketch_at (sketches_in tables.now) parent).partial }
    ensures { IfOk result
        (λ partial. partial ≡ (growth_by (scope_by tables.now.basis) (the_hole_head head)
        (sketch_at (sketches_in tables.now) parent)).partial) }
{
    let ty = taken_type(tables, parent, head)?;
    Ok(before.with_head(tables.alloc, &head_of(head), &ty)?)
}

/// The partial term of a number.
pub(crate) fn partial_of(tables: &Tables, p: usize) -> Result<Partial, AllocError>
    requires right { (q : Queue Planned Delays) × IsRightState tables.now q }
    requires number { p < length (sketches_in tables.now) }
    ensures { IfOk result (λ partial. partial ≡ (sketch_at (sketches_in tables.now) p).partial) }
{
    match stem_at(tables.stems.as_slice(), p) {
        Stem::Blank(ty) => Ok(Partial::of_type(tables.alloc, ty)?),
        Stem::Grown { parent, head } => {
            let parent = *parent as usize;
            let before = partial_of(tables, parent)?;
            Ok(grown_from(tables, before, parent, *head)?)
        }
    }
}
