//! What stands at the first holes of partial terms.
ghost use Rattle.std.specs.Prelude.{◌≡◌, ◌<◌, List, Some, length, nat_eq, slice_get, IfOk};
ghost use Rattle.stt_core.specs.View.{the_type};
ghost use Rattle.command_queue.specs.Queue.{Queue};
ghost use Rattle.instantiate.specs.Growing.{TakesHead};
ghost use Rattle.search_spec.specs.Partial.{Hole};
ghost use Rattle.prover_state.specs.declared.command.Planned.{Planned};
ghost use Rattle.prover_state.specs.declared.command.Delays.{Delays};
ghost use Rattle.prover_state.specs.Internal.Heads.{the_hole_head};
ghost use Rattle.prover_state.specs.Internal.Holes.{after_head};
ghost use Rattle.prover_state.specs.Internal.Names.{sketch_at};
ghost use Rattle.prover_state.specs.Internal.Standing.{scope_by, sketches_in, IsRightState};

use prover_state::{HoleHead, Tables};
use std::alloc::AllocError;
use stt_core::Ty;

/// The type of a head at the first hole of a partial term.
pub(crate) fn taken_type(tables: &Tables, p: usize, head: HoleHead) -> Result<Ty, AllocError>
    requires right { (q : Queue Planned Delays) × IsRightState tables.now q }
    requires number { p < length (sketches_in tables.now) }
    requires takes { TakesHead (scope_by tables.now.basis) (sketch_at (sketches_in tables.now) p).partial (the_hole_head head) }
    ensures { IfOk result
        (λ ty. (takes : TakesHead (scope_by tables.now.basis) (sketch_at (sketches_in tables.now) p).partial (the_hole_head head))
        → the_type ty ≡ takes.type) }
{
    Ok(
        tables
            .open_holes
            .head_type(tables.alloc, &tables.basis.bank, p, head)?,
    )
}

/// Whether no hole is left where the first hole of a partial term is filled with a head of the type.
pub(crate) fn is_last(tables: &Tables, p: usize, ty: &Ty) -> bool
    requires number { p < length tables.now.open_holes }
    ensures { (holes : List Hole) → slice_get tables.now.open_holes p ≡ Some holes → 0 < length holes
        → result ≡ nat_eq (length (after_head (the_type ty.now) holes)) 0 }
{
    match ty {
        Ty::Base(_) => tables.open_holes.is_single(p),
        Ty::Arrow(_, _) => false,
    }
}
