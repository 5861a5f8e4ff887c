//! Partial terms that are parked.
ghost use Rattle.std.specs.Prelude.{◌≡◌, ◌<◌, ◌++◌, ℕ, List, [], ◌∷◌, Some, length, slice_get, if◌then◌else◌, OnOk};
ghost use Rattle.std.specs.List.{list_any};
ghost use Rattle.stt_core.specs.SimpleType.{SimpleType, base, same_type};
ghost use Rattle.stt_core.specs.View.{the_type};
ghost use Rattle.command_queue.specs.Queue.{Queue};
ghost use Rattle.instantiate.specs.Listing.{ids_of};
ghost use Rattle.search_spec.specs.Partial.{Hole};
ghost use Rattle.search_spec.specs.Witness.{is_hole_of};
ghost use Rattle.prover_growth.specs.Internal.Stems.{IsStemType};
ghost use Rattle.prover_state.specs.Lasting.{lasting};
ghost use Rattle.prover_state.specs.declared.command.Planned.{Planned};
ghost use Rattle.prover_state.specs.declared.command.Delays.{Delays};
ghost use Rattle.prover_state.specs.Internal.Heads.{sketch_of, IsStem};
ghost use Rattle.prover_state.specs.Internal.Holes.{holes_in, leftmost};
ghost use Rattle.prover_state.specs.Internal.Standing.{scope_by, sketches_in, IsRightState};
ghost use Rattle.prover_state.specs.Internal.Advancing.{state_in};

use command_queue::Weigher;
use prover_state::{Core, Stem, Tables, Waiting};
use std::alloc::AllocError;
use stt_core::Ty;

/// Appends the holes of a partial term, where the type of its head, or its own, is given.
fn push_holes(tables: &mut Tables, stem: &Stem, ty: &Ty) -> Result<(), AllocError>
    requires right { (q : Queue Planned Delays) × IsRightState tables.old q }
    requires stem { IsStem (scope_by tables.old.basis) (sketches_in tables.old) stem.now }
    requires typed { IsStemType (scope_by tables.old.basis) (sketches_in tables.old) stem.now (the_type ty.now) }
    ensures holes { OnOk result (tables.new.open_holes ≡ tables.old.open_holes ++ holes_in []
        (sketch_of (scope_by tables.old.basis) (sketches_in tables.old) stem.now).partial ∷ []) }
    ensures tables { tables.new ≡ record tables.old { open_holes = tables.new.open_holes } }
{
    match stem {
        Stem::Blank(_) => {
            tables.open_holes.push_blank(tables.alloc, ty)?;
            Ok(())
        }
        Stem::Grown { parent, .. } => {
            tables
                .open_holes
                .push_grown(tables.alloc, *parent as usize, ty)?;
            Ok(())
        }
    }
}

/// Lists the type of a partial term, where it can be a new one.
fn push_root(tables: &mut Tables, stem: &Stem) -> Result<(), AllocError>
    requires stem { IsStem (scope_by tables.old.basis) (sketches_in tables.old) stem.now }
    requires roots { (a : SimpleType) → list_any (λ p. same_type a p.type) (sketches_in tables.old) ≡ list_any (same_type a)
        tables.old.roots }
    ensures roots { OnOk result ((a : SimpleType) → list_any (λ p. same_type a p.type)
        (sketches_in tables.old ++ sketch_of (scope_by tables.old.basis) (sketches_in tables.old) stem.now ∷ []) ≡ list_any (same_type a)
        tables.new.roots) }
    ensures tables { tables.new ≡ record tables.old { roots = tables.new.roots } }
{
    match stem {
        Stem::Blank(ty) => {
            let root = ty.try_clone(tables.alloc)?;
            tables.roots.push(root)?;
            Ok(())
        }
        Stem::Grown { .. } => Ok(()),
    }
}

/// Lists a partial term under the base type of its first hole, where it has one.
fn list_hole(tables: &mut Tables, p: usize) -> Result<(), AllocError>
    requires { p < length tables.old.open_holes }
    ensures listed { OnOk result ((n : ℕ) (holes : List Hole) → slice_get tables.old.open_holes p ≡ Some holes
        → ids_of (base n) tables.new.holes ≡ (if is_hole_of n (leftmost holes) then ids_of (base n) tables.old.holes ++ p ∷ [] else ids_of (base n) tables.old.holes)) }
    ensures tables { tables.new ≡ record tables.old { holes = tables.new.holes } }
{
    match tables.open_holes.first_base(p) {
        Some(n) => {
            tables.holes.push(n, p)?;
            Ok(())
        }
        None => Ok(()),
    }
}

/// Parks a partial term, where the type of its head, or its own, is given: it is the last one.
pub(crate) fn park<W: Weigher<Waiting>>(
    core: &mut Core<W>,
    stem: Stem,
    ty: &Ty,
) -> Result<(), AllocError>
    requires right { IsRightState core.old.tables core.old.plan }
    requires stem { IsStem (scope_by core.old.tables.basis) (sketches_in core.old.tables) stem }
    requires typed { IsStemType (scope_by core.old.tables.basis) (sketches_in core.old.tables) stem (the_type ty.now) }
    ensures state { OnOk result (let s = state_in core.old in
        state_in core.new ≡ record s { parked = s.parked ++ sketch_of (scope_by core.old.tables.basis) (sketches_in core.old.tables) stem ∷ [] }) }
    ensures right { OnOk result (IsRightState core.new.tables core.new.plan) }
    ensures sketches { OnOk result (sketches_in core.new.tables ≡ sketches_in core.old.tables ++ sketch_of (scope_by core.old.tables.basis)
        (sketches_in core.old.tables) stem ∷ []) }
    ensures tables { OnOk result
        (core.new.tables ≡ record core.old.tables {
          stems = core.new.tables.stems;
          open_holes = core.new.tables.open_holes;
          holes
              = core.new.tables.holes;
          roots = core.new.tables.roots;
        }) }
    ensures plan { core.new.plan ≡ core.old.plan }
    ensures lasts { lasting core.new.tables ≡ lasting core.old.tables }
{
    let p = core.tables.stems.len();
    push_holes(&mut core.tables, &stem, ty)?;
    push_root(&mut core.tables, &stem)?;
    list_hole(&mut core.tables, p)?;
    core.tables.stems.push(stem)?;
    Ok(())
}
