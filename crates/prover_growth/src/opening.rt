//! Partial terms that are opened.
ghost use Rattle.std.specs.Prelude.{◌≡◌, true, length, OnOk};
ghost use Rattle.std.specs.List.{list_any};
ghost use Rattle.stt_core.specs.SimpleType.{SimpleType, arrow, is_declared, same_type};
ghost use Rattle.stt_core.specs.View.{the_type};
ghost use Rattle.search_spec.specs.Offers.{is_prepared, is_ranged_over};
ghost use Rattle.search_spec.specs.Preparing.{with_beginning, with_preparation};
ghost use Rattle.search_spec.specs.Terms.{with_opening};
ghost use Rattle.command_queue.specs.Queue.{Queue};
ghost use Rattle.prover_growth.specs.Internal.Stems.{IsStemType};
ghost use Rattle.prover_state.specs.Lasting.{lasting};
ghost use Rattle.prover_state.specs.declared.command.Planned.{Planned};
ghost use Rattle.prover_state.specs.declared.command.Delays.{Delays};
ghost use Rattle.prover_state.specs.Internal.Growing.{BasisGrows};
ghost use Rattle.prover_state.specs.Internal.Heads.{sketch_of, IsStem};
ghost use Rattle.prover_state.specs.Internal.Standing.{scope_by, sketches_in, state_parts, IsRightState};
ghost use Rattle.prover_state.specs.Internal.Advancing.{state_in, setting_in, StaysRight};

use crate::base_terms::begin_base;
use crate::heads::push_heads;
use crate::offers::offer_early;
use crate::parking::park;
use command_queue::Weigher;
use prover_state::{Core, Stem, Tables, Waiting};
use std::alloc::AllocError;
use std::rc::Rc;
use stt_core::{Ty, Types};

/// Whether a type is one of a list.
fn has_type(types: &Types, ty: &Ty) -> bool
    ensures { result ≡ list_any (same_type (the_type ty.now)) types.now }
{
    for i in 0..types.len() {
        if ty.same(types.at(i)) {
            return true;
        }
    }
    false
}

/// A partial term is opened, where the type of its head, or its own, is given: it is parked, and its first hole is to be filled with each
/// head that fits.
pub(crate) fn open_stem<W: Weigher<Waiting>>(
    core: &mut Core<W>,
    stem: Stem,
    ty: &Ty,
) -> Result<(), AllocError>
    requires right { IsRightState core.old.tables core.old.plan }
    requires stem { IsStem (scope_by core.old.tables.basis) (sketches_in core.old.tables) stem }
    requires typed { IsStemType (scope_by core.old.tables.basis) (sketches_in core.old.tables) stem (the_type ty.now) }
    ensures state { OnOk result (state_in core.new
        ≡ with_opening (setting_in core.old) (sketch_of (scope_by core.old.tables.basis) (sketches_in core.old.tables) stem) (state_in core.old)) }
    ensures stays { OnOk result (StaysRight core.old core.new) }
    ensures tables { OnOk result
        (core.new.tables ≡ record core.old.tables {
          stems = core.new.tables.stems;
          open_holes = core.new.tables.open_holes;
          holes
              = core.new.tables.holes;
          roots = core.new.tables.roots;
        }) }
    ensures lasts { lasting core.new.tables ≡ lasting core.old.tables }
{
    let p = core.tables.stems.len();
    park(core, stem, ty)?;
    push_heads(core, p)?;
    Ok(())
}

/// For a function type one hole under its binders is opened.
fn begin_function<W: Weigher<Waiting>>(core: &mut Core<W>, ty: &Ty) -> Result<(), AllocError>
    requires right { IsRightState core.old.tables core.old.plan }
    requires function { (a : SimpleType) × ((b : SimpleType) × (the_type ty.now ≡ arrow a b)) }
    ensures state { OnOk result (state_in core.new ≡ with_beginning (setting_in core.old) (the_type ty.now) (state_in core.old)) }
    ensures stays { OnOk result (StaysRight core.old core.new) }
    ensures tables { OnOk result
        (core.new.tables ≡ record core.old.tables {
          stems = core.new.tables.stems;
          open_holes = core.new.tables.open_holes;
          holes
              = core.new.tables.holes;
          roots = core.new.tables.roots;
        }) }
    ensures lasts { lasting core.new.tables ≡ lasting core.old.tables }
{
    let alloc = core.tables.alloc;
    let blank = Rc::new(alloc, ty.try_clone(alloc)?)?;
    open_stem(core, Stem::Blank(blank), ty)?;
    Ok(())
}

/// A base type gets its first terms, and for a function type one hole under its binders is opened.
fn begin<W: Weigher<Waiting>>(core: &mut Core<W>, ty: &Ty) -> Result<(), AllocError>
    requires right { IsRightState core.old.tables core.old.plan }
    requires declared { is_declared (length core.old.tables.basis.bank.bases) (the_type ty.now) ≡ true }
    ensures state { OnOk result (state_in core.new ≡ with_beginning (setting_in core.old) (the_type ty.now) (state_in core.old)) }
    ensures stays { OnOk result (StaysRight core.old core.new) }
    ensures basis { OnOk result (BasisGrows core.old.tables.basis core.new.tables.basis) }
    ensures tables { OnOk result
        (core.new.tables ≡ record core.old.tables {
          basis = core.new.tables.basis;
          terms = core.new.tables.terms;
          stems
              = core.new.tables.stems;
          open_holes = core.new.tables.open_holes;
          holes = core.new.tables.holes;
          roots = core.new.tables.roots;
        }) }
    ensures lasts { lasting core.new.tables ≡ lasting core.old.tables }
{
    match ty {
        Ty::Base(n) => {
            begin_base(core, *n)?;
            Ok(())
        }
        Ty::Arrow(_, _) => {
            begin_function(core, ty)?;
            Ok(())
        }
    }
}

/// Whether a type has terms.
fn has_terms(tables: &Tables, ty: &Ty) -> bool
    ensures { result ≡ list_any (λ u. same_type (the_type ty.now) u.type) (state_parts tables.now).terms }
{
    tables.terms.terms_of(ty).len() > 0
}

/// Whether a processed literal ranges over a type.
fn is_ranged_over(tables: &Tables, ty: &Ty) -> bool
    requires right { (q : Queue Planned Delays) × IsRightState tables.now q }
    ensures { result ≡ is_ranged_over (the_type ty.now) (state_parts tables.now) }
{
    tables.universals.terms_of(ty).len() > 0
}

/// Whether a type is prepared.
pub(crate) fn is_prepared<W: Weigher<Waiting>>(core: &Core<W>, ty: &Ty) -> bool
    requires right { IsRightState core.now.tables core.now.plan }
    ensures { result ≡ is_prepared core.now.plan.rule.mode (the_type ty.now) (state_in core.now) }
{
    match ty {
        Ty::Base(_) => {
            if core.plan.mode().terms == 0 {
                has_terms(&core.tables, ty)
            } else {
                is_ranged_over(&core.tables, ty)
            }
        }
        Ty::Arrow(_, _) => has_type(&core.tables.roots, ty),
    }
}

/// A type is prepared, unless it was before: it gets the terms that are offered early, and begins.
pub fn prepare<W: Weigher<Waiting>>(core: &mut Core<W>, ty: &Ty) -> Result<(), AllocError>
    requires right { IsRightState core.old.tables core.old.plan }
    requires declared { is_declared (length core.old.tables.basis.bank.bases) (the_type ty.now) ≡ true }
    ensures state { OnOk result (state_in core.new ≡ with_preparation (setting_in core.old) (the_type ty.now) (state_in core.old)) }
    ensures stays { OnOk result (StaysRight core.old core.new) }
    ensures basis { OnOk result (BasisGrows core.old.tables.basis core.new.tables.basis) }
    ensures tables { OnOk result
        (core.new.tables ≡ record core.old.tables {
          basis = core.new.tables.basis;
          terms = core.new.tables.terms;
          stems
              = core.new.tables.stems;
          open_holes = core.new.tables.open_holes;
          holes = core.new.tables.holes;
          roots = core.new.tables.roots;
        }) }
    ensures lasts { lasting core.new.tables ≡ lasting core.old.tables }
{
    if is_prepared(core, ty) {
        return Ok(());
    }
    offer_early(core, ty)?;
    begin(core, ty)?;
    Ok(())
}
