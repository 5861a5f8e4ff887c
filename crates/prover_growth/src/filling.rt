//! Partial terms that grow.
ghost use Rattle.std.specs.Prelude.{◌≡◌, ◌<◌, ℕ, [], None, length, IfOk, OnOk};
ghost use Rattle.command_queue.specs.Queue.{Queue};
ghost use Rattle.instantiate.specs.Internal.Blanks.{term_of};
ghost use Rattle.instantiate.specs.declared.growing.Grown.TheVariants.{Term};
ghost use Rattle.search_spec.specs.Commands.{with_command, growth_by};
ghost use Rattle.tableau_calculus.specs.Each.{Each};
ghost use Rattle.search_spec.specs.Partial.{first_hole};
ghost use Rattle.search_spec.specs.State.{grow};
ghost use Rattle.search_spec.specs.Terms.{with_term};
ghost use Rattle.search_spec.specs.TypedState.{GrowsSketch, IsTypedSketch};
ghost use Rattle.term_bank.specs.Content.{HasTerm};
ghost use Rattle.prover_state.specs.Lasting.{declarations_of, lasting};
ghost use Rattle.prover_state.specs.declared.command.Planned.{Planned};
ghost use Rattle.prover_state.specs.declared.command.Delays.{Delays};
ghost use Rattle.prover_state.specs.Internal.Growing.{BasisGrows};
ghost use Rattle.prover_state.specs.Internal.HeadNumbers.{head_numbered};
ghost use Rattle.prover_state.specs.Internal.Heads.{the_hole_head};
ghost use Rattle.prover_state.specs.Internal.Names.{sketch_at, IsNumberedCommand};
ghost use Rattle.prover_state.specs.Internal.Standing.{naming_in, scope_by, sketches_in, IsBasis, IsRightState};
ghost use Rattle.prover_state.specs.Internal.Advancing.{state_in, setting_in, StaysRight};
ghost use Rattle.prover_state.specs.declared.command.Command.TheVariants.{Grow};

use crate::opening::open_stem;
use crate::stems::{partial_of, root_of};
use crate::taking::{is_last, taken_type};
use command_queue::Weigher;
use instantiate::Grown;
use prover_state::{Core, HoleHead, Stem, Tables, Waiting, head_of, numbered_head, small};
use std::alloc::AllocError;
use term_bank::Id;

/// The term to which a partial term has grown.
fn term_in(grown: Grown) -> Id
    requires { (id : ℕ) × (grown ≡ Term id) }
    ensures { grown ≡ Term result }
{
    match grown {
        Grown::Term(id) => id,
        Grown::More(_) => unreachable!(),
    }
}

/// The term that a partial term becomes where its last hole is filled.
fn make_term(tables: &mut Tables, parent: usize, head: HoleHead) -> Result<Id, AllocError>
    requires right { (q : Queue Planned Delays) × IsRightState tables.old q }
    requires number { parent < length (sketches_in tables.old) }
    requires grows { GrowsSketch (scope_by tables.old.basis) (sketch_at (sketches_in tables.old) parent) (the_hole_head head) }
    requires last { first_hole [] (growth_by (scope_by tables.old.basis) (the_hole_head head)
        (sketch_at (sketches_in tables.old) parent)).partial ≡ None }
    ensures term { IfOk result
        (λ id. HasTerm tables.new.basis.bank id
        (term_of (growth_by (scope_by tables.old.basis) (the_hole_head head) (sketch_at (sketches_in tables.old) parent)).partial)) }
    ensures good { OnOk result (IsBasis tables.new.basis) }
    ensures basis { OnOk result (BasisGrows tables.old.basis tables.new.basis) }
    ensures tables { tables.new ≡ record tables.old { basis = tables.new.basis } }
    ensures declared { declarations_of tables.new.basis ≡ declarations_of tables.old.basis }
{
    let partial = partial_of(tables, parent)?;
    let bank = &mut tables.basis.bank;
    let answer = tables.terms.grow(bank, partial, &head_of(head))?;
    match answer {
        Some(grown) => Ok(term_in(grown)),
        None => unreachable!(),
    }
}

/// Fills the last hole of a parked partial term with a head: the term is for instances.
fn fill_last<W: Weigher<Waiting>>(
    core: &mut Core<W>,
    parent: usize,
    head: HoleHead,
) -> Result<(), AllocError>
    requires right { IsRightState core.old.tables core.old.plan }
    requires number { parent < length (sketches_in core.old.tables) }
    requires grows { GrowsSketch (scope_by core.old.tables.basis) (sketch_at (sketches_in core.old.tables) parent) (the_hole_head head) }
    requires last { first_hole [] (growth_by (scope_by core.old.tables.basis) (the_hole_head head)
        (sketch_at (sketches_in core.old.tables) parent)).partial ≡ None }
    ensures state { OnOk result (let p = sketch_at (sketches_in core.old.tables) parent in
        state_in core.new
        ≡ with_term core.old.plan.rule.mode p.type (term_of (growth_by (scope_by core.old.tables.basis) (the_hole_head head) p).partial) (state_in core.old)) }
    ensures stays { OnOk result (StaysRight core.old core.new) }
    ensures basis { OnOk result (BasisGrows core.old.tables.basis core.new.tables.basis) }
    ensures tables { OnOk result
        (core.new.tables ≡ record core.old.tables { basis = core.new.tables.basis; terms = core.new.tables.terms }) }
    ensures lasts { lasting core.new.tables ≡ lasting core.old.tables }
{
    let ty = root_of(&core.tables, parent).try_clone(core.tables.alloc)?;
    let id = make_term(&mut core.tables, parent, head)?;
    core.add_term(&ty, id)?;
    Ok(())
}

/// Fills the first hole of a parked partial term with a head, with holes for the head's arguments. Where no hole is left, the term is
/// for instances, and else the partial term is opened.
pub fn fill<W: Weigher<Waiting>>(
    core: &mut Core<W>,
    parent: usize,
    head: usize,
) -> Result<(), AllocError>
    requires right { IsRightState core.old.tables core.old.plan }
    requires numbers { IsNumberedCommand (naming_in core.old.tables) (Grow parent head) }
    requires typed { Each (IsTypedSketch (scope_by core.old.tables.basis)) (sketches_in core.old.tables) }
    requires fits { GrowsSketch (scope_by core.old.tables.basis) (sketch_at (sketches_in core.old.tables) parent) (head_numbered head) }
    ensures state { OnOk result (state_in core.new
        ≡ with_command (setting_in core.old) (grow (sketch_at (sketches_in core.old.tables) parent) (head_numbered head)) (state_in core.old)) }
    ensures stays { OnOk result (StaysRight core.old core.new) }
    ensures basis { OnOk result (BasisGrows core.old.tables.basis core.new.tables.basis) }
    ensures tables { OnOk result
        (core.new.tables ≡ record core.old.tables {
          basis = core.new.tables.basis;
          terms = core.new.tables.terms;
          stems
              = core.new.tables.stems;
          open_holes = core.new.tables.open_holes;
          holes = core.new.tables.holes;
          roots = core.new.tables.roots;
        }) }
    ensures lasts { lasting core.new.tables ≡ lasting core.old.tables }
{
    let filler = numbered_head(head);
    let ty = taken_type(&core.tables, parent, filler)?;
    if is_last(&core.tables, parent, &ty) {
        fill_last(core, parent, filler)?;
        return Ok(());
    }
    let number = small(parent)?;
    let stem = Stem::Grown {
        parent: number,
        head: filler,
    };
    open_stem(core, stem, &ty)?;
    Ok(())
}
