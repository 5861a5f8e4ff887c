//! The heads that fit the first hole of a partial term.
ghost use Rattle.std.specs.Prelude.{◌≡◌, ◌==◌, ◌<◌, ◌+◌, ◌||◌, [], length, map, IfOk, OnOk};
ghost use Rattle.command_queue.specs.Queue.{Queue};
ghost use Rattle.search_spec.specs.Heads.{places_to, logical_heads, heads_for};
ghost use Rattle.head_offers.specs.Offering.{the_offers};
ghost use Rattle.search_spec.specs.Partial.{first_hole};
ghost use Rattle.search_spec.specs.State.{grow, with_commands};
ghost use Rattle.prover_state.specs.declared.command.Planned.{Planned};
ghost use Rattle.prover_state.specs.declared.command.Delays.{Delays};
ghost use Rattle.prover_state.specs.Internal.Fitting.{names_for};
ghost use Rattle.prover_state.specs.Internal.Names.{sketch_at};
ghost use Rattle.prover_state.specs.Internal.Standing.{scope_by, sketches_in, IsRightState};
ghost use Rattle.prover_state.specs.Internal.Advancing.{state_in, StaysRight};

use command_queue::Weigher;
use prover_state::{Command, Core, Over, Tables, Waiting, number_of};
use std::alloc::AllocError;
use stt_core::Ty;

/// The sum of two numbers. Where it is too great, there is no memory.
fn plus(m: usize, n: usize) -> Result<usize, AllocError>
    ensures { IfOk result (λ sum. sum ≡ m + n) }
{
    if m > usize::MAX - n {
        return Err(AllocError);
    }
    Ok(m + n)
}

/// Whether the choice fits a hole of a base type other than that of formulas, which so many other heads fit.
fn choice_fits(tables: &Tables, given: usize) -> bool
    ensures { result ≡ (tables.now.offers.choices || (given == 0)) }
{
    tables.offers.choices || given == 0
}

/// How many heads of the logic's own fit a hole of a base type, which so many other heads fit.
fn count_logical(tables: &Tables, base: u32, given: usize) -> Result<usize, AllocError>
    requires right { (q : Queue Planned Delays) × IsRightState tables.now q }
    ensures { IfOk result
        (λ n. n ≡ length (logical_heads (the_offers tables.now.offers) (scope_by tables.now.basis) base
        (tables.now.offers.choices || (given == 0)))) }
{
    if base == 0 {
        let bases = tables.bases.len();
        let pairs = plus(bases, bases)?;
        return Ok(plus(pairs, 4)?);
    }
    if choice_fits(tables, given) {
        return Ok(1);
    }
    Ok(0)
}

/// How many names and witnesses fit a hole of a base type.
fn count_constants(tables: &Tables, base: u32) -> Result<usize, AllocError>
    requires right { (q : Queue Planned Delays) × IsRightState tables.now q }
    ensures { IfOk result (λ n. n ≡ length (names_for (the_offers tables.now.offers) (scope_by tables.now.basis) base) + length
        (places_to base 0 (scope_by tables.now.basis).witnesses)) }
{
    let names = tables.names.terms_of(&Ty::Base(base));
    let takers = tables.takers.terms_of(&Ty::Base(base));
    Ok(plus(names.len(), takers.len())?)
}

/// How many heads fit the first hole of a partial term.
fn count_heads(tables: &Tables, p: usize) -> Result<usize, AllocError>
    requires right { (q : Queue Planned Delays) × IsRightState tables.now q }
    requires number { p < length (sketches_in tables.now) }
    ensures { IfOk result
        (λ n. n ≡ length (heads_for (the_offers tables.now.offers) (scope_by tables.now.basis)
        (first_hole [] (sketch_at (sketches_in tables.now) p).partial))) }
{
    match tables.open_holes.first_base(p) {
        Some(base) => {
            let variables = tables.open_holes.count_variables(p);
            let constants = count_constants(tables, base)?;
            let given = plus(variables, constants)?;
            let logical = count_logical(tables, base, given)?;
            Ok(plus(given, logical)?)
        }
        None => Ok(0),
    }
}

/// Pushes the commands that fill the first hole of a partial term with each head that fits.
pub(crate) fn push_heads<W: Weigher<Waiting>>(
    core: &mut Core<W>,
    p: usize,
) -> Result<(), AllocError>
    requires right { IsRightState core.old.tables core.old.plan }
    requires number { p < length (sketches_in core.old.tables) }
    ensures state { OnOk result (let q = sketch_at (sketches_in core.old.tables) p in
        state_in core.new
        ≡ with_commands core.old.plan.rule.mode (map (grow q) (heads_for (the_offers core.old.tables.offers) (scope_by core.old.tables.basis) (first_hole [] q.partial))) (state_in core.old)) }
    ensures stays { OnOk result (StaysRight core.old core.new) }
    ensures tables { core.new.tables ≡ core.old.tables }
{
    let count = count_heads(&core.tables, p)?;
    if count == 0 {
        return Ok(());
    }
    let known = core.tables.basis.witnesses.len();
    let witnesses = known as usize;
    let head = core.tables.fitting_head(p, witnesses, 0)?;
    let first = Command::Grow(p, number_of(head));
    core.push_whole(first, Over::Heads { witnesses }, count)?;
    Ok(())
}
