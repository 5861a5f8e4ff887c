//! Heads that fit the hole of a partial term.
ghost use Rattle.std.specs.Prelude.{◌≡◌, ◌<◌, ◌≤◌, true, [], map, length, nat_lt, take, Some, slice_get, IfOk};
ghost use Rattle.stt_core.specs.SimpleType.{base as base_type};
ghost use Rattle.tableau_calculus.specs.Witnesses.{with_rows};
ghost use Rattle.command_queue.specs.Queue.{Queue};
ghost use Rattle.search_spec.specs.Heads.{heads_for};
ghost use Rattle.head_offers.specs.Offering.{the_offers};
ghost use Rattle.search_spec.specs.Partial.{first_hole};
ghost use Rattle.prover_state.specs.declared.command.Planned.{Planned};
ghost use Rattle.prover_state.specs.declared.command.Delays.{Delays};
ghost use Rattle.prover_state.specs.Internal.Fitting.{over_bases, logical_for, later_heads};
ghost use Rattle.prover_state.specs.Internal.Heads.{the_hole_head};
ghost use Rattle.prover_state.specs.Internal.Names.{sketch_at};
ghost use Rattle.prover_state.specs.Internal.Standing.{without_witnesses, rows_in, sketches_in, IsRightState};

use crate::head::HoleHead;
use crate::places::id_of;
use crate::tables::Tables;
use std::alloc::AllocError;
use stt_core::Ty;
use term_bank::Id;

/// A number with 32 bits. Where it has more, there is no memory.
pub fn small(n: usize) -> Result<u32, AllocError>
    ensures { IfOk result (λ k. k ≡ n) }
{
    if n > u32::MAX as usize {
        return Err(AllocError);
    }
    Ok(n as u32)
}

/// The equality or the quantifier at a place, where these base types are offered.
fn offered_head(bases: &[u32], i: usize) -> HoleHead
    requires { i < length (over_bases (map base_type bases.now)) }
    ensures { slice_get (over_bases (map base_type bases.now)) i ≡ Some (the_hole_head result) }
{
    if i < bases.len() {
        return HoleHead::Eq(bases[i]);
    }
    HoleHead::All(bases[i - bases.len()])
}

/// The logic's own head at a place among those of a base type, the choice among them, where these base types are offered.
fn logical_head(bases: &[u32], base: u32, i: usize) -> HoleHead
    requires { i < length (logical_for (map base_type bases.now) base) }
    ensures { slice_get (logical_for (map base_type bases.now) base) i ≡ Some (the_hole_head result) }
{
    if base > 0 {
        return HoleHead::Choice(base);
    }
    match i {
        0 => HoleHead::False,
        1 => HoleHead::Not,
        2 => HoleHead::Imp,
        3 => HoleHead::Eq(0),
        _ => offered_head(bases, i - 4),
    }
}

impl Tables {
    /// The witness or the logic's own head at a place behind the variables and the names of a base type, with the first witnesses, where
    /// the choice is among them.
    fn later_head(&self, base: u32, witnesses: usize, place: usize) -> HoleHead
        requires right { (q : Queue Planned Delays) × IsRightState self.now q }
        requires few { witnesses ≤ length (rows_in self.now.basis) }
        requires within { place < length (later_heads (the_offers self.now.offers)
            (with_rows (without_witnesses self.now.basis.bank) (take witnesses (rows_in self.now.basis))) base true) }
        ensures { slice_get (later_heads (the_offers self.now.offers) (with_rows (without_witnesses self.now.basis.bank)
            (take witnesses (rows_in self.now.basis))) base true) place ≡ Some (the_hole_head result) }
    {
        let takers = self.takers.terms_of(&Ty::Base(base));
        let count = takers.partition_point(
            |taker: &Id| -> bool
                ensures { result ≡ nat_lt taker.now witnesses }
            { (*taker as usize) < witnesses },
        );
        if place < count {
            return HoleHead::Wit(id_of(takers, place));
        }
        logical_head(self.bases.as_slice(), base, place - count)
    }

    /// The head at a place among those that fit the first hole of a partial term, with the first witnesses.
    pub fn fitting_head(
        &self,
        p: usize,
        witnesses: usize,
        place: usize,
    ) -> Result<HoleHead, AllocError>
        requires right { (q : Queue Planned Delays) × IsRightState self.now q }
        requires number { p < length (sketches_in self.now) }
        requires few { witnesses ≤ length (rows_in self.now.basis) }
        requires within { place < length (heads_for (the_offers self.now.offers)
            (with_rows (without_witnesses self.now.basis.bank) (take witnesses (rows_in self.now.basis)))
            (first_hole [] (sketch_at (sketches_in self.now) p).partial)) }
        ensures { IfOk result
            (λ h. slice_get
            (heads_for (the_offers self.now.offers) (with_rows (without_witnesses self.now.basis.bank)
            (take witnesses (rows_in self.now.basis))) (first_hole [] (sketch_at (sketches_in self.now) p).partial)) place ≡ Some
            (the_hole_head h)) }
    {
        let base = self.open_holes.base(p);
        let variables = self.open_holes.count_variables(p);
        if place < variables {
            return Ok(HoleHead::Bound(small(self.open_holes.variable(p, place))?));
        }
        let behind = place - variables;
        let names = self.names.terms_of(&Ty::Base(base));
        if behind < names.len() {
            return Ok(HoleHead::Name(id_of(names, behind)));
        }
        Ok(self.later_head(base, witnesses, behind - names.len()))
    }
}
