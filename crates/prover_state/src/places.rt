//! Commands at places of loops.
ghost use Rattle.std.specs.Prelude.{◌≡◌, ◌<◌, ◌≤◌, [], length, Some, slice_get, IfOk};
ghost use Rattle.stt_core.specs.SimpleType.{base};
ghost use Rattle.search_spec.specs.Partial.{first_hole};
ghost use Rattle.command_queue.specs.Queue.{Queue};
ghost use Rattle.mating_rules.specs.Noted.{partners_of};
ghost use Rattle.instantiate.specs.Listing.{ids_of};
ghost use Rattle.prover_state.specs.declared.command.Planned.{Planned};
ghost use Rattle.prover_state.specs.declared.command.Delays.{Delays};
ghost use Rattle.prover_state.specs.Internal.Names.{command_at, sketch_at, IsNumberIn, IsNumberedCommand};
ghost use Rattle.prover_state.specs.Internal.Pending.{base_of, range_of, over_terms, over_universals, over_negatives, over_positives, over_heads, over_parked, HasWitnesses, IsSigned, loop_over};
ghost use Rattle.prover_state.specs.Internal.Standing.{without_witnesses, naming_in, sketches_in, sources, IsBasis, IsRightState};
ghost use Rattle.prover_state.specs.Internal.Advancing.{the_literal};
ghost use Rattle.prover_state.specs.declared.command.Over.TheVariants.{Negatives, Positives};

use crate::clauses::literal_of;
use crate::command::{Command, Over};
use crate::head::number_of;
use crate::shape::quantified_type;
use crate::tables::{Basis, Tables};
use instantiate::Enumerator;
use sat_base::SatLit;
use std::alloc::AllocError;
use stt_core::Ty;
use term_bank::Id;

/// What is at a place of a list.
pub(crate) fn id_of(ids: &[Id], i: usize) -> Id
    requires { i < length ids.now }
    ensures { slice_get ids.now i ≡ Some result }
{
    ids[i]
}

/// What is at a place of a list of small numbers.
fn number_at(numbers: &[u32], i: usize) -> usize
    requires { i < length numbers.now }
    ensures { slice_get numbers.now i ≡ Some result }
{
    numbers[i] as usize
}

/// What is listed under the type over which the atom of a literal ranges.
pub(crate) fn listed_under<'a>(basis: &Basis, list: &'a Enumerator, lit: SatLit) -> &'a [Id]
    requires basis { IsBasis basis.now }
    requires number { IsNumberIn basis.now.lits lit }
    ensures { result.now ≡ ids_of (range_of (the_literal basis.now lit).atom) list.now }
{
    let atom = basis.lits.formula_of(lit);
    match quantified_type(&basis.bank, atom) {
        Some(ty) => list.terms_of(ty),
        None => list.terms_of(&Ty::Base(0)),
    }
}

impl Tables {
    /// The command at a place of the loop over the terms for a literal.
    fn in_terms(&self, first: Command, place: usize) -> Command
        requires right { (q : Queue Planned Delays) × IsRightState self.now q }
        requires numbers { IsNumberedCommand (naming_in self.now) first }
        requires within { place < length (over_terms (sources self.now) (command_at (naming_in self.now) first)) }
        ensures command { slice_get (over_terms (sources self.now) (command_at (naming_in self.now) first)) place ≡ Some
            (command_at (naming_in self.now) result) }
        ensures numbers { IsNumberedCommand (naming_in self.now) result }
    {
        match first {
            Command::Inst(lit, _) => {
                let ids = listed_under(&self.basis, &self.terms, lit);
                Command::Inst(lit, id_of(ids, place))
            }
            _ => unreachable!(),
        }
    }

    /// The command at a place of the loop over the universal literals for a term.
    fn in_universals(&self, first: Command, place: usize) -> Command
        requires right { (q : Queue Planned Delays) × IsRightState self.now q }
        requires numbers { IsNumberedCommand (naming_in self.now) first }
        requires within { place < length (over_universals (sources self.now) (command_at (naming_in self.now) first)) }
        ensures command { slice_get (over_universals (sources self.now) (command_at (naming_in self.now) first)) place ≡ Some
            (command_at (naming_in self.now) result) }
        ensures numbers { IsNumberedCommand (naming_in self.now) result }
    {
        match first {
            Command::Inst(lit, id) => {
                let places = listed_under(&self.basis, &self.universals, lit);
                let noted = id_of(places, place) as usize;
                let universal = literal_of(self.noted.as_slice(), noted);
                Command::Inst(universal, id)
            }
            _ => unreachable!(),
        }
    }

    /// The partners of a literal.
    pub(crate) fn partners(&self, lit: SatLit) -> Result<&[SatLit], AllocError>
        requires right { (q : Queue Planned Delays) × IsRightState self.now q }
        requires number { IsNumberIn self.now.basis.lits lit }
        ensures { IfOk result (λ found. found.now ≡ partners_of self.now.basis.bank.terms self.now.basis.lits lit self.now.index.noted) }
    {
        self.index.partners(&self.basis.bank, &self.basis.lits, lit)
    }

    /// The partner of a literal at a place.
    fn partner_at(&self, lit: SatLit, place: usize) -> Result<SatLit, AllocError>
        requires right { (q : Queue Planned Delays) × IsRightState self.now q }
        requires number { IsNumberIn self.now.basis.lits lit }
        requires within { place < length (partners_of self.now.basis.bank.terms self.now.basis.lits lit self.now.index.noted) }
        ensures { IfOk result (λ m. slice_get (partners_of self.now.basis.bank.terms self.now.basis.lits lit self.now.index.noted) place
            ≡ Some m) }
    {
        let partners = self.partners(lit)?;
        Ok(literal_of(partners, place))
    }

    /// The command at a place of the loop over the partners of a positive literal.
    fn in_negatives(&self, first: Command, place: usize) -> Result<Command, AllocError>
        requires right { (q : Queue Planned Delays) × IsRightState self.now q }
        requires numbers { IsNumberedCommand (naming_in self.now) first }
        requires signed { IsSigned Negatives (command_at (naming_in self.now) first) }
        requires within { place < length (over_negatives (sources self.now) (command_at (naming_in self.now) first)) }
        ensures command { IfOk result (λ c. slice_get (over_negatives (sources self.now) (command_at (naming_in self.now) first)) place
            ≡ Some (command_at (naming_in self.now) c)) }
        ensures numbers { IfOk result (IsNumberedCommand (naming_in self.now)) }
    {
        match first {
            Command::Mate(lit, _) => Ok(Command::Mate(lit, self.partner_at(lit, place)?)),
            Command::Confront(lit, _) => Ok(Command::Confront(lit, self.partner_at(lit, place)?)),
            _ => unreachable!(),
        }
    }

    /// The command at a place of the loop over the partners of a negative literal.
    fn in_positives(&self, first: Command, place: usize) -> Result<Command, AllocError>
        requires right { (q : Queue Planned Delays) × IsRightState self.now q }
        requires numbers { IsNumberedCommand (naming_in self.now) first }
        requires signed { IsSigned Positives (command_at (naming_in self.now) first) }
        requires within { place < length (over_positives (sources self.now) (command_at (naming_in self.now) first)) }
        ensures command { IfOk result (λ c. slice_get (over_positives (sources self.now) (command_at (naming_in self.now) first)) place
            ≡ Some (command_at (naming_in self.now) c)) }
        ensures numbers { IfOk result (IsNumberedCommand (naming_in self.now)) }
    {
        match first {
            Command::Mate(_, lit) => Ok(Command::Mate(self.partner_at(lit, place)?, lit)),
            Command::Confront(_, lit) => Ok(Command::Confront(self.partner_at(lit, place)?, lit)),
            _ => unreachable!(),
        }
    }

    /// The command at a place of the loop over the heads for a partial term.
    fn in_heads(
        &self,
        first: Command,
        witnesses: usize,
        place: usize,
    ) -> Result<Command, AllocError>
        requires right { (q : Queue Planned Delays) × IsRightState self.now q }
        requires numbers { IsNumberedCommand (naming_in self.now) first }
        requires witnesses { witnesses ≤ length (sources self.now).rows }
        requires within { place < length (over_heads (without_witnesses self.now.basis.bank) (sources self.now) witnesses
            (command_at (naming_in self.now) first)) }
        ensures command { IfOk result
            (λ c. slice_get (over_heads (without_witnesses self.now.basis.bank) (sources self.now) witnesses
            (command_at (naming_in self.now) first)) place ≡ Some (command_at (naming_in self.now) c)) }
        ensures numbers { IfOk result (IsNumberedCommand (naming_in self.now)) }
    {
        match first {
            Command::Grow(p, _) => {
                let head = self.fitting_head(p, witnesses, place)?;
                Ok(Command::Grow(p, number_of(head)))
            }
            _ => unreachable!(),
        }
    }

    /// The partial terms whose first hole has the base type of the first one of this partial term.
    fn parked_like(&self, p: usize) -> &[u32]
        requires right { (q : Queue Planned Delays) × IsRightState self.now q }
        requires number { p < length (sketches_in self.now) }
        ensures { result.now ≡ ids_of (base (base_of (first_hole [] (sketch_at (sketches_in self.now) p).partial))) self.now.holes }
    {
        self.holes.under(self.open_holes.base(p))
    }

    /// The command at a place of the loop over the partial terms that take a head.
    fn in_parked(&self, first: Command, place: usize) -> Command
        requires right { (q : Queue Planned Delays) × IsRightState self.now q }
        requires numbers { IsNumberedCommand (naming_in self.now) first }
        requires within { place < length (over_parked (sources self.now) (command_at (naming_in self.now) first)) }
        ensures command { slice_get (over_parked (sources self.now) (command_at (naming_in self.now) first)) place ≡ Some
            (command_at (naming_in self.now) result) }
        ensures numbers { IsNumberedCommand (naming_in self.now) result }
    {
        match first {
            Command::Grow(p, h) => Command::Grow(number_at(self.parked_like(p), place), h),
            _ => unreachable!(),
        }
    }

    /// The command at a place of the loop of a command.
    pub fn command_of(
        &self,
        first: Command,
        over: Over,
        place: usize,
    ) -> Result<Command, AllocError>
        requires right { (q : Queue Planned Delays) × IsRightState self.now q }
        requires numbers { IsNumberedCommand (naming_in self.now) first }
        requires witnesses { HasWitnesses (sources self.now) over }
        requires signed { IsSigned over (command_at (naming_in self.now) first) }
        requires within { place < length (loop_over (without_witnesses self.now.basis.bank) (sources self.now) over
            (command_at (naming_in self.now) first)) }
        ensures command { IfOk result
            (λ c. slice_get (loop_over (without_witnesses self.now.basis.bank) (sources self.now) over
            (command_at (naming_in self.now) first)) place ≡ Some (command_at (naming_in self.now) c)) }
        ensures numbers { IfOk result (IsNumberedCommand (naming_in self.now)) }
    {
        match over {
            Over::Terms => Ok(self.in_terms(first, place)),
            Over::Universals => Ok(self.in_universals(first, place)),
            Over::Negatives => Ok(self.in_negatives(first, place)?),
            Over::Positives => Ok(self.in_positives(first, place)?),
            Over::Heads { witnesses } => Ok(self.in_heads(first, witnesses, place)?),
            Over::Parked => Ok(self.in_parked(first, place)),
        }
    }
}
