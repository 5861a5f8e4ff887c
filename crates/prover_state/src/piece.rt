//! Loops by pieces, whose commands wait equally long.
ghost use Rattle.std.specs.Prelude.{◌≡◌, ◌<◌, ◌+◌, drop, length, IfOk, OnOk};
ghost use Rattle.search_spec.specs.State.{brings_default, with_commands};
ghost use Rattle.prover_state.specs.Internal.Names.{command_at, IsNumberedCommand};
ghost use Rattle.prover_state.specs.Internal.Pending.{loop_over, between, BeginsWith, HasWitnesses, IsSigned};
ghost use Rattle.prover_state.specs.Internal.Pieces.{extra_delay, numbered_loop, even_until, IsPiece, IsLoop};
ghost use Rattle.prover_state.specs.Internal.Standing.{without_witnesses, naming_in, sources, IsRightState};
ghost use Rattle.prover_state.specs.Internal.Advancing.{state_in, StaysRight};

use crate::command::{Command, Over, Planned, Rest};
use crate::head::{head_of, numbered_head};
use crate::tables::{Core, Tables};
use crate::waiting::Waiting;
use command_queue::Weigher;
use instantiate::{is_default_term, is_value_choice};
use std::alloc::AllocError;

/// Where a piece of a loop begins: with this command, at this place. Its commands wait so much longer than others of their kind.
#[derive(Clone, Copy)]
pub(crate) struct Piece {
    first: Command,
    from: usize,
    extra: u32,
}

/// The place before which all commands of a loop, which has so many, wait as long as the first one.
fn even_until(defaults: u32, over: Over, count: usize) -> usize
    ensures { result ≡ even_until defaults over count }
{
    if defaults == 0 {
        return count;
    }
    match over {
        Over::Terms => 1,
        Over::Universals => count,
        Over::Negatives => count,
        Over::Positives => count,
        Over::Heads { witnesses: _ } => { if count > 2 { count - 1 } else { 1 } }
        Over::Parked => count,
    }
}

impl Tables {
    /// Whether a command brings in a default.
    fn brings_default(&self, command: Command) -> bool
        requires { IsNumberedCommand (naming_in self.now) command }
        ensures { result ≡ brings_default (command_at (naming_in self.now) command) }
    {
        match command {
            Command::Process(_) => false,
            Command::Mate(_, _) => false,
            Command::Confront(_, _) => false,
            Command::Inst(_, id) => is_default_term(&self.basis.bank, id),
            Command::Grow(_, h) => {
                let head = head_of(numbered_head(h));
                is_value_choice(&head)
            }
            Command::Choose(_) => false,
            Command::Describe(_) => false,
        }
    }
}

impl<W: Weigher<Waiting>> Core<W> {
    /// How much longer a command waits than others of its kind.
    pub(crate) fn extra_delay(&self, command: Command) -> u32
        requires { IsNumberedCommand (naming_in self.now.tables) command }
        ensures { result ≡ extra_delay self.now.plan.rule.mode (command_at (naming_in self.now.tables) command) }
    {
        let defaults = self.plan.mode().defaults;
        if defaults == 0 {
            return 0;
        }
        if self.tables.brings_default(command) {
            return defaults;
        }
        0
    }

    /// Pushes a piece of a loop, which ends at a place.
    fn push_piece(&mut self, piece: Piece, over: Over, end: usize) -> Result<(), AllocError>
        requires right { IsRightState self.old.tables self.old.plan }
        requires fits { IsLoop self.old.tables over piece.first }
        requires piece { IsPiece self.old.plan.rule.mode self.old.tables over piece.first piece end }
        ensures state { OnOk result (state_in self.new ≡ with_commands self.old.plan.rule.mode
            (between piece.from end (numbered_loop self.old.tables over piece.first)) (state_in self.old)) }
        ensures stays { OnOk result (StaysRight self.old self.new) }
        ensures tables { self.new.tables ≡ self.old.tables }
    {
        let rest = Rest::between(over, piece.from + 1, end);
        let first = piece.first;
        self.push_loop(Planned { first, rest }, piece.extra)?;
        Ok(())
    }

    /// Where the command at the place behind a piece waits as long as the piece's, it joins the piece. Otherwise the piece is pushed, and
    /// the command begins another one.
    fn go_on(
        &mut self,
        first: Command,
        over: Over,
        piece: Piece,
        place: usize,
    ) -> Result<Piece, AllocError>
        requires right { IsRightState self.old.tables self.old.plan }
        requires numbers { IsNumberedCommand (naming_in self.old.tables) first }
        requires fits { IsLoop self.old.tables over first }
        requires piece { IsPiece self.old.plan.rule.mode self.old.tables over first piece place }
        requires within { place < length (numbered_loop self.old.tables over first) }
        ensures piece { IfOk result (λ next. IsPiece self.old.plan.rule.mode self.old.tables over first next (place + 1)) }
        ensures state { IfOk result (λ next. let mode = self.old.plan.rule.mode in let loop = numbered_loop self.old.tables over first
            in with_commands mode (drop next.from loop) (state_in self.new) ≡ with_commands mode (drop piece.from loop)
            (state_in self.old)) }
        ensures stays { OnOk result (StaysRight self.old self.new) }
        ensures tables { self.new.tables ≡ self.old.tables }
    {
        let command = self.tables.command_of(first, over, place)?;
        let extra = self.extra_delay(command);
        if extra == piece.extra {
            return Ok(piece);
        }
        self.push_piece(piece, over, place)?;
        Ok(Piece {
            first: command,
            from: place,
            extra,
        })
    }

    /// Pushes a whole loop, which has so many commands and of which the first one is given.
    pub fn push_whole(&mut self, first: Command, over: Over, count: usize) -> Result<(), AllocError>
        requires right { IsRightState self.old.tables self.old.plan }
        requires numbers { IsNumberedCommand (naming_in self.old.tables) first }
        requires begins { let c = command_at (naming_in self.old.tables) first in BeginsWith c
            (loop_over (without_witnesses self.old.tables.basis.bank) (sources self.old.tables) over c) }
        requires count { count ≡ length (loop_over (without_witnesses self.old.tables.basis.bank) (sources self.old.tables) over
            (command_at (naming_in self.old.tables) first)) }
        requires witnesses { HasWitnesses (sources self.old.tables) over }
        requires signed { IsSigned over (command_at (naming_in self.old.tables) first) }
        ensures state { OnOk result (state_in self.new ≡ with_commands self.old.plan.rule.mode
            (loop_over (without_witnesses self.old.tables.basis.bank) (sources self.old.tables) over
            (command_at (naming_in self.old.tables) first)) (state_in self.old)) }
        ensures stays { OnOk result (StaysRight self.old self.new) }
        ensures tables { self.new.tables ≡ self.old.tables }
    {
        let extra = self.extra_delay(first);
        let mut piece = Piece {
            first,
            from: 0,
            extra,
        };
        for place in even_until(self.plan.mode().defaults, over, count)..count {
            piece = self.go_on(first, over, piece, place)?;
        }
        self.push_piece(piece, over, count)?;
        Ok(())
    }
}
