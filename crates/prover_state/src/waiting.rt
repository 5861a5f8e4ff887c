//! Commands that wait, in little room.
ghost use Rattle.std.specs.Prelude.{◌≡◌, true, None, Some, IfOk};
ghost use Rattle.prover_state.specs.Internal.Waiting.{literal_by, command_by, over_by, rest_by};

use crate::command::{Command, Over, Planned, Rest};
use crate::fitting::small;
use sat_base::{SatLit, Var};
use std::alloc::AllocError;
use std::marker::Model;

/// Which command waits.
#[derive(Clone, Copy)]
pub(crate) enum Kind {
    Process,
    Mate,
    Confront,
    Inst,
    Grow,
    Choose,
    Describe,
}

/// Over what its loop goes, where it is one of a loop.
#[derive(Clone, Copy)]
pub(crate) enum Along {
    Nothing,
    Terms,
    Universals,
    Negatives,
    Positives,
    Heads,
    Parked,
}

/// A command with the later ones of its loop, whose numbers have 32 bits. A number that isn't a literal's stands as that of a positive
/// one.
#[derive(Drop)]
pub struct Waiting {
    kind: Kind,
    along: Along,
    first_positive: bool,
    second_positive: bool,
    first: u32,
    second: u32,
    witnesses: u32,
    next: u32,
    end: u32,
}

impl Model for Waiting {
    ghost use Rattle.prover_state.specs.Internal.Waiting.{literal_by, command_by, over_by, rest_by};
    ghost use Rattle.prover_state.specs.declared.command.Planned.{Planned};

    ghost Value = { Planned };

    ghost view = { λ w. record {
      first = command_by w.kind (literal_by w.first w.first_positive) (literal_by w.second w.second_positive);
      rest = rest_by (over_by w.along w.witnesses) w.next w.end;
    } };
}

/// A number in the place of a literal.
fn plain(n: usize) -> SatLit
    ensures { result ≡ literal_by n true }
{
    SatLit {
        var: Var(n),
        positive: true,
    }
}

/// The literal of a variable's number, with a sign.
fn literal(n: u32, positive: bool) -> SatLit
    ensures { result ≡ literal_by n positive }
{
    SatLit {
        var: Var(n as usize),
        positive,
    }
}

/// Over what a loop goes, with so many witnesses.
fn over(along: Along, witnesses: u32) -> Option<Over>
    ensures { result ≡ over_by along witnesses }
{
    match along {
        Along::Nothing => None,
        Along::Terms => Some(Over::Terms),
        Along::Universals => Some(Over::Universals),
        Along::Negatives => Some(Over::Negatives),
        Along::Positives => Some(Over::Positives),
        Along::Heads => Some(Over::Heads {
            witnesses: witnesses as usize,
        }),
        Along::Parked => Some(Over::Parked),
    }
}

impl Waiting {
    /// A command that isn't one of a loop.
    fn alone(kind: Kind, first: SatLit, second: SatLit) -> Result<Waiting, AllocError>
        ensures { IfOk result (λ w. w ≡ record { first = command_by kind first second; rest = None }) }
    {
        Ok(Waiting {
            kind,
            along: Along::Nothing,
            first_positive: first.positive,
            second_positive: second.positive,
            first: small(first.var.0)?,
            second: small(second.var.0)?,
            witnesses: 0,
            next: 0,
            end: 0,
        })
    }

    fn of_command(command: Command) -> Result<Waiting, AllocError>
        ensures { IfOk result (λ w. w ≡ record { first = command; rest = None }) }
    {
        match command {
            Command::Process(lit) => Ok(Waiting::alone(Kind::Process, lit, plain(0))?),
            Command::Mate(lit, partner) => Ok(Waiting::alone(Kind::Mate, lit, partner)?),
            Command::Confront(lit, partner) => Ok(Waiting::alone(Kind::Confront, lit, partner)?),
            Command::Inst(lit, id) => Ok(Waiting::alone(Kind::Inst, lit, plain(id as usize))?),
            Command::Grow(p, h) => Ok(Waiting::alone(Kind::Grow, plain(p), plain(h))?),
            Command::Choose(id) => Ok(Waiting::alone(Kind::Choose, plain(id as usize), plain(0))?),
            Command::Describe(id) => Ok(Waiting::alone(
                Kind::Describe,
                plain(id as usize),
                plain(0),
            )?),
        }
    }

    /// The same command, with what is left of its loop between two places.
    fn between(
        self,
        along: Along,
        witnesses: usize,
        next: usize,
        end: usize,
    ) -> Result<Waiting, AllocError>
        ensures { IfOk result (λ w. w ≡ record { first = self.first; rest = rest_by (over_by along witnesses) next end }) }
    {
        Ok(Waiting {
            kind: self.kind,
            along,
            first_positive: self.first_positive,
            second_positive: self.second_positive,
            first: self.first,
            second: self.second,
            witnesses: small(witnesses)?,
            next: small(next)?,
            end: small(end)?,
        })
    }

    /// The same command, with what is left of its loop.
    fn with_rest(self, rest: Rest) -> Result<Waiting, AllocError>
        ensures { IfOk result (λ w. w ≡ record { first = self.first; rest = Some rest }) }
    {
        let Rest { over, next, end } = rest;
        match over {
            Over::Terms => Ok(self.between(Along::Terms, 0, next, end)?),
            Over::Universals => Ok(self.between(Along::Universals, 0, next, end)?),
            Over::Negatives => Ok(self.between(Along::Negatives, 0, next, end)?),
            Over::Positives => Ok(self.between(Along::Positives, 0, next, end)?),
            Over::Heads { witnesses } => Ok(self.between(Along::Heads, witnesses, next, end)?),
            Over::Parked => Ok(self.between(Along::Parked, 0, next, end)?),
        }
    }

    /// A command with the later ones of its loop. Where one of their numbers has more than 32 bits, there is no memory.
    pub(crate) fn of(planned: Planned) -> Result<Waiting, AllocError>
        ensures { IfOk result (λ w. w ≡ planned) }
    {
        let waiting = Waiting::of_command(planned.first)?;
        match planned.rest {
            Some(rest) => Ok(waiting.with_rest(rest)?),
            None => Ok(waiting),
        }
    }

    /// The command.
    pub fn command(&self) -> Command
        ensures { result ≡ self.now.first }
    {
        let first = literal(self.first, self.first_positive);
        let second = literal(self.second, self.second_positive);
        match self.kind {
            Kind::Process => Command::Process(first),
            Kind::Mate => Command::Mate(first, second),
            Kind::Confront => Command::Confront(first, second),
            Kind::Inst => Command::Inst(first, self.second),
            Kind::Grow => Command::Grow(first.var.0, second.var.0),
            Kind::Choose => Command::Choose(self.first),
            Kind::Describe => Command::Describe(self.first),
        }
    }

    /// What is left of its loop.
    fn rest(&self) -> Option<Rest>
        ensures { result ≡ self.now.rest }
    {
        match over(self.along, self.witnesses) {
            Some(over) => Some(Rest {
                over,
                next: self.next as usize,
                end: self.end as usize,
            }),
            None => None,
        }
    }

    /// The command with the later ones of its loop.
    pub(crate) fn planned(&self) -> Planned
        ensures { result ≡ self.now }
    {
        Planned {
            first: self.command(),
            rest: self.rest(),
        }
    }
}
