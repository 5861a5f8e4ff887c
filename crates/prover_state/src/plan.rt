//! The commands that wait.
ghost use Rattle.std.specs.Prelude.{◌≡◌, ◌<◌, ◌≤◌, ◌+◌, ◌^◌, [], suc, ◌↔◌, IsTrue, OnOk, OnErr, IfOk, IsNone, IfNone, IfSome};
ghost use Rattle.command_queue.specs.Queue.{AddsEntry, AddsEntryAt, TakesEntry, GainsRoom};
ghost use Rattle.tableau_calculus.specs.Each.{Each};
ghost use Rattle.prover_state.specs.Delays.{delay_by};
ghost use Rattle.prover_state.specs.Internal.Pending.{span, AreSpaced, EndsBelow, IsApart};

use crate::command::{Delays, Planned};
use crate::waiting::Waiting;
use command_queue::{Agenda, Entry, Weigher};
use mode_file::Mode;
use std::alloc::{AllocError, Global};
use std::marker::Model;

/// The commands that wait. Of a loop the first one waits in the agenda with what is left of the loop.
#[derive(Drop)]
pub struct Plan<W: Weigher<Waiting>> {
    agenda: Agenda<Waiting, Delays, W>,
}

impl<W: Weigher<Waiting>> Model for Plan<W> {
    ghost use Rattle.command_queue.specs.Queue.{Queue};
    ghost use Rattle.prover_state.specs.Internal.Pending.{AreSpaced};
    ghost use Rattle.prover_state.specs.declared.command.Planned.{Planned};
    ghost use Rattle.prover_state.specs.declared.command.Delays.{Delays};

    ghost Value = { Queue Planned Delays };

    ghost view = { λ p. p.agenda };

    ghost invariant = { λ p. AreSpaced p.agenda.entries p.agenda.pushes };
}

impl<W: Weigher<Waiting>> Plan<W> {
    /// A plan without commands, by a mode.
    pub fn new(alloc: Global, mode: Mode, weigher: W) -> Self
        requires callable { W.is_callable weigher }
        requires answers { W.answers weigher (λ waiting now. now + delay_by mode waiting.first) }
        ensures empty { result.entries ≡ [] }
        ensures pushes { result.pushes ≡ 0 }
        ensures mode { result.rule.mode ≡ mode }
    {
        Plan {
            agenda: Agenda::new(alloc, Delays { mode }, weigher),
        }
    }

    /// Pushes a command at a moment, with the later ones of its loop. Where the numbers of pushes end, there is no memory.
    pub fn push(&mut self, planned: Planned, now: u64) -> Result<(), AllocError>
        requires moment { now < 2 ^ 32 }
        ensures ok { OnOk result (AddsEntry self.old self.new (suc (span planned)) (now + delay_by self.old.rule.mode planned.first)
            planned) }
        ensures err { OnErr result (self.new ≡ self.old) }
    {
        let numbers = one_more(planned.len(), self.agenda.pushes())?;
        let waiting = Waiting::of(planned)?;
        self.agenda.push_first(waiting, now, numbers)?;
        Ok(())
    }

    /// Takes the command that is next, with the later ones of its loop.
    pub fn pop(&mut self) -> Option<Entry<Planned>>
        ensures empty { IsNone result ↔ (self.old.entries ≡ []) }
        ensures none { IfNone result (self.new ≡ self.old) }
        ensures first { IfSome result (TakesEntry self.old self.new) }
        ensures spaced { AreSpaced self.old.entries self.old.pushes }
    {
        let entry = self.agenda.pop_entry()?;
        Some(Entry {
            due: entry.due,
            number: entry.number,
            command: entry.command.planned(),
        })
    }

    /// Puts commands that were pushed before in their place.
    pub fn put_back(&mut self, entry: Entry<Planned>) -> Result<(), AllocError>
        requires taken { EndsBelow self.old.pushes entry }
        requires apart { Each (IsApart entry) self.old.entries }
        ensures ok { OnOk result (AddsEntryAt self.old self.new entry) }
        ensures err { OnErr result (self.new ≡ self.old) }
    {
        let waiting = Waiting::of(entry.command)?;
        self.agenda.push_at(Entry {
            due: entry.due,
            number: entry.number,
            command: waiting,
        })?;
        Ok(())
    }

    /// Makes room for so many entries, beside those that are there.
    pub fn reserve(&mut self, n: usize) -> Result<(), AllocError>
        ensures room { OnOk result (n ≤ self.new.spare) }
        ensures same { GainsRoom self.old self.new }
    {
        self.agenda.reserve(n)
    }

    /// The mode.
    pub fn mode(&self) -> Mode
        ensures { result ≡ self.now.rule.mode }
    {
        self.agenda.rule().mode
    }

    /// How many commands were pushed so far.
    pub fn pushes(&self) -> u64
        ensures { result ≡ self.now.pushes }
    {
        self.agenda.pushes()
    }

    pub fn is_empty(&self) -> bool
        ensures { IsTrue result ↔ (self.now.entries ≡ []) }
    {
        self.agenda.is_empty()
    }
}

/// One more than a number, where so many pushes can be counted beside those before.
fn one_more(later: u64, pushes: u64) -> Result<u64, AllocError>
    ensures number { IfOk result (λ n. n ≡ suc later) }
    ensures counted { IfOk result (λ n. pushes + n < 2 ^ 64) }
{
    if later >= u64::MAX - pushes {
        return Err(AllocError);
    }
    Ok(later + 1)
}
