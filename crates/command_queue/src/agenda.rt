//! The agenda.
ghost use Rattle.std.specs.Prelude.{◌≡◌, ◌≢◌, ◌<◌, ◌≤◌, ◌+◌, ◌^◌, [], length, IsTrue, ◌↔◌, IsOk, OnOk, OnErr, IsNone, IfNone, IfSome};
ghost use Rattle.std.specs.List.{All};
ghost use Rattle.command_queue.specs.Queue.{AddsEntry, AddsEntryAt, TakesEntry, TakesFirst, GainsRoom, AreNumbered};

use crate::bag::Bag;
use crate::entry::Entry;
use crate::rule::{DueRule, Weigher};
use std::alloc::{AllocError, Global};
use std::marker::Model;

/// Commands with their due numbers, in the order in which they leave. The weigher is kept beside the fact that it
/// answers the rule's due number, for every command and every moment below 2^32.
#[derive(Drop)]
pub struct Agenda<C, R: DueRule<C>, W: Weigher<C>> {
    bag: Bag<C>,
    pushes: u64,
    rule: R,
    weigher: W,
}

impl<C, R: DueRule<C>, W: Weigher<C>> Model for Agenda<C, R, W> {
    ghost use Rattle.command_queue.specs.Queue.{Queue};
    ghost use Rattle.command_queue.specs.Internal.Inside.{entries_in_order, HoldsPushed};

    ghost Value = { Queue C R };

    ghost view = { λ a. record {
      rule = a.rule;
      entries = entries_in_order a.bag.items;
      pushes = a.pushes;
      spare = a.bag.spare;
    } };

    ghost invariant = { λ a. HoldsPushed a.bag.items a.pushes
        × W.is_callable a.weigher × W.answers a.weigher (R.due a.rule) };
}

impl<C: Drop, R: DueRule<C>, W: Weigher<C>> Agenda<C, R, W> {
    /// An agenda without commands.
    pub fn new(alloc: Global, rule: R, weigher: W) -> Self
        requires callable { W.is_callable weigher }
        requires answers { W.answers weigher (R.due rule) }
        ensures empty { result.entries ≡ [] }
        ensures pushes { result.pushes ≡ 0 }
        ensures rule { result.rule ≡ rule }
    {
        Agenda {
            bag: Bag::new(alloc),
            pushes: 0,
            rule,
            weigher,
        }
    }

    /// Pushes a command at a moment. Where there is no memory, the command is dropped.
    pub fn push(&mut self, command: C, now: u64) -> Result<(), AllocError>
        requires moment { now < 2 ^ 32 }
        requires count { self.old.pushes + 1 < 2 ^ 64 }
        ensures ok { OnOk result (AddsEntry self.old self.new 1 (R.due self.old.rule command now) command) }
        ensures err { OnErr result (self.new ≡ self.old) }
        ensures succeeds { 0 < self.old.spare → IsOk result }
    {
        self.push_first(command, now, 1)
    }

    /// Pushes the first of so many commands at a moment, and takes the numbers of them all. The others may follow by
    /// `push_at`. Where there is no memory, the command is dropped.
    pub fn push_first(&mut self, command: C, now: u64, numbers: u64) -> Result<(), AllocError>
        requires moment { now < 2 ^ 32 }
        requires some { 0 < numbers }
        requires count { self.old.pushes + numbers < 2 ^ 64 }
        ensures ok { OnOk result (AddsEntry self.old self.new numbers (R.due self.old.rule command now) command) }
        ensures err { OnErr result (self.new ≡ self.old) }
        ensures succeeds { 0 < self.old.spare → IsOk result }
    {
        let due = self.weigher.weigh(&command, now);
        let number = self.pushes;
        self.bag.add(Entry {
            due,
            number,
            command,
        })?;
        self.pushes += numbers;
        Ok(())
    }

    /// Puts an entry at the place of its number, which was taken and is free. Where there is no memory, the entry is
    /// dropped.
    pub fn push_at(&mut self, entry: Entry<C>) -> Result<(), AllocError>
        requires taken { entry.number < self.old.pushes }
        requires free { All (λ e. e.number ≢ entry.number) self.old.entries }
        ensures ok { OnOk result (AddsEntryAt self.old self.new entry) }
        ensures err { OnErr result (self.new ≡ self.old) }
        ensures succeeds { 0 < self.old.spare → IsOk result }
    {
        self.bag.add_likely(entry)?;
        Ok(())
    }

    /// Takes the command with the least due number, and of these the one with the least number.
    pub fn pop(&mut self) -> Option<C>
        ensures empty { IsNone result ↔ (self.old.entries ≡ []) }
        ensures none { IfNone result (self.new ≡ self.old) }
        ensures first { IfSome result (TakesFirst self.old self.new) }
    {
        let entry = self.pop_entry()?;
        Some(entry.command)
    }

    /// The same, with its due number and its number.
    pub fn pop_entry(&mut self) -> Option<Entry<C>>
        ensures empty { IsNone result ↔ (self.old.entries ≡ []) }
        ensures none { IfNone result (self.new ≡ self.old) }
        ensures first { IfSome result (TakesEntry self.old self.new) }
    {
        let entry = self.bag.take_first()?;
        Some(entry)
    }

    pub fn len(&self) -> usize
        ensures len { result ≡ length self.now.entries }
        ensures numbered { AreNumbered self.now.entries self.now.pushes }
    {
        self.bag.len()
    }

    pub fn is_empty(&self) -> bool
        ensures { IsTrue result ↔ (self.now.entries ≡ []) }
    {
        self.len() == 0
    }

    /// By which rule commands are due.
    pub fn rule(&self) -> &R
        ensures { result.now ≡ self.now.rule }
    {
        &self.rule
    }

    /// How many numbers were taken so far.
    pub fn pushes(&self) -> u64
        ensures { result ≡ self.now.pushes }
    {
        self.pushes
    }

    /// For how many entries there is room.
    pub fn spare(&self) -> usize
        ensures { result ≡ self.now.spare }
    {
        self.bag.spare()
    }

    /// Makes room for so many entries, beside those that are there.
    pub fn reserve(&mut self, n: usize) -> Result<(), AllocError>
        ensures ok { OnOk result (n ≤ self.new.spare) }
        ensures err { OnErr result (self.new ≡ self.old) }
        ensures same { GainsRoom self.old self.new }
        ensures succeeds { n ≤ self.old.spare → IsOk result }
    {
        self.bag.make_room(n)
    }
}
