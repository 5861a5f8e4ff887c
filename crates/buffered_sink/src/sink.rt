//! The sink with its buffer.

ghost use Rattle.std.specs.Prelude.{◌≡◌, ◌≤◌, ◌++◌, [], drop, length, OnOk, OnErr, IsTrue};
ghost use Rattle.outside.specs.Causes.{Rose};
ghost use Rattle.outside.specs.Prefix.{AppendsProperly};

use crate::hand_on::hand_on;
use arrayvec::ArrayVec;
use outside::{Failed, Sink};
use std::marker::Model;

/// Gathers bytes, and hands them on to a sink 16,384 at a time. What it holds at the end goes on by `flush` alone. It takes no memory but
/// its own.
#[derive(Drop)]
pub struct BufferedSink<S: Sink> {
    sink: S,
    held: ArrayVec<u8, 16_384>,
}

impl<S: Sink> Model for BufferedSink<S> {
    ghost use Rattle.buffered_sink.specs.Buffered.{Buffered};

    ghost Value = { Buffered S };

    ghost view = { λ b. record { sink = b.sink; held = b.held.items } };
}

impl<S: Sink> BufferedSink<S> {
    pub fn new(sink: S) -> BufferedSink<S>
        ensures sink { result.sink ≡ sink }
        ensures empty { result.held ≡ [] }
    {
        BufferedSink {
            sink,
            held: ArrayVec::new(),
        }
    }

    /// The sink to which bytes are handed on.
    pub fn get_ref(&self) -> &S
        ensures { result.now ≡ self.now.sink }
    {
        &self.sink
    }

    /// Hands on all that is held. Where that fails, what isn't handed on is still held.
    #[inline(never)]
    pub fn flush(&mut self) -> Result<(), Failed>
        ensures appended { OnOk result (IsTrue (S.tells self.old.sink)
            → S.written self.new.sink ≡ S.written self.old.sink ++ self.old.held) }
        ensures failed { OnErr result (IsTrue (S.tells self.old.sink)
            → AppendsProperly (S.written self.old.sink) (S.written self.new.sink) self.old.held) }
        ensures empty { OnOk result (self.new.held ≡ []) }
        ensures same { IsTrue (S.tells self.old.sink)
            → S.written self.new.sink ++ self.new.held ≡ S.written self.old.sink ++ self.old.held }
        ensures quiet { OnOk result (S.faults self.new.sink ≡ S.faults self.old.sink) }
        ensures cause { OnErr result (Rose (S.faults self.old.sink) (S.faults self.new.sink)) }
        ensures later { S.faults self.old.sink ≤ S.faults self.new.sink }
        ensures telling { IsTrue (S.tells self.old.sink) → IsTrue (S.tells self.new.sink) }
    {
        let (done, result) = hand_on(&mut self.sink, self.held.as_slice());
        self.let_go(done);
        result
    }

    /// Drops so many bytes from the front.
    fn let_go(&mut self, done: usize)
        requires { done ≤ length self.old.held }
        ensures sink { self.new.sink ≡ self.old.sink }
        ensures rest { self.new.held ≡ drop done self.old.held }
    {
        if done == self.held.len() {
            self.held.clear();
        } else {
            self.keep_from(done);
        }
    }

    /// Holds the rest alone. This is a call of its own, so that only what needs a second buffer makes one.
    #[inline(never)]
    fn keep_from(&mut self, done: usize)
        requires { done ≤ length self.old.held }
        ensures sink { self.new.sink ≡ self.old.sink }
        ensures rest { self.new.held ≡ drop done self.old.held }
    {
        let mut rest = ArrayVec::new();
        let left = &self.held.as_slice()[done..];
        if rest.try_extend_from_slice(left).is_err() {
            unreachable!();
        }
        self.held = rest;
    }
}

impl<S: Sink> Sink for BufferedSink<S> {
    ghost tells = { λ b. S.tells b.sink };

    ghost written = { λ b. S.written b.sink ++ b.held };

    ghost faults = { λ b. S.faults b.sink };

    fn write(&mut self, bytes: &[u8]) -> Result<usize, Failed> {
        if self.held.try_extend_from_slice(bytes).is_ok() {
            return Ok(bytes.len());
        }
        if self.held.is_full() {
            self.flush()?;
        }
        let count = bytes.len().min(self.held.remaining_capacity());
        if self.held.try_extend_from_slice(&bytes[..count]).is_err() {
            unreachable!();
        }
        Ok(count)
    }
}
