// A sink in memory with a fixed room.
ghost use Rattle.std.specs.Prelude.{◌≡◌, ◌≤◌, ◌<◌, ◌-◌, ◌⊎◌, ◌++◌, [], length, min, take, true, IfOk, OnErr, IsErr, IsTrue, Contains, ◌↔◌};
ghost use Rattle.outside.specs.Causes.{next_count};

use crate::failing_calls::FailingCalls;
use crate::{CallList, Failed, Sink};
use std::alloc::{AllocError, Global};
use std::marker::Model;

/// A sink with room for so many bytes. It also fails at the calls whose numbers are listed, counted
/// from 0.
#[derive(Drop)]
pub struct MemSink {
    bytes: Vec<u8>,
    room: usize,
    calls: FailingCalls,
    faults: u64,
}

impl Model for MemSink {
    ghost use Rattle.std.specs.Prelude.{◌≤◌, length, vec_capacity};
    ghost use Rattle.outside.specs.MemSink.{MemSinkState};

    ghost Value = { MemSinkState };

    ghost view = { λ s. record {
      bytes = s.bytes.items;
      room = s.room;
      fails = s.calls.fails;
      calls = s.calls.made;
      faults = s.faults;
    } };

    ghost invariant = { λ s. (length s.bytes.items ≤ s.room) × (s.room ≤ vec_capacity s.bytes) };
}

impl MemSink {
    /// Takes the memory of all its room at once.
    pub fn new(alloc: Global, room: usize, fails: CallList) -> Result<MemSink, AllocError>
        ensures room { IfOk result (λ s. s.room ≡ room) }
        ensures fails { IfOk result (λ s. s.fails ≡ fails) }
        ensures calls { IfOk result (λ s. s.calls ≡ 0) }
        ensures told { IfOk result (λ s. IsTrue (⟦<MemSink as Sink>⟧.tells s)) }
        ensures empty { IfOk result (λ s. ⟦<MemSink as Sink>⟧.written s ≡ []) }
        ensures faults { IfOk result (λ s. ⟦<MemSink as Sink>⟧.faults s ≡ 0) }
    {
        Ok(MemSink {
            bytes: Vec::with_capacity(alloc, room)?,
            room,
            calls: FailingCalls::new(fails),
            faults: 0,
        })
    }

    /// The bytes written so far.
    pub fn bytes(&self) -> &[u8]
        ensures { result.now ≡ ⟦<MemSink as Sink>⟧.written self.now }
    {
        &self.bytes
    }
}

impl Sink for MemSink {
    ghost tells = { λ s. true };

    ghost written = { λ s. s.bytes };

    ghost faults = { λ s. s.faults };

    fn write(&mut self, bytes: &[u8]) -> Result<usize, Failed>
        requires { 0 < length bytes.now }
        ensures refused { IsErr result
            ↔ (Contains self.old.fails self.old.calls ⊎ (self.old.room ≤ length self.old.bytes)) }
        ensures count { IfOk result (λ n.
            n ≡ min (length bytes.now) (self.old.room - length self.old.bytes)) }
        ensures taken { IfOk result (λ n. self.new ≡ record self.old {
          bytes = self.old.bytes ++ take n bytes.now;
          calls = next_count self.old.calls;
        }) }
        ensures kept { OnErr result (self.new ≡ record self.old {
          calls = next_count self.old.calls;
          faults = next_count self.old.faults;
        }) }
        ensures later { self.old.faults ≤ self.new.faults }
    {
        let count = bytes.len().min(self.room - self.bytes.len());
        if self.calls.next_fails() || count == 0 {
            self.faults = self.faults.saturating_add(1);
            return Err(Failed);
        }
        self.bytes.extend_from_slice(&bytes[..count]).unwrap();
        Ok(count)
    }
}
