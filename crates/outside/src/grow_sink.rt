// A sink in memory that grows.
ghost use Rattle.std.specs.Prelude.{◌≡◌, ◌≤◌, ◌++◌, [], length, true, IfOk, OnOk, OnErr, IsTrue};
ghost use Rattle.outside.specs.Causes.{next_count};

use crate::{Bytes, Failed, Sink};
use std::alloc::Global;
use std::marker::Model;

/// A sink that takes every piece whole. Where it finds no memory, it fails.
#[derive(Drop)]
pub struct GrowSink {
    bytes: Bytes,
    faults: u64,
}

impl Model for GrowSink {
    ghost use Rattle.outside.specs.GrowSink.{GrowSinkState};

    ghost Value = { GrowSinkState };

    ghost view = { λ s. record { bytes = s.bytes; faults = s.faults } };
}

impl GrowSink {
    pub fn new(alloc: Global) -> Self
        ensures told { IsTrue (⟦<GrowSink as Sink>⟧.tells result) }
        ensures empty { ⟦<GrowSink as Sink>⟧.written result ≡ [] }
        ensures faults { ⟦<GrowSink as Sink>⟧.faults result ≡ 0 }
    {
        GrowSink {
            bytes: Bytes::new(alloc),
            faults: 0,
        }
    }

    /// The bytes written so far.
    pub fn bytes(&self) -> &[u8]
        ensures { result.now ≡ ⟦<GrowSink as Sink>⟧.written self.now }
    {
        self.bytes.as_slice()
    }

    /// The bytes written, as one's own.
    pub fn into_bytes(self) -> Bytes
        ensures { result ≡ ⟦<GrowSink as Sink>⟧.written self }
    {
        self.bytes
    }
}

impl Sink for GrowSink {
    ghost tells = { λ s. true };

    ghost written = { λ s. s.bytes };

    ghost faults = { λ s. s.faults };

    fn write(&mut self, bytes: &[u8]) -> Result<usize, Failed>
        ensures whole { IfOk result (λ n. n ≡ length bytes.now) }
        ensures taken { OnOk result (self.new
            ≡ record self.old { bytes = self.old.bytes ++ bytes.now }) }
        ensures kept { OnErr result (self.new
            ≡ record self.old { faults = next_count self.old.faults }) }
        ensures later { self.old.faults ≤ self.new.faults }
    {
        if self.bytes.extend_from_slice(bytes).is_err() {
            self.faults = self.faults.saturating_add(1);
            return Err(Failed);
        }
        Ok(bytes.len())
    }
}
