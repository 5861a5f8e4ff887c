// A sink that keeps nothing.
ghost use Rattle.std.specs.Prelude.{◌≡◌, [], length, false, Ok};

use crate::{Failed, Sink};

/// A sink that takes every piece whole, and tells nothing. No call fails.
#[derive(Clone, Copy, Default)]
pub struct DropSink;

impl Sink for DropSink {
    ghost tells = { λ s. false };

    ghost written = { λ s. [] };

    ghost faults = { λ s. 0 };

    fn write(&mut self, bytes: &[u8]) -> Result<usize, Failed>
        ensures whole { result ≡ Ok (length bytes.now) }
    {
        Ok(bytes.len())
    }
}
