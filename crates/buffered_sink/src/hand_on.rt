//! Hands bytes on to a sink.

ghost use Rattle.std.specs.Prelude.{◌≡◌, ◌≤◌, ◌<◌, ◌++◌, length, take, OnOk, OnErr, IsTrue};
ghost use Rattle.outside.specs.Causes.{Rose};

use outside::{Failed, Sink};

/// Writes the bytes until all are written or a write fails, and counts those that are written.
pub(crate) fn hand_on<S: Sink>(sink: &mut S, bytes: &[u8]) -> (usize, Result<(), Failed>)
    ensures bound { result.0 ≤ length bytes.now }
    ensures all { OnOk result.1 (result.0 ≡ length bytes.now) }
    ensures some { OnErr result.1 (result.0 < length bytes.now) }
    ensures appended { IsTrue (S.tells sink.old)
        → S.written sink.new ≡ S.written sink.old ++ take result.0 bytes.now }
    ensures quiet { OnOk result.1 (S.faults sink.new ≡ S.faults sink.old) }
    ensures cause { OnErr result.1 (Rose (S.faults sink.old) (S.faults sink.new)) }
    ensures later { S.faults sink.old ≤ S.faults sink.new }
    ensures telling { IsTrue (S.tells sink.old) → IsTrue (S.tells sink.new) }
{
    let mut done = 0;
    while done < bytes.len() {
        match sink.write(&bytes[done..]) {
            Ok(count) => done += count,
            Err(Failed) => return (done, Err(Failed)),
        }
    }
    (done, Ok(()))
}
