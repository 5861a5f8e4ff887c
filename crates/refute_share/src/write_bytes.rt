//! Writes bytes and numbers.

ghost use Rattle.std.specs.Prelude.{◌≡◌, ◌++◌, decimal, OnOk, OnErr};
ghost use Rattle.outside.specs.Writing.{Took, Stopped};

use itoa::Buffer;
use outside::{Failed, Sink, write_all_counted, write_pieces};

/// Writes all the bytes.
pub(crate) fn write<S: Sink>(sink: &mut S, bytes: &[u8]) -> Result<(), Failed>
    ensures took { OnOk result (Took S.tells S.written S.faults sink.old sink.new bytes.now) }
    ensures stopped { OnErr result (Stopped S.tells S.written S.faults sink.old sink.new bytes.now) }
{
    write_all_counted(sink, bytes)
}

/// Writes a number between two texts.
pub(crate) fn write_numbered<S: Sink>(
    sink: &mut S,
    before: &[u8],
    number: usize,
    after: &[u8],
) -> Result<(), Failed>
    ensures took { OnOk result (Took S.tells S.written S.faults sink.old sink.new (before.now ++ (decimal number ++ after.now))) }
    ensures stopped { OnErr result (Stopped S.tells S.written S.faults sink.old sink.new (before.now ++ (decimal number ++ after.now))) }
{
    let mut buffer = Buffer::new();
    let digits = buffer.format(number).as_bytes();
    write_pieces(sink, &[before, digits, after])
}
