//! Writes bytes.
ghost use Rattle.std.specs.Prelude.{◌++◌, OnOk, OnErr};
ghost use Rattle.outside.specs.Writing.{Took, Stopped};

use outside::{Failed, Sink, write_all_counted, write_pieces};

/// Writes all the bytes.
pub fn write<S: Sink>(sink: &mut S, bytes: &[u8]) -> Result<(), Failed>
    ensures took { OnOk result (Took S.tells S.written S.faults sink.old sink.new bytes.now) }
    ensures stopped { OnErr result (Stopped S.tells S.written S.faults sink.old sink.new bytes.now) }
{
    write_all_counted(sink, bytes)?;
    Ok(())
}

/// Writes one text between two others.
pub fn write_between<S: Sink>(
    sink: &mut S,
    before: &[u8],
    bytes: &[u8],
    after: &[u8],
) -> Result<(), Failed>
    ensures took { OnOk result (Took S.tells S.written S.faults sink.old sink.new (before.now ++ (bytes.now ++ after.now))) }
    ensures stopped { OnErr result (Stopped S.tells S.written S.faults sink.old sink.new (before.now ++ (bytes.now ++ after.now))) }
{
    write_pieces(sink, &[before, bytes, after])?;
    Ok(())
}
