// Writes whole pieces.
ghost use Rattle.std.specs.Prelude.{◌≡◌, ◌≤◌, ◌++◌, OnOk, OnErr, IsTrue};
ghost use Rattle.std.specs.List.{flat_map};
ghost use Rattle.outside.specs.Causes.{Rose};
ghost use Rattle.outside.specs.Prefix.{AppendsProperly};

use crate::{Failed, Sink};

/// Writes all the bytes, in as many writes as the sink asks for.
pub fn write_all_counted<S: Sink>(sink: &mut S, bytes: &[u8]) -> Result<(), Failed>
    ensures appended { OnOk result (IsTrue (S.tells sink.old)
        → S.written sink.new ≡ S.written sink.old ++ bytes.now) }
    ensures failed { OnErr result (IsTrue (S.tells sink.old)
        → AppendsProperly (S.written sink.old) (S.written sink.new) bytes.now) }
    ensures quiet { OnOk result (S.faults sink.new ≡ S.faults sink.old) }
    ensures cause { OnErr result (Rose (S.faults sink.old) (S.faults sink.new)) }
    ensures later { S.faults sink.old ≤ S.faults sink.new }
    ensures telling { IsTrue (S.tells sink.old) → IsTrue (S.tells sink.new) }
{
    let mut done = 0;
    while done < bytes.len() {
        done += sink.write(&bytes[done..])?;
    }
    Ok(())
}

/// Writes all the bytes of the pieces, one piece after another.
pub fn write_pieces<S: Sink>(sink: &mut S, pieces: &[&[u8]]) -> Result<(), Failed>
    ensures appended { OnOk result (IsTrue (S.tells sink.old)
        → S.written sink.new ≡ S.written sink.old ++ flat_map (λ piece. piece.now) pieces.now) }
    ensures failed { OnErr result (IsTrue (S.tells sink.old)
        → AppendsProperly (S.written sink.old) (S.written sink.new)
        (flat_map (λ piece. piece.now) pieces.now)) }
    ensures quiet { OnOk result (S.faults sink.new ≡ S.faults sink.old) }
    ensures cause { OnErr result (Rose (S.faults sink.old) (S.faults sink.new)) }
    ensures later { S.faults sink.old ≤ S.faults sink.new }
    ensures telling { IsTrue (S.tells sink.old) → IsTrue (S.tells sink.new) }
{
    for piece in pieces {
        match write_all_counted(sink, piece) {
            Ok(()) => {}
            Err(Failed) => return Err(Failed),
        }
    }
    Ok(())
}
