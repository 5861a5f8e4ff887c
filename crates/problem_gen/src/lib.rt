//! Problems of any size: chains of implications between predicates, from the first to the last.
#![tactic(auto)]

ghost use Rattle.std.specs.Prelude.{◌≡◌, ◌≤◌, ◌<◌, ◌++◌, length, OnOk, OnErr, IsTrue};
ghost use Rattle.outside.specs.Causes.{Rose};
ghost use Rattle.outside.specs.Prefix.{AppendsProperly};
ghost use Rattle.problem_gen.specs.Chain.{text};

mod lengths;
mod write;

use outside::{Failed, Sink};

/// Writes the problem of a number, in THF.
pub fn make<S: Sink>(n: u32, sink: &mut S) -> Result<(), Failed>
    requires some { 0 < n }
    requires limit { n ≤ 1000 }
    ensures appended { OnOk result (IsTrue (S.tells sink.old)
        → S.written sink.new ≡ S.written sink.old ++ text n) }
    ensures failed { OnErr result (IsTrue (S.tells sink.old)
        → AppendsProperly (S.written sink.old) (S.written sink.new) (text n)) }
    ensures cause { OnErr result (Rose (S.faults sink.old) (S.faults sink.new)) }
    ensures later { S.faults sink.old ≤ S.faults sink.new }
    ensures telling { IsTrue (S.tells sink.old) → IsTrue (S.tells sink.new) }
{
    write::write_problem(n, sink)
}

/// How many bytes the problem of a number has.
pub fn length(n: u32) -> usize
    requires some { 0 < n }
    requires limit { n ≤ 1000 }
    ensures { result ≡ length (text n) }
{
    lengths::problem_length(n)
}
