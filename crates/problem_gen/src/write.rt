//! Writes problems.
ghost use Rattle.std.specs.Prelude.{◌≡◌, ◌≤◌, ◌++◌, ◌+◌, OnOk, OnErr};
ghost use Rattle.problem_gen.specs.Chain.{predicate_letter, implication, goal, lines_below, text};
ghost use Rattle.outside.specs.Writing.{Took, Stopped};

use itoa::Buffer;
use outside::{Failed, Sink, write_all_counted, write_pieces};

fn write<S: Sink>(sink: &mut S, bytes: &[u8]) -> Result<(), Failed>
    ensures took { OnOk result (Took S.tells S.written S.faults sink.old sink.new bytes.now) }
    ensures stopped { OnErr result (Stopped S.tells S.written S.faults sink.old sink.new bytes.now) }
{
    write_all_counted(sink, bytes)?;
    Ok(())
}

fn write_predicate<S: Sink>(k: u32, sink: &mut S) -> Result<(), Failed>
    ensures took { OnOk result (Took S.tells S.written S.faults sink.old sink.new (predicate_letter k)) }
    ensures stopped { OnErr result (Stopped S.tells S.written S.faults sink.old sink.new (predicate_letter k)) }
{
    let mut buffer = Buffer::new();
    let digits = buffer.format(k).as_bytes();
    write_pieces(
        sink,
        &[b"thf(p", digits, b"_type,type,p", digits, b": $i > $o).\n"],
    )?;
    Ok(())
}

fn write_implication<S: Sink>(j: u32, sink: &mut S) -> Result<(), Failed>
    requires { j ≤ 1000 }
    ensures took { OnOk result (Took S.tells S.written S.faults sink.old sink.new (implication j)) }
    ensures stopped { OnErr result (Stopped S.tells S.written S.faults sink.old sink.new (implication j)) }
{
    let mut first = Buffer::new();
    let mut second = Buffer::new();
    let from = first.format(j).as_bytes();
    let to = second.format(j + 1).as_bytes();
    write_pieces(
        sink,
        &[
            b"thf(a",
            to,
            b",axiom,( ( p",
            from,
            b" @ c ) => ( ( ^ [X:$i] : ( p",
            to,
            b" @ X ) ) @ c ) )).\n",
        ],
    )?;
    Ok(())
}

fn write_goal<S: Sink>(n: u32, sink: &mut S) -> Result<(), Failed>
    ensures took { OnOk result (Took S.tells S.written S.faults sink.old sink.new (goal n)) }
    ensures stopped { OnErr result (Stopped S.tells S.written S.faults sink.old sink.new (goal n)) }
{
    let mut buffer = Buffer::new();
    let digits = buffer.format(n).as_bytes();
    write_pieces(sink, &[b"thf(goal,conjecture,( p", digits, b" @ c )).\n"])?;
    Ok(())
}

fn write_predicates<S: Sink>(end: u32, sink: &mut S) -> Result<(), Failed>
    ensures took { OnOk result (Took S.tells S.written S.faults sink.old sink.new (lines_below predicate_letter end)) }
    ensures stopped { OnErr result (Stopped S.tells S.written S.faults sink.old sink.new (lines_below predicate_letter end)) }
{
    for k in 0..end {
        write_predicate(k, sink)?;
    }
    Ok(())
}

fn write_implications<S: Sink>(end: u32, sink: &mut S) -> Result<(), Failed>
    requires { end ≤ 1000 }
    ensures took { OnOk result (Took S.tells S.written S.faults sink.old sink.new (lines_below implication end)) }
    ensures stopped { OnErr result (Stopped S.tells S.written S.faults sink.old sink.new (lines_below implication end)) }
{
    for j in 0..end {
        write_implication(j, sink)?;
    }
    Ok(())
}

/// Writes the problem of a number.
pub(crate) fn write_problem<S: Sink>(n: u32, sink: &mut S) -> Result<(), Failed>
    requires { n ≤ 1000 }
    ensures took { OnOk result (Took S.tells S.written S.faults sink.old sink.new (text n)) }
    ensures stopped { OnErr result (Stopped S.tells S.written S.faults sink.old sink.new (text n)) }
{
    write(sink, b"thf(c_type,type,c: $i).\n")?;
    write_predicates(n + 1, sink)?;
    write(sink, b"thf(a0,axiom,( p0 @ c )).\n")?;
    write_implications(n, sink)?;
    write_goal(n, sink)?;
    Ok(())
}
