//! Writes whole texts.

ghost use Rattle.std.specs.Prelude.{◌≡◌, ◌≤◌, ◌<◌, ◌++◌, map, length, IsTrue, OnOk, OnErr};
ghost use Rattle.outside.specs.Causes.{Rose};
ghost use Rattle.outside.specs.Prefix.{AppendsProperly};
ghost use Rattle.outside.specs.Writing.{Took, Stopped};
ghost use Rattle.thf_names.specs.Names.{name_text};
ghost use Rattle.refute_print.specs.Text.{definition_text, text_lines, as_bytes};
ghost use Rattle.refute_print.specs.Named.{names_of, name_numbered, named_refutation, ArePlaces, IsNamed};
ghost use Rattle.refute_print.specs.Internal.Pieces.{version_line, definition_line};

use crate::refutation::SharedRefutation;
use crate::write_bytes::write;
use crate::write_line::{write_lines, write_rows};
use outside::{Failed, Sink};
use stt_core::Signature;
use thf_names::write_name;

/// Writes the line of the version.
fn write_version<S: Sink>(sink: &mut S, sig: &Signature, taken: &[u32]) -> Result<(), Failed>
    ensures took { OnOk result (Took S.tells S.written S.faults sink.old sink.new
        (version_line (map (name_numbered (names_of sig.now.bases sig.now.consts).constants) taken.now))) }
    ensures stopped { OnErr result (Stopped S.tells S.written S.faults sink.old sink.new
        (version_line (map (name_numbered (names_of sig.now.bases sig.now.consts).constants) taken.now))) }
{
    match taken {
        [] => write(sink, b"version 1\n")?,
        [_, ..] => write(sink, b"version 2\n")?,
    }
    Ok(())
}

/// Writes the name of a constant.
fn write_constant<S: Sink>(sink: &mut S, sig: &Signature, place: u32) -> Result<(), Failed>
    requires { place < length sig.now.consts }
    ensures took { OnOk result (Took S.tells S.written S.faults sink.old sink.new
        (name_text (name_numbered (names_of sig.now.bases sig.now.consts).constants place))) }
    ensures stopped { OnErr result (Stopped S.tells S.written S.faults sink.old sink.new
        (name_text (name_numbered (names_of sig.now.bases sig.now.consts).constants place))) }
{
    write_name(sink, sig.consts.name_at(place as usize))
}

/// Writes the line of a constant whose definition is unfolded.
fn write_definition<S: Sink>(sink: &mut S, sig: &Signature, place: u32) -> Result<(), Failed>
    requires { place < length sig.now.consts }
    ensures took { OnOk result (Took S.tells S.written S.faults sink.old sink.new
        (definition_line (names_of sig.now.bases sig.now.consts) place)) }
    ensures stopped { OnErr result (Stopped S.tells S.written S.faults sink.old sink.new
        (definition_line (names_of sig.now.bases sig.now.consts) place)) }
{
    write(sink, b"d ")?;
    write_constant(sink, sig, place)?;
    write(sink, b"\n")
}

fn write_definitions<S: Sink>(sink: &mut S, sig: &Signature, taken: &[u32]) -> Result<(), Failed>
    requires { ArePlaces (names_of sig.now.bases sig.now.consts) taken.now }
    ensures took { OnOk result (Took S.tells S.written S.faults sink.old sink.new
        (as_bytes (map definition_text (map (name_numbered (names_of sig.now.bases sig.now.consts).constants) taken.now)))) }
    ensures stopped { OnErr result (Stopped S.tells S.written S.faults sink.old sink.new
        (as_bytes (map definition_text (map (name_numbered (names_of sig.now.bases sig.now.consts).constants) taken.now)))) }
{
    for i in 0..taken.len() {
        write_definition(sink, sig, taken[i])?;
    }
    Ok(())
}

fn write_lines_of<S: Sink>(
    sink: &mut S,
    sig: &Signature,
    taken: &[u32],
    refutation: &SharedRefutation,
) -> Result<(), Failed>
    requires places { ArePlaces (names_of sig.now.bases sig.now.consts) taken.now }
    requires named { IsNamed (names_of sig.now.bases sig.now.consts) refutation.now }
    ensures took { OnOk result (Took S.tells S.written S.faults sink.old sink.new
        (as_bytes (text_lines (named_refutation (names_of sig.now.bases sig.now.consts) taken.now refutation.now)))) }
    ensures stopped { OnErr result (Stopped S.tells S.written S.faults sink.old sink.new
        (as_bytes (text_lines (named_refutation (names_of sig.now.bases sig.now.consts) taken.now refutation.now)))) }
{
    write_version(sink, sig, taken)?;
    write_definitions(sink, sig, taken)?;
    write_rows(sink, sig, &refutation.witnesses)?;
    write_lines(sink, sig, &refutation.lines)
}

/// Writes the lines between the start line and the end line, each with its line feed: a text of version 2 with the names of the taken
/// definitions where there are any, and else one of version 1. It takes no memory.
pub fn write_shared_text<S: Sink>(
    sig: &Signature,
    taken: &[u32],
    refutation: &SharedRefutation,
    sink: &mut S,
) -> Result<(), Failed>
    requires places { ArePlaces (names_of sig.now.bases sig.now.consts) taken.now }
    requires named { IsNamed (names_of sig.now.bases sig.now.consts) refutation.now }
    ensures appended { OnOk result (IsTrue (S.tells sink.old)
        → S.written sink.new ≡ S.written sink.old
        ++ as_bytes (text_lines (named_refutation (names_of sig.now.bases sig.now.consts) taken.now refutation.now))) }
    ensures failed { OnErr result (IsTrue (S.tells sink.old)
        → AppendsProperly (S.written sink.old) (S.written sink.new)
        (as_bytes (text_lines (named_refutation (names_of sig.now.bases sig.now.consts) taken.now refutation.now)))) }
    ensures quiet { OnOk result (S.faults sink.new ≡ S.faults sink.old) }
    ensures cause { OnErr result (Rose (S.faults sink.old) (S.faults sink.new)) }
    ensures later { S.faults sink.old ≤ S.faults sink.new }
    ensures telling { IsTrue (S.tells sink.old) → IsTrue (S.tells sink.new) }
{
    write_lines_of(sink, sig, taken, refutation)?;
    Ok(())
}
