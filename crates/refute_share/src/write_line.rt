//! Writes rows and lines.

ghost use Rattle.std.specs.Prelude.{◌≡◌, ◌++◌, codes, map, OnOk, OnErr};
ghost use Rattle.refute_print.specs.Text.{sign_text, branch_text, children_text, row_texts, line_texts, as_bytes};
ghost use Rattle.refute_print.specs.Named.{names_of, named_term, named_literal, named_line, HasNames, HaveNames, HasLineNames, RowsHaveNames, LinesHaveNames};
ghost use Rattle.refute_print.specs.Internal.Pieces.{comma_before, literal_piece, child_piece, row_line, line_end, line_line};
ghost use Rattle.outside.specs.Writing.{Took, Stopped};

use crate::lit::{SharedLit, SharedLits};
use crate::refutation::{SharedLine, SharedLines, SharedRow, SharedRows};
use crate::write_bytes::{write, write_numbered};
use crate::write_rule::write_rule;
use crate::write_term::{write_term, write_term_between};
use outside::{Failed, Sink};
use stt_core::Signature;
use tableau_calculus::{Child, Children};

/// The comma before the member of a list at this place, which the first one has not.
fn comma(place: usize) -> &'static [u8]
    ensures { result.now ≡ comma_before place }
{
    if place > 0 { b"," } else { b"" }
}

/// The text of a closed child at this place of a list, with the comma before it.
fn closed_child(place: usize) -> &'static [u8]
    ensures { result.now ≡ comma_before place ++ codes "x" }
{
    if place > 0 { b",x" } else { b"x" }
}

/// What stands before the atom of the literal at this place of a list.
fn before_atom(place: usize, positive: bool) -> &'static [u8]
    ensures { result.now ≡ comma_before place ++ sign_text positive }
{
    match (place > 0, positive) {
        (true, true) => b",+",
        (true, false) => b",-",
        (false, true) => b"+",
        (false, false) => b"-",
    }
}

fn write_literal_at<S: Sink>(
    sink: &mut S,
    sig: &Signature,
    place: usize,
    lit: &SharedLit,
) -> Result<(), Failed>
    requires { HasNames (names_of sig.now.bases sig.now.consts) lit.now.atom }
    ensures took { OnOk result (Took S.tells S.written S.faults sink.old sink.new
        (literal_piece (names_of sig.now.bases sig.now.consts) place lit.now)) }
    ensures stopped { OnErr result (Stopped S.tells S.written S.faults sink.old sink.new
        (literal_piece (names_of sig.now.bases sig.now.consts) place lit.now)) }
{
    write(sink, before_atom(place, lit.positive))?;
    write_term(sink, sig, &lit.atom)
}

fn write_branch<S: Sink>(sink: &mut S, sig: &Signature, branch: &SharedLits) -> Result<(), Failed>
    requires { HaveNames (names_of sig.now.bases sig.now.consts) branch.now }
    ensures took { OnOk result (Took S.tells S.written S.faults sink.old sink.new
        (branch_text (map (named_literal (names_of sig.now.bases sig.now.consts)) branch.now))) }
    ensures stopped { OnErr result (Stopped S.tells S.written S.faults sink.old sink.new
        (branch_text (map (named_literal (names_of sig.now.bases sig.now.consts)) branch.now))) }
{
    for i in 0..branch.len() {
        write_literal_at(sink, sig, i, branch.at(i))?;
    }
    Ok(())
}

fn write_child<S: Sink>(sink: &mut S, place: usize, child: Child) -> Result<(), Failed>
    ensures took { OnOk result (Took S.tells S.written S.faults sink.old sink.new (child_piece place child)) }
    ensures stopped { OnErr result (Stopped S.tells S.written S.faults sink.old sink.new (child_piece place child)) }
{
    match child {
        Child::Closed => write(sink, closed_child(place)),
        Child::Line(k) => write_numbered(sink, comma(place), k, b""),
    }
}

fn write_children<S: Sink>(sink: &mut S, children: &Children) -> Result<(), Failed>
    ensures took { OnOk result (Took S.tells S.written S.faults sink.old sink.new (children_text children.now)) }
    ensures stopped { OnErr result (Stopped S.tells S.written S.faults sink.old sink.new (children_text children.now)) }
{
    for i in 0..children.len() {
        write_child(sink, i, children.at(i))?;
    }
    Ok(())
}

fn write_row<S: Sink>(
    sink: &mut S,
    sig: &Signature,
    number: usize,
    row: &SharedRow,
) -> Result<(), Failed>
    requires { HasNames (names_of sig.now.bases sig.now.consts) row.now.predicate }
    ensures took { OnOk result (Took S.tells S.written S.faults sink.old sink.new
        (row_line (names_of sig.now.bases sig.now.consts) number row.now)) }
    ensures stopped { OnErr result (Stopped S.tells S.written S.faults sink.old sink.new
        (row_line (names_of sig.now.bases sig.now.consts) number row.now)) }
{
    write_numbered(sink, b"w", number, b" ")?;
    write_term_between(sink, sig, b"", &row.predicate, b"\n")
}

/// Writes what follows the rule of a line.
fn write_line_end<S: Sink>(sink: &mut S, sig: &Signature, line: &SharedLine) -> Result<(), Failed>
    requires { HaveNames (names_of sig.now.bases sig.now.consts) line.now.branch }
    ensures took { OnOk result (Took S.tells S.written S.faults sink.old sink.new
        (line_end (names_of sig.now.bases sig.now.consts) line.now)) }
    ensures stopped { OnErr result (Stopped S.tells S.written S.faults sink.old sink.new
        (line_end (names_of sig.now.bases sig.now.consts) line.now)) }
{
    write(sink, b" [")?;
    write_branch(sink, sig, &line.branch)?;
    write(sink, b"] [")?;
    write_children(sink, &line.children)?;
    write(sink, b"]\n")
}

fn write_line<S: Sink>(
    sink: &mut S,
    sig: &Signature,
    number: usize,
    line: &SharedLine,
) -> Result<(), Failed>
    requires { HasLineNames (names_of sig.now.bases sig.now.consts) line.now }
    ensures took { OnOk result (Took S.tells S.written S.faults sink.old sink.new
        (line_line (names_of sig.now.bases sig.now.consts) number line.now)) }
    ensures stopped { OnErr result (Stopped S.tells S.written S.faults sink.old sink.new
        (line_line (names_of sig.now.bases sig.now.consts) number line.now)) }
{
    write_numbered(sink, b"", number, b": ")?;
    write_rule(sink, sig, &line.rule)?;
    write_line_end(sink, sig, line)
}

pub(crate) fn write_rows<S: Sink>(
    sink: &mut S,
    sig: &Signature,
    rows: &SharedRows,
) -> Result<(), Failed>
    requires { RowsHaveNames (names_of sig.now.bases sig.now.consts) rows.now }
    ensures took { OnOk result (Took S.tells S.written S.faults sink.old sink.new
        (as_bytes (row_texts 0 (map (λ row. named_term (names_of sig.now.bases sig.now.consts) row.predicate) rows.now)))) }
    ensures stopped { OnErr result (Stopped S.tells S.written S.faults sink.old sink.new
        (as_bytes (row_texts 0 (map (λ row. named_term (names_of sig.now.bases sig.now.consts) row.predicate) rows.now)))) }
{
    for i in 0..rows.len() {
        write_row(sink, sig, i, rows.at(i))?;
    }
    Ok(())
}

pub(crate) fn write_lines<S: Sink>(
    sink: &mut S,
    sig: &Signature,
    lines: &SharedLines,
) -> Result<(), Failed>
    requires { LinesHaveNames (names_of sig.now.bases sig.now.consts) lines.now }
    ensures took { OnOk result (Took S.tells S.written S.faults sink.old sink.new
        (as_bytes (line_texts 0 (map (named_line (names_of sig.now.bases sig.now.consts)) lines.now)))) }
    ensures stopped { OnErr result (Stopped S.tells S.written S.faults sink.old sink.new
        (as_bytes (line_texts 0 (map (named_line (names_of sig.now.bases sig.now.consts)) lines.now)))) }
{
    for i in 0..lines.len() {
        write_line(sink, sig, i, lines.at(i))?;
    }
    Ok(())
}
