//! Reads whole texts.

ghost use Rattle.std.specs.Prelude.{◌≡◌, ℕ, ◌+◌, ◌-◌, ◌^◌, ◌<◌, ◌≤◌, ◌++◌, [], ◌∷◌, true, false, length, codes, nat_eq, option_map, IsTrue, OnOk, IfOk, IfErr, IfSome, ◌↔◌};
ghost use Rattle.std.specs.List.{starts_with};
ghost use Rattle.refute_print.specs.Text.{text_lines};
ghost use Rattle.refute_print.specs.TextView.{the_text, IsNumberedText};
ghost use Rattle.outside.specs.Lines.{lines_of};
ghost use Rattle.refute_text.specs.Reading.{HasText, IsFront, HoldsText, TextReading, ReadsText};
ghost use Rattle.refute_text.specs.Internal.LineReader.{definition_at};
ghost use Rattle.refute_text.specs.Internal.Refusals.{AnswersReader};
ghost use Rattle.refute_text.specs.Internal.Places.{RefusesBehind, IfForm, MayDefine, nothing_placed};
ghost use Rattle.refute_text.specs.Answered.{reading_of};

use crate::known::Known;
use crate::lines::{behind_start, is_end, next_line};
use crate::read_line::{read_definition, read_line, read_row};
use crate::refusal::{Refusal, TextRefused};
use refute_print::{RefutationText, TextLines, TextNames, TextTerms};
use std::alloc::Global;

/// Adds the name whose definition the line is.
fn add_definition(alloc: Global, text: &mut RefutationText, line: &[u8]) -> Result<(), Refusal>
    requires has_text { HasText (the_text text.old) }
    requires numbered { IsNumberedText text.old }
    requires room { text.old.first + 1 < 2 ^ 64 }
    requires version_2 { 0 < length text.old.names }
    requires no_rows { length text.old.witnesses ≡ 0 }
    requires no_lines { length text.old.lines ≡ 0 }
    requires definition { starts_with nat_eq line.now (codes "d") ≡ true }
    ensures has_text { OnOk result (HasText (the_text text.new)) }
    ensures added { OnOk result (text_lines (the_text text.new) ≡ text_lines (the_text text.old) ++ line.now ∷ []) }
    ensures refused { IfErr result (λ e. IfForm e (¬ IsFront (text_lines (the_text text.old) ++ line.now ∷ []))) }
    ensures numbered { OnOk result (IsNumberedText text.new) }
    ensures place { text.new.names_at ≡ text.old.names_at }
{
    let name = read_definition(alloc, line)?;
    text.names.push(name)?;
    text.first += 1;
    Ok(())
}

/// Adds the witness row that the line is.
fn add_row(alloc: Global, text: &mut RefutationText, line: &[u8]) -> Result<(), Refusal>
    requires has_text { HasText (the_text text.old) }
    requires numbered { IsNumberedText text.old }
    requires no_lines { length text.old.lines ≡ 0 }
    requires row { starts_with nat_eq line.now (codes "w") ≡ true }
    ensures has_text { OnOk result (HasText (the_text text.new)) }
    ensures added { OnOk result (text_lines (the_text text.new) ≡ text_lines (the_text text.old) ++ line.now ∷ []) }
    ensures refused { IfErr result (λ e. IfForm e (¬ IsFront (text_lines (the_text text.old) ++ line.now ∷ []))) }
    ensures numbered { OnOk result (IsNumberedText text.new) }
    ensures place { text.new.names_at ≡ text.old.names_at }
{
    let row = read_row(alloc, text.witnesses.len(), line)?;
    text.witnesses.push(row)?;
    Ok(())
}

/// Adds the line that the line is.
fn add_numbered<'a>(
    alloc: Global,
    known: &mut Known<'a>,
    text: &mut RefutationText,
    line: &'a [u8],
) -> Result<(), Refusal>
    requires has_text { HasText (the_text text.old) }
    requires numbered { IsNumberedText text.old }
    requires no_definition { MayDefine text.old → starts_with nat_eq line.now (codes "d") ≡ false }
    requires no_row { length text.old.lines ≡ 0 → starts_with nat_eq line.now (codes "w") ≡ false }
    ensures has_text { OnOk result (HasText (the_text text.new)) }
    ensures added { OnOk result (text_lines (the_text text.new) ≡ text_lines (the_text text.old) ++ line.now ∷ []) }
    ensures refused { IfErr result (λ e. IfForm e (¬ IsFront (text_lines (the_text text.old) ++ line.now ∷ []))) }
    ensures numbered { OnOk result (IsNumberedText text.new) }
    ensures place { text.new.names_at ≡ text.old.names_at }
{
    let numbered = read_line(alloc, known, text.lines.len(), line)?;
    text.lines.push(numbered)?;
    Ok(())
}

/// Whether a definition may come next.
fn may_define(text: &RefutationText) -> bool
    ensures { IsTrue result ↔ MayDefine text.now }
{
    text.names.len() > 0 && text.witnesses.len() == 0 && text.lines.len() == 0
}

/// Adds the definition, the witness row or the line that the line is.
fn add_line<'a>(
    alloc: Global,
    known: &mut Known<'a>,
    text: &mut RefutationText,
    line: &'a [u8],
) -> Result<(), Refusal>
    requires has_text { HasText (the_text text.old) }
    requires numbered { IsNumberedText text.old }
    requires room { text.old.first + 1 < 2 ^ 64 }
    ensures has_text { OnOk result (HasText (the_text text.new)) }
    ensures added { OnOk result (text_lines (the_text text.new) ≡ text_lines (the_text text.old) ++ line.now ∷ []) }
    ensures refused { IfErr result (λ e. IfForm e (¬ IsFront (text_lines (the_text text.old) ++ line.now ∷ []))) }
    ensures numbered { OnOk result (IsNumberedText text.new) }
    ensures place { text.new.names_at ≡ text.old.names_at }
{
    if line.starts_with(b"d") && may_define(text) {
        add_definition(alloc, text, line)
    } else if line.starts_with(b"w") && text.lines.len() == 0 {
        add_row(alloc, text, line)
    } else {
        add_numbered(alloc, known, text, line)
    }
}

/// The refutation whose text goes on at a line, up to the end line.
fn read_on(
    alloc: Global,
    begun: RefutationText,
    first: usize,
    bytes: &[u8],
) -> Result<RefutationText, TextRefused>
    requires has_text { HasText (the_text begun) }
    requires numbered { IsNumberedText begun }
    requires behind { 1 ≤ begun.names_at }
    requires counted { first + 1 ≡ begun.names_at + length (text_lines (the_text begun)) }
    requires room { first + length bytes.now < 2 ^ 64 }
    ensures held { IfOk result (λ t. HoldsText (text_lines (the_text begun) ++ lines_of bytes.now) (the_text t)) }
    ensures numbered { IfOk result IsNumberedText }
    ensures place { IfOk result (λ t. t.names_at ≡ begun.names_at) }
    ensures room { IfOk result (λ t. t.first + length t.witnesses + length t.lines < 2 ^ 64) }
    ensures refused { IfErr result (RefusesBehind (text_lines (the_text begun) ++ lines_of bytes.now) (begun.names_at - 1)) }
{
    let mut known = Known::new(alloc);
    let mut text = begun;
    let mut line = first;
    let mut rest = bytes;
    while let Some(cut) = next_line(rest) {
        if is_end(cut.line) {
            return Ok(text);
        }
        match add_line(alloc, &mut known, &mut text, cut.line) {
            Ok(()) => {}
            Err(Refusal::Form) => return Err(TextRefused::BadLine { line }),
            Err(Refusal::Memory) => return Err(TextRefused::Memory),
        }
        line += 1;
        rest = cut.rest;
    }
    Err(TextRefused::NoEnd { line })
}

/// A text of version 1 behind whose version nothing is read yet.
fn version_1(alloc: Global, names_at: usize) -> RefutationText
    ensures text { the_text result ≡ nothing_placed [] }
    ensures numbered { IsNumberedText result }
    ensures place { result.names_at ≡ names_at }
{
    RefutationText {
        version: 1,
        names: TextNames::new(alloc),
        names_at,
        witnesses: TextTerms::new(alloc),
        lines: TextLines::new(alloc),
        first: names_at,
    }
}

/// A text of version 2 behind whose version one line is read, which is that of a definition.
fn version_2(alloc: Global, names_at: usize, line: &[u8]) -> Result<RefutationText, Refusal>
    requires { names_at + 1 < 2 ^ 64 }
    ensures text { AnswersReader the_text result (option_map (λ w. nothing_placed (w ∷ [])) (definition_at line.now)) }
    ensures numbered { IfOk result IsNumberedText }
    ensures place { IfOk result (λ t. t.names_at ≡ names_at) }
{
    let name = read_definition(alloc, line)?;
    let mut names = TextNames::new(alloc);
    names.push(name)?;
    Ok(RefutationText {
        version: 2,
        names,
        names_at,
        witnesses: TextTerms::new(alloc),
        lines: TextLines::new(alloc),
        first: names_at + 1,
    })
}

/// The refutation of version 2 behind the version, where the first line has this number.
fn read_version_2(alloc: Global, line: usize, bytes: &[u8]) -> Result<RefutationText, TextRefused>
    requires counted { 1 ≤ line }
    requires room { line + length bytes.now < 2 ^ 64 }
    ensures held { IfOk result (λ t. HoldsText (codes "version 2" ∷ lines_of bytes.now) (the_text t)) }
    ensures numbered { IfOk result IsNumberedText }
    ensures place { IfOk result (λ t. t.names_at ≡ line) }
    ensures room { IfOk result (λ t. t.first + length t.witnesses + length t.lines < 2 ^ 64) }
    ensures refused { IfErr result (RefusesBehind (codes "version 2" ∷ lines_of bytes.now) (line - 1)) }
{
    let Some(cut) = next_line(bytes) else {
        return Err(TextRefused::NoEnd { line });
    };
    match version_2(alloc, line, cut.line) {
        Ok(text) => read_on(alloc, text, line + 1, cut.rest),
        Err(Refusal::Form) => Err(TextRefused::BadLine { line }),
        Err(Refusal::Memory) => Err(TextRefused::Memory),
    }
}

fn is_same(line: &[u8], text: &[u8]) -> bool
    ensures { IsTrue result ↔ (line.now ≡ text.now) }
{
    line == text
}

/// The refutation behind the start line, where the first line has this number.
fn read_behind(alloc: Global, line: usize, bytes: &[u8]) -> Result<RefutationText, TextRefused>
    requires { line + length bytes.now < 2 ^ 64 }
    ensures held { IfOk result (λ t. HoldsText (lines_of bytes.now) (the_text t)) }
    ensures numbered { IfOk result IsNumberedText }
    ensures place { IfOk result (λ t. t.names_at ≡ line + 1) }
    ensures room { IfOk result (λ t. t.first + length t.witnesses + length t.lines < 2 ^ 64) }
    ensures refused { IfErr result (RefusesBehind (lines_of bytes.now) line) }
{
    let Some(cut) = next_line(bytes) else {
        return Err(TextRefused::NoEnd { line });
    };
    if is_same(cut.line, b"version 1") {
        read_on(alloc, version_1(alloc, line + 1), line + 1, cut.rest)
    } else if is_same(cut.line, b"version 2") {
        read_version_2(alloc, line + 1, cut.rest)
    } else {
        Err(TextRefused::BadLine { line })
    }
}

/// Reads the refutation whose text stands between the first line that begins with the start mark and the first line after it that
/// begins with the end mark.
pub fn read_text(alloc: Global, bytes: &[u8]) -> Result<RefutationText, TextRefused>
    ensures reads { IfSome (reading_of result) (ReadsText (lines_of bytes.now)) }
    ensures only { IfSome (reading_of result) (λ o. (p : TextReading) → ReadsText (lines_of bytes.now) p → p ≡ o) }
    ensures numbered { IfOk result IsNumberedText }
    ensures room { IfOk result (λ t. t.first + length t.witnesses + length t.lines < 2 ^ 64) }
{
    match behind_start(bytes) {
        Ok(start) => read_behind(alloc, start.line, start.bytes),
        Err(line) => Err(TextRefused::NoStart { line }),
    }
}
