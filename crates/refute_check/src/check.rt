//! Whether the text of a refutation is accepted for a problem.

ghost use Rattle.std.specs.Prelude.{◌≡◌, ◌+◌, ◌^◌, ◌<◌, true, [], List, length, OnOk, IfOk, IfErr};
ghost use Rattle.stt_core.specs.Typing.{Scope};
ghost use Rattle.stt_core.specs.Lambda.{Lambda};
ghost use Rattle.stt_core.specs.ScopeView.{the_scope};
ghost use Rattle.stt_core.specs.TypedProblem.{IsTyped};
ghost use Rattle.stt_core.specs.Declarations.{scope_of};
ghost use Rattle.tableau_calculus.specs.Literals.{Literal};
ghost use Rattle.tableau_calculus.specs.Witnesses.{IsTable};
ghost use Rattle.tableau_calculus.specs.Start.{start};
ghost use Rattle.tableau_calculus.specs.Accepted.{EndsWithin, FirstFailure};
ghost use Rattle.tableau_calculus.specs.CutFree.{HasNoCut};
ghost use Rattle.tableau_calculus.specs.Refused.{IfRefused};
ghost use Rattle.problem_start.specs.Unfolds.{unfolded_if};
ghost use Rattle.refute_print.specs.TextView.{the_text, IsNumberedText};
ghost use Rattle.refute_print.specs.Named.{names_of};
ghost use Rattle.refute_check.specs.Numbered.{numbered_refutation};
ghost use Rattle.refute_check.specs.Refusal.{IfLine};
ghost use Rattle.refute_check.specs.Acceptance.{IsAcceptedFor, TextFailsAt};
ghost use Rattle.refute_check.specs.Strict.{IsStrictlyAcceptedFor, TextFailsStrictlyAt};
ghost use Rattle.refute_check.specs.Internal.Shared.{shared_scope, declared_in, shared_atoms, the_rows, IsGoodShared};
ghost use Rattle.refute_check.specs.Internal.Branches.{Represents, AreNumberedBranch, Grow, AreBranches};
ghost use Rattle.refute_check.specs.Internal.Lines.{AreRightIn};
ghost use Rattle.refute_check.specs.Internal.Strictly.{IsAcceptedBy, FirstFailureBy, FailsAtBy, IsTextAcceptedBy, TextFailsBy};

use crate::branch::Branch;
use crate::definitions::check_definitions;
use crate::lines::RightLines;
use crate::numbering::Numbering;
use crate::refusal::CheckRefused;
use crate::seen::Seen;
use crate::shared::Shared;
use crate::strict::{is_cut, with_cut};
use refute_print::RefutationText;
use std::alloc::{AllocError, Global};
use stt_core::{Problem, Signature};
use tableau_calculus::{PlainRefused, Why};

/// Declares the witnesses of the text's rows, where these are a witness table.
fn check_rows(
    alloc: Global,
    shared: &mut Shared,
    numbering: &Numbering<'_>,
    text: &RefutationText,
) -> Result<(), PlainRefused>
    requires good { IsGoodShared shared.old }
    requires none { the_rows shared.old ≡ [] }
    ensures rows { OnOk result (the_rows shared.new ≡ (numbered_refutation numbering.now (the_text text.now)).witnesses) }
    ensures table { OnOk result (IsTable (declared_in shared.old) (numbered_refutation numbering.now (the_text text.now)).witnesses) }
    ensures atoms { OnOk result (Grow (shared_atoms shared.old) (shared_atoms shared.new)) }
    ensures declared { OnOk result (declared_in shared.new ≡ declared_in shared.old) }
    ensures good { OnOk result (IsGoodShared shared.new) }
    ensures row { IfErr result
        (λ e. IfRefused e (λ place why. place < length (numbered_refutation numbering.now (the_text text.now)).witnesses)) }
    ensures refused { IfErr result (λ e. IfRefused e (λ place why. (start : List Literal)
        → FirstFailure (declared_in shared.old) start (numbered_refutation numbering.now (the_text text.now)) place why)) }
{
    for i in 0..text.witnesses.len() {
        if let Some(why) = shared.add_row(alloc, numbering, text.witnesses.at(i))? {
            return Err(PlainRefused::Refused { line: i, why });
        }
    }
    Ok(())
}

/// The branches of the text's lines by numbers, where the lines are right. A strict check refuses cuts.
fn check_lines(
    alloc: Global,
    shared: &mut Shared,
    numbering: &Numbering<'_>,
    text: &RefutationText,
    strict: bool,
) -> Result<RightLines, PlainRefused>
    requires good { IsGoodShared shared.old }
    requires rows { the_rows shared.old ≡ (numbered_refutation numbering.now (the_text text.now)).witnesses }
    requires table { IsTable (declared_in shared.old) (numbered_refutation numbering.now (the_text text.now)).witnesses }
    requires room { length text.now.witnesses + length text.now.lines < 2 ^ 64 }
    ensures right { OnOk result (AreRightIn (declared_in shared.old) (numbered_refutation numbering.now (the_text text.now))) }
    ensures no_cut { OnOk result (strict ≡ true → HasNoCut (numbered_refutation numbering.now (the_text text.now)).lines) }
    ensures branches { IfOk result
        (λ ls. AreBranches (shared_atoms shared.new) (numbered_refutation numbering.now (the_text text.now)).lines ls.branches.items) }
    ensures atoms { OnOk result (Grow (shared_atoms shared.old) (shared_atoms shared.new)) }
    ensures refused { IfErr result (λ e. IfRefused e (λ place why. (start : List Literal)
        → FirstFailureBy strict (declared_in shared.old) start (numbered_refutation numbering.now (the_text text.now)) place why)) }
{
    let rows = text.witnesses.len();
    let mut seen = Seen::new(alloc);
    let mut lines = RightLines::new(alloc);
    for i in 0..text.lines.len() {
        let line = text.lines.at(i);
        let found = lines.add(alloc, shared, numbering, &mut seen, line)?;
        if let Some(why) = with_cut(strict, is_cut(&line.rule), found) {
            return Err(PlainRefused::Refused {
                line: rows + i,
                why,
            });
        }
    }
    Ok(lines)
}

/// Whether the last line's branch is within the start.
fn check_last(
    numbering: &Numbering<'_>,
    lines: &RightLines,
    start: &Branch,
    text: &RefutationText,
) -> Result<(), PlainRefused>
    requires room { length text.now.witnesses + length text.now.lines < 2 ^ 64 }
    ensures last { OnOk result ((terms : List Lambda) (ls : List Literal)
        → AreBranches terms (numbered_refutation numbering.now (the_text text.now)).lines lines.now.branches.items → Represents terms ls start.now
        → EndsWithin ls (numbered_refutation numbering.now (the_text text.now)).lines) }
    ensures refused { IfErr result (λ e. IfRefused e (λ place why. (terms : List Lambda) (ls : List Literal)
        → AreBranches terms (numbered_refutation numbering.now (the_text text.now)).lines lines.now.branches.items → Represents terms ls start.now
        → (scope : Scope) → IsTable scope (numbered_refutation numbering.now (the_text text.now)).witnesses
        → AreRightIn scope (numbered_refutation numbering.now (the_text text.now))
        → FirstFailure scope ls (numbered_refutation numbering.now (the_text text.now)) place why)) }
{
    let rows = text.witnesses.len();
    let count = text.lines.len();
    if count == 0 {
        return Err(PlainRefused::Refused {
            line: rows,
            why: Why::Last,
        });
    }
    if lines.is_within(count - 1, start) {
        Ok(())
    } else {
        Err(PlainRefused::Refused {
            line: rows + (count - 1),
            why: Why::Last,
        })
    }
}

/// Whether the text is accepted for these literals.
fn check_from(
    alloc: Global,
    shared: &mut Shared,
    numbering: &Numbering<'_>,
    start: &Branch,
    text: &RefutationText,
    strict: bool,
) -> Result<(), PlainRefused>
    requires good { IsGoodShared shared.old }
    requires none { the_rows shared.old ≡ [] }
    requires room { length text.now.witnesses + length text.now.lines < 2 ^ 64 }
    ensures accepted { OnOk result ((ls : List Literal) → Represents (shared_atoms shared.old) ls start.now → AreNumberedBranch (shared_atoms shared.old) ls
        → IsAcceptedBy strict (declared_in shared.old) ls (numbered_refutation numbering.now (the_text text.now))) }
    ensures refused { IfErr result (λ e. IfRefused e (λ place why. (ls : List Literal) → Represents (shared_atoms shared.old) ls start.now → AreNumberedBranch (shared_atoms shared.old) ls
        → FirstFailureBy strict (declared_in shared.old) ls (numbered_refutation numbering.now (the_text text.now)) place why)) }
{
    check_rows(alloc, shared, numbering, text)?;
    let lines = check_lines(alloc, shared, numbering, text, strict)?;
    check_last(numbering, &lines, start, text)
}

/// Whether the text is accepted for the start of the problem, where nothing of either is there yet.
fn check_with(
    alloc: Global,
    shared: &mut Shared,
    numbering: &Numbering<'_>,
    problem: &Problem,
    text: &RefutationText,
    strict: bool,
    unfolds: bool,
) -> Result<(), PlainRefused>
    requires good { IsGoodShared shared.old }
    requires none { the_rows shared.old ≡ [] }
    requires scope { shared_scope shared.old ≡ scope_of problem.now.declared }
    requires problem { IsTyped problem.now }
    requires room { length text.now.witnesses + length text.now.lines < 2 ^ 64 }
    ensures accepted { OnOk result (IsAcceptedBy strict (declared_in shared.old) (start (unfolded_if unfolds problem.now))
        (numbered_refutation numbering.now (the_text text.now))) }
    ensures refused { IfErr result
        (λ e. IfRefused e (FirstFailureBy strict (declared_in shared.old) (start (unfolded_if unfolds problem.now))
        (numbered_refutation numbering.now (the_text text.now)))) }
{
    let start = shared.start(alloc, problem, unfolds)?;
    check_from(alloc, shared, numbering, &start, text, strict)
}

/// Whether the text is accepted for the start of the problem, over its signature.
fn check_over(
    alloc: Global,
    sig: &Signature,
    problem: &Problem,
    text: &RefutationText,
    strict: bool,
    unfolds: bool,
) -> Result<(), PlainRefused>
    requires problem { IsTyped problem.now }
    requires own { the_scope sig.now [] ≡ scope_of problem.now.declared }
    requires room { length text.now.witnesses + length text.now.lines < 2 ^ 64 }
    ensures accepted { OnOk result (IsAcceptedBy strict (the_scope sig.now []) (start (unfolded_if unfolds problem.now))
        (numbered_refutation (names_of sig.now.bases sig.now.consts) (the_text text.now))) }
    ensures refused { IfErr result (λ e. IfRefused e (FirstFailureBy strict (the_scope sig.now []) (start (unfolded_if unfolds problem.now))
        (numbered_refutation (names_of sig.now.bases sig.now.consts) (the_text text.now)))) }
{
    let numbering = Numbering::new(alloc, sig)?;
    let mut shared = Shared::new(alloc, sig)?;
    let checked = check_with(
        alloc,
        &mut shared,
        &numbering,
        problem,
        text,
        strict,
        unfolds,
    );
    drop(shared);
    checked
}

/// Whether the text is accepted, or the place of its first failure: its rows count from 0, and then its lines.
fn check_text(
    alloc: Global,
    problem: &Problem,
    text: &RefutationText,
    strict: bool,
    unfolds: bool,
) -> Result<(), PlainRefused>
    requires problem { IsTyped problem.now }
    requires room { length text.now.witnesses + length text.now.lines < 2 ^ 64 }
    ensures accepted { OnOk result (IsAcceptedBy strict (scope_of problem.now.declared) (start (unfolded_if unfolds problem.now))
        (numbered_refutation (names_of problem.now.declared.bases problem.now.declared.consts) (the_text text.now))) }
    ensures refused { IfErr result (λ e. IfRefused e (FirstFailureBy strict (scope_of problem.now.declared) (start (unfolded_if unfolds problem.now))
        (numbered_refutation (names_of problem.now.declared.bases problem.now.declared.consts) (the_text text.now)))) }
{
    check_over(alloc, &problem.signature, problem, text, strict, unfolds)
}

/// Whether the text's refutation is accepted for the start of the problem, with its definitions unfolded where they are to be. Answers the
/// first line that fails otherwise, by its number in the file of the text.
fn check_start(
    alloc: Global,
    problem: &Problem,
    text: &RefutationText,
    strict: bool,
    unfolds: bool,
) -> Result<(), CheckRefused>
    requires problem { IsTyped problem.now }
    requires lines { text.now.first + length text.now.witnesses + length text.now.lines < 2 ^ 64 }
    ensures accepted { OnOk result (IsAcceptedBy strict (scope_of problem.now.declared) (start (unfolded_if unfolds problem.now))
        (numbered_refutation (names_of problem.now.declared.bases problem.now.declared.consts) (the_text text.now))) }
    ensures refused { IfErr result (λ e. IfLine e (FailsAtBy strict (scope_of problem.now.declared) (start (unfolded_if unfolds problem.now))
        (numbered_refutation (names_of problem.now.declared.bases problem.now.declared.consts) (the_text text.now)) text.now.first)) }
{
    match check_text(alloc, problem, text, strict, unfolds) {
        Ok(()) => Ok(()),
        Err(PlainRefused::Refused { line, why }) => Err(CheckRefused::Line {
            line: text.first + line,
            why,
        }),
        Err(PlainRefused::Memory) => Err(CheckRefused::Memory),
    }
}

/// The same for a text that names definitions, which are to be those that are taken from the problem.
fn check_unfolded(
    alloc: Global,
    problem: &Problem,
    text: &RefutationText,
    strict: bool,
) -> Result<(), CheckRefused>
    requires problem { IsTyped problem.now }
    requires numbered { IsNumberedText text.now }
    requires named { 0 < length text.now.names }
    requires lines { text.now.first + length text.now.witnesses + length text.now.lines < 2 ^ 64 }
    ensures accepted { OnOk result (IsTextAcceptedBy strict problem.now (the_text text.now)) }
    ensures refused { IfErr result (λ e. IfLine e (TextFailsBy strict problem.now (the_text text.now) text.now.first)) }
{
    check_definitions(alloc, problem, text)?;
    check_start(alloc, problem, text, strict, true)
}

/// Whether the text is accepted for the problem, or strictly accepted. Answers the first line that fails otherwise.
fn check_by(
    alloc: Global,
    problem: &Problem,
    text: &RefutationText,
    strict: bool,
) -> Result<(), CheckRefused>
    requires problem { IsTyped problem.now }
    requires numbered { IsNumberedText text.now }
    requires lines { text.now.first + length text.now.witnesses + length text.now.lines < 2 ^ 64 }
    ensures accepted { OnOk result (IsTextAcceptedBy strict problem.now (the_text text.now)) }
    ensures refused { IfErr result (λ e. IfLine e (TextFailsBy strict problem.now (the_text text.now) text.now.first)) }
    ensures refused_only { IfErr result (λ e. IfLine e (λ _ _. IsTextAcceptedBy strict problem.now (the_text text.now) → ⊥)) }
{
    if text.names.len() == 0 {
        check_start(alloc, problem, text, strict, false)
    } else {
        check_unfolded(alloc, problem, text, strict)
    }
}

/// Whether the text is an accepted refutation of the problem, over the names that it declares. Answers the first line that fails
/// otherwise, by its number in the file of the text.
pub fn check_refutation(
    alloc: Global,
    problem: &Problem,
    text: &RefutationText,
) -> Result<(), CheckRefused>
    requires problem { IsTyped problem.now }
    requires numbered { IsNumberedText text.now }
    requires lines { text.now.first + length text.now.witnesses + length text.now.lines < 2 ^ 64 }
    ensures accepted { OnOk result (IsAcceptedFor problem.now (the_text text.now)) }
    ensures refused { IfErr result (λ e. IfLine e (TextFailsAt problem.now (the_text text.now) text.now.first)) }
    ensures refused_only { IfErr result (λ e. IfLine e (λ _ _. IsAcceptedFor problem.now (the_text text.now) → ⊥)) }
{
    check_by(alloc, problem, text, false)
}

/// Whether the text is an accepted refutation of the problem without cuts. Answers the first line that fails otherwise, by its number in
/// the file of the text.
pub fn check_strict(
    alloc: Global,
    problem: &Problem,
    text: &RefutationText,
) -> Result<(), CheckRefused>
    requires problem { IsTyped problem.now }
    requires numbered { IsNumberedText text.now }
    requires lines { text.now.first + length text.now.witnesses + length text.now.lines < 2 ^ 64 }
    ensures accepted { OnOk result (IsStrictlyAcceptedFor problem.now (the_text text.now)) }
    ensures refused { IfErr result (λ e. IfLine e (TextFailsStrictlyAt problem.now (the_text text.now) text.now.first)) }
    ensures refused_only { IfErr result (λ e. IfLine e (λ _ _. IsStrictlyAcceptedFor problem.now (the_text text.now) → ⊥)) }
{
    check_by(alloc, problem, text, true)
}
