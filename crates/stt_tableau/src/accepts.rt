//! Whether a refutation is accepted.

ghost use Rattle.std.specs.Prelude.{◌≡◌, ◌<◌, ◌≤◌, ◌↔◌, [], List, length, map, take, slice_get, IfOk, OnOk, IfErr, IsTrue};
ghost use Rattle.stt_core.specs.Typing.{Scope};
ghost use Rattle.stt_core.specs.ScopeView.{the_scope};
ghost use Rattle.tableau_calculus.specs.Literals.{Literal};
ghost use Rattle.tableau_calculus.specs.Witnesses.{Row, with_rows, IsTwice, IsTable};
ghost use Rattle.tableau_calculus.specs.Accepted.{IsTypedLine, AreRightLines, EndsWithin, IsAccepted, FirstFailure};
ghost use Rattle.tableau_calculus.specs.Internal.Answers.{RowAnswer, LineAnswer};
ghost use Rattle.tableau_calculus.specs.Refused.{IfRefused};
ghost use Rattle.tableau_calculus.specs.declared.refutation.Line.{Line as TheLine};

use crate::children::are_children;
use crate::instance::find_instance;
use std::alloc::{AllocError, Global};
use stt_core::{Signature, Types, same_nf};
use tableau_calculus::{
    Line, Lits, PlainRefused, Refutation, Rows, Why, WitnessRow, is_typed_branch, is_typed_row,
    is_typed_use,
};

/// Whether one of the first `count` rows has the row's predicate.
fn is_twice(rows: &Rows, count: usize, row: &WitnessRow) -> bool
    requires { count ≤ length rows.now }
    ensures { IsTrue result ↔ IsTwice (take count rows.now) row.now }
{
    for j in 0..count {
        if same_nf(&rows.at(j).predicate, &row.predicate) {
            return true;
        }
    }
    false
}

/// Why a row fails, where the witnesses of the earlier rows have these types.
fn row_failure(
    alloc: Global,
    sig: &Signature,
    types: &Types,
    rows: &Rows,
    i: usize,
) -> Result<Option<Why>, AllocError>
    requires at { i < length rows.now }
    requires types { types.now ≡ map (λ r. r.type) (take i rows.now) }
    ensures { IfOk result (λ why. (r : Row) → slice_get rows.now i ≡ Some r → RowAnswer (the_scope sig.now []) (take i rows.now) r why) }
{
    let row = rows.at(i);
    if !is_typed_row(alloc, sig, types, row)? {
        return Ok(Some(Why::Typing));
    }
    if is_twice(rows, i, row) {
        return Ok(Some(Why::Twice));
    }
    Ok(None)
}

/// The types of the rows, where they are a witness table.
fn check_rows(
    alloc: Global,
    sig: &Signature,
    refutation: &Refutation,
) -> Result<Types, PlainRefused>
    ensures types { IfOk result (λ types. types ≡ map (λ r. r.type) refutation.now.witnesses) }
    ensures table { OnOk result (IsTable (the_scope sig.now []) refutation.now.witnesses) }
    ensures refused { IfErr result (λ e. IfRefused e (λ line why. (start : List Literal)
        → FirstFailure (the_scope sig.now []) start refutation.now line why)) }
{
    let rows = &refutation.witnesses;
    let mut types = Types::new(alloc);
    for i in 0..rows.len() {
        if let Some(why) = row_failure(alloc, sig, &types, rows, i)? {
            return Err(PlainRefused::Refused { line: i, why });
        }
        let ty = rows.at(i).ty.try_clone(alloc)?;
        types.push(ty)?;
    }
    Ok(types)
}

/// Whether the line's branch, and what its rule takes, are typed.
fn is_typed_line(
    alloc: Global,
    sig: &Signature,
    types: &Types,
    line: &Line,
) -> Result<bool, AllocError>
    ensures { IfOk result (λ b. IsTrue b ↔ IsTypedLine (the_scope sig.now types.now) line.now) }
{
    if is_typed_branch(alloc, sig, types, &line.branch)? {
        Ok(is_typed_use(alloc, sig, types, &line.rule)?)
    } else {
        Ok(false)
    }
}

/// Why a line fails, where the witnesses have these types.
fn line_failure(
    alloc: Global,
    sig: &Signature,
    types: &Types,
    refutation: &Refutation,
    i: usize,
) -> Result<Option<Why>, AllocError>
    requires at { i < length refutation.now.lines }
    requires types { types.now ≡ map (λ r. r.type) refutation.now.witnesses }
    ensures { IfOk result (λ why. (line : TheLine) → slice_get refutation.now.lines i ≡ Some line
        → LineAnswer (with_rows (the_scope sig.now []) refutation.now.witnesses) refutation.now.witnesses (take i refutation.now.lines) line
        why) }
{
    let lines = &refutation.lines;
    let line = lines.at(i);
    if !is_typed_line(alloc, sig, types, line)? {
        return Ok(Some(Why::Typing));
    }
    match find_instance(
        alloc,
        sig,
        types,
        &refutation.witnesses,
        &line.branch,
        &line.rule,
    )? {
        None => Ok(Some(Why::Principal)),
        Some(alternatives) => {
            if are_children(alloc, lines, i, &line.branch, &alternatives, &line.children)? {
                Ok(None)
            } else {
                Ok(Some(Why::Child))
            }
        }
    }
}

fn check_lines(
    alloc: Global,
    sig: &Signature,
    types: &Types,
    refutation: &Refutation,
) -> Result<(), PlainRefused>
    requires types { types.now ≡ map (λ r. r.type) refutation.now.witnesses }
    requires table { IsTable (the_scope sig.now []) refutation.now.witnesses }
    ensures right { OnOk result (AreRightLines (the_scope sig.now []) refutation.now.witnesses refutation.now.lines) }
    ensures refused { IfErr result (λ e. IfRefused e (λ line why. (start : List Literal)
        → FirstFailure (the_scope sig.now []) start refutation.now line why)) }
{
    let lines = &refutation.lines;
    for i in 0..lines.len() {
        if let Some(why) = line_failure(alloc, sig, types, refutation, i)? {
            let line = refutation.witnesses.len() + i;
            return Err(PlainRefused::Refused { line, why });
        }
    }
    Ok(())
}

/// Whether the last line's branch is within the start.
fn check_last(start: &Lits, refutation: &Refutation) -> Result<(), PlainRefused>
    ensures last { OnOk result (EndsWithin start.now refutation.now.lines) }
    ensures refused { IfErr result (λ e. IfRefused e (λ line why. (scope : Scope) → IsTable scope refutation.now.witnesses
        → AreRightLines scope refutation.now.witnesses refutation.now.lines → FirstFailure scope start.now refutation.now line why)) }
{
    let rows = refutation.witnesses.len();
    let count = refutation.lines.len();
    if count == 0 {
        return Err(PlainRefused::Refused {
            line: rows,
            why: Why::Last,
        });
    }
    if refutation.lines.at(count - 1).branch.is_within(start) {
        Ok(())
    } else {
        Err(PlainRefused::Refused {
            line: rows + (count - 1),
            why: Why::Last,
        })
    }
}

/// Whether the refutation is accepted for the start, over the signature. Answers the first failure otherwise: a row or a line by its
/// number, and why. Looks everything up in lists.
pub fn accepts_plain(
    alloc: Global,
    sig: &Signature,
    start: &Lits,
    refutation: &Refutation,
) -> Result<(), PlainRefused>
    ensures accepted { OnOk result (IsAccepted (the_scope sig.now []) start.now refutation.now) }
    ensures refused { IfErr result (λ e. IfRefused e (FirstFailure (the_scope sig.now []) start.now refutation.now)) }
    ensures refused_only { IfErr result (λ e. IfRefused e (λ _ _. IsAccepted (the_scope sig.now []) start.now refutation.now → ⊥)) }
{
    let types = check_rows(alloc, sig, refutation)?;
    check_lines(alloc, sig, &types, refutation)?;
    check_last(start, refutation)?;
    Ok(())
}
