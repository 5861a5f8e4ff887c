//! Reads the lines of a text.

ghost use Rattle.std.specs.Prelude.{◌≡◌, ◌^◌, length, codes};
ghost use Rattle.refute_text.specs.Internal.Reader.{number_at, repeated_at, with_items};
ghost use Rattle.refute_text.specs.Internal.LineReader.{literal_text_at, child_at, items_at, where_number, end_at, definition_at, row_at, branch_at, children_at, behind_rule_at, lists_at, line_at};
ghost use Rattle.refute_text.specs.Internal.Refusals.{AnswersReader};
ghost use Rattle.refute_print.specs.TextView.{the_line};

use crate::known::Known;
use crate::read_name::{behind, name};
use crate::read_rule::{DEPTH, read_number, read_rule};
use crate::read_term::{index, read_term};
use crate::read_type::expect;
use crate::refusal::Refusal;
use outside::Bytes;
use refute_print::{TextLine, TextLits, TextRule, TextTerm};
use std::alloc::Global;
use tableau_calculus::{Child, Children};

/// Literals, and what follows them.
#[derive(Drop)]
struct LiteralsRead<'a> {
    literals: TextLits,
    rest: &'a [u8],
}

/// More literals behind the first ones, each after a comma.
fn more_literals<'a>(
    alloc: Global,
    known: &mut Known<'a>,
    first: TextLits,
    bytes: &'a [u8],
) -> Result<LiteralsRead<'a>, Refusal>
    ensures { AnswersReader (λ r. (r.literals, r.rest.now)) result (with_items first
        (repeated_at (codes ",") literal_text_at (length bytes.now) bytes.now)) }
{
    let mut literals = first;
    let mut rest = bytes;
    while let Some(more) = behind(b",", rest) {
        match known.read(alloc, &mut literals, more) {
            Ok(after) => rest = after,
            Err(refusal) => return Err(refusal),
        }
    }
    Ok(LiteralsRead { literals, rest })
}

/// The literals of a branch, and the bracket that closes them.
fn literals<'a>(
    alloc: Global,
    known: &mut Known<'a>,
    bytes: &'a [u8],
) -> Result<LiteralsRead<'a>, Refusal>
    ensures { AnswersReader (λ r. (r.literals, r.rest.now)) result (items_at literal_text_at bytes.now) }
{
    let mut literals = TextLits::new(alloc);
    if let Some(rest) = behind(b"]", bytes) {
        return Ok(LiteralsRead { literals, rest });
    }
    let behind_first = known.read(alloc, &mut literals, bytes)?;
    let read = more_literals(alloc, known, literals, behind_first)?;
    let rest = expect(b"]", read.rest)?;
    Ok(LiteralsRead {
        literals: read.literals,
        rest,
    })
}

/// A child, and what follows it.
#[derive(Drop)]
struct ChildRead<'a> {
    child: Child,
    rest: &'a [u8],
}

#[tactic(auto, unfolding(crate::specs::Internal::LineReader::child_at))]
fn child(bytes: &[u8]) -> Result<ChildRead<'_>, Refusal>
    ensures { AnswersReader (λ r. (r.child, r.rest.now)) result (child_at bytes.now) }
{
    if let Some(rest) = behind(b"x", bytes) {
        return Ok(ChildRead {
            child: Child::Closed,
            rest,
        });
    }
    let read = read_number(bytes)?;
    Ok(ChildRead {
        child: Child::Line(read.place),
        rest: read.rest,
    })
}

/// Children, and what follows them.
#[derive(Drop)]
struct ChildrenRead<'a> {
    children: Children,
    rest: &'a [u8],
}

/// More children behind the first ones, each after a comma.
fn more_children(first: Children, bytes: &[u8]) -> Result<ChildrenRead<'_>, Refusal>
    ensures { AnswersReader (λ r. (r.children, r.rest.now)) result (with_items first
        (repeated_at (codes ",") child_at (length bytes.now) bytes.now)) }
{
    let mut children = first;
    let mut rest = bytes;
    while let Some(more) = behind(b",", rest) {
        match child(more) {
            Ok(read) => {
                children.push(read.child)?;
                rest = read.rest;
            }
            Err(refusal) => return Err(refusal),
        }
    }
    Ok(ChildrenRead { children, rest })
}

/// The children of a line, and the bracket that closes them.
fn children(alloc: Global, bytes: &[u8]) -> Result<ChildrenRead<'_>, Refusal>
    ensures { AnswersReader (λ r. (r.children, r.rest.now)) result (items_at child_at bytes.now) }
{
    let mut children = Children::new(alloc);
    if let Some(rest) = behind(b"]", bytes) {
        return Ok(ChildrenRead { children, rest });
    }
    let first = child(bytes)?;
    children.push(first.child)?;
    let read = more_children(children, first.rest)?;
    let rest = expect(b"]", read.rest)?;
    Ok(ChildrenRead {
        children: read.children,
        rest,
    })
}

/// The end of a line.
fn ended(bytes: &[u8]) -> Result<&[u8], Refusal>
    ensures { AnswersReader (λ rest. rest.now) result (end_at bytes.now) }
{
    match bytes {
        [] => Ok(bytes),
        [_, ..] => Err(Refusal::Form),
    }
}

/// What follows the number of a row.
fn row_number(number: usize, bytes: &[u8]) -> Result<&[u8], Refusal>
    ensures { AnswersReader (λ rest. rest.now) result (where_number number (number_at (2 ^ 32) bytes.now)) }
{
    let read = index(bytes)?;
    if read.index as usize == number {
        Ok(read.rest)
    } else {
        Err(Refusal::Form)
    }
}

/// What follows the number of a line.
fn line_number(number: usize, bytes: &[u8]) -> Result<&[u8], Refusal>
    ensures { AnswersReader (λ rest. rest.now) result (where_number number (number_at (2 ^ 64) bytes.now)) }
{
    let read = read_number(bytes)?;
    if read.place == number {
        Ok(read.rest)
    } else {
        Err(Refusal::Form)
    }
}

/// The name on the line of a definition.
#[tactic(auto, unfolding(crate::specs::Internal::LineReader::definition_at))]
pub(crate) fn read_definition(alloc: Global, line: &[u8]) -> Result<Bytes, Refusal>
    ensures { AnswersReader (λ w. w) result (definition_at line.now) }
{
    let rest = expect(b"d ", line)?;
    let read = name(alloc, rest)?;
    ended(read.rest)?;
    Ok(read.name)
}

/// The predicate of the witness row of this number.
#[tactic(auto, unfolding(crate::specs::Internal::LineReader::row_at))]
pub(crate) fn read_row(alloc: Global, number: usize, line: &[u8]) -> Result<TextTerm, Refusal>
    ensures { AnswersReader (λ t. t) result (row_at number line.now) }
{
    let rest = expect(b"w", line)?;
    let rest = row_number(number, rest)?;
    let rest = expect(b" ", rest)?;
    let read = read_term(alloc, DEPTH, rest)?;
    ended(read.rest)?;
    Ok(read.term)
}

/// The branch behind a rule.
fn branch<'a>(
    alloc: Global,
    known: &mut Known<'a>,
    bytes: &'a [u8],
) -> Result<LiteralsRead<'a>, Refusal>
    ensures { AnswersReader (λ r. (r.literals, r.rest.now)) result (branch_at bytes.now) }
{
    let rest = expect(b" [", bytes)?;
    literals(alloc, known, rest)
}

/// The children behind a branch, which end the line.
fn line_children(alloc: Global, bytes: &[u8]) -> Result<Children, Refusal>
    ensures { AnswersReader (λ children. children) result (children_at bytes.now) }
{
    let rest = expect(b" [", bytes)?;
    let read = children(alloc, rest)?;
    ended(read.rest)?;
    Ok(read.children)
}

/// The branch and the children of a line.
#[derive(Drop)]
struct ListsRead {
    branch: TextLits,
    children: Children,
}

/// What stands behind the rule of a line.
#[tactic(auto, unfolding(crate::specs::Internal::LineReader::behind_rule_at))]
fn behind_rule<'a>(
    alloc: Global,
    known: &mut Known<'a>,
    bytes: &'a [u8],
) -> Result<ListsRead, Refusal>
    ensures { AnswersReader (λ lists. (lists.branch, lists.children)) result (behind_rule_at bytes.now) }
{
    let read = branch(alloc, known, bytes)?;
    let children = line_children(alloc, read.rest)?;
    Ok(ListsRead {
        branch: read.literals,
        children,
    })
}

/// The line with this rule, from what stands behind it on.
#[tactic(auto, unfolding(crate::specs::Internal::LineReader::lists_at))]
fn lists<'a>(
    alloc: Global,
    known: &mut Known<'a>,
    rule: TextRule,
    bytes: &'a [u8],
) -> Result<TextLine, Refusal>
    ensures { AnswersReader (λ l. the_line l) result (lists_at rule bytes.now) }
{
    match behind_rule(alloc, known, bytes) {
        Ok(lists) => Ok(TextLine {
            branch: lists.branch,
            rule,
            children: lists.children,
        }),
        Err(refusal) => {
            drop(rule);
            Err(refusal)
        }
    }
}

/// The line of this number.
#[tactic(auto, unfolding(crate::specs::Internal::LineReader::line_at))]
pub(crate) fn read_line<'a>(
    alloc: Global,
    known: &mut Known<'a>,
    number: usize,
    line: &'a [u8],
) -> Result<TextLine, Refusal>
    ensures { AnswersReader (λ l. the_line l) result (line_at number line.now) }
{
    let rest = line_number(number, line)?;
    let rest = expect(b": ", rest)?;
    let rule = read_rule(alloc, rest)?;
    lists(alloc, known, rule.rule, rule.rest)
}
