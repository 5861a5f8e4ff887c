//! What stands in parentheses. In each reader, `room` is how many more things may be open at once.
ghost use Rattle.thf_grammar.specs.View.{the_formula};
ghost use Rattle.thf_parse.specs.Internal.FormulaReader as reader;
ghost use Rattle.thf_parse.specs.Internal.Reads.{ReadsFormula};

use crate::cursor::Cursor;
use crate::formula::binary::tail;
use crate::formula::formula;
use crate::formula::unit::operand;
use crate::refusal::Refusal;
use crate::room::deeper;
use std::alloc::Global;
use thf_grammar::{Conn, Mark, Surface, Terminal};

#[cycle(formulas)]
#[tactic(auto, unfolding(crate::specs::Internal::FormulaReader::inner))]
pub fn group(alloc: Global, room: u32, cursor: &mut Cursor) -> Result<Box<Surface>, Refusal>
    ensures { ReadsFormula cursor.new result (reader.group_at (reader.inner room) cursor.old) }
{
    let inner = deeper(room)?;
    cursor.advance();
    grouped(alloc, inner, cursor)
}

/// What stands behind a `(`, up to its `)`.
#[cycle(formulas)]
#[tactic(auto, unfolding(crate::specs::Internal::FormulaReader::grouped))]
fn grouped(alloc: Global, room: u32, cursor: &mut Cursor) -> Result<Box<Surface>, Refusal>
    ensures { ReadsFormula cursor.new result (reader.grouped (reader.inner room) cursor.old) }
{
    match cursor.found() {
        Terminal::Conn(Conn::Not) => negated(alloc, room, cursor),
        Terminal::Conn(conn) => lone(alloc, conn, cursor),
        _ => {
            let inside = formula(alloc, room, cursor)?;
            closed(inside, cursor)
        }
    }
}

/// A connective alone, up to the `)` behind it.
#[tactic(auto, unfolding(crate::specs::Internal::FormulaReader::lone))]
fn lone(alloc: Global, conn: Conn, cursor: &mut Cursor) -> Result<Box<Surface>, Refusal>
    ensures { ReadsFormula cursor.new result (reader.lone conn cursor.old) }
{
    let at = cursor.place();
    cursor.advance();
    cursor.expect(Mark::Close)?;
    Ok(Box::new(alloc, Surface::Op { at, conn })?)
}

/// What stands behind a `(` and begins with a `~`, up to its `)`.
#[cycle(formulas)]
#[tactic(auto, unfolding(crate::specs::Internal::FormulaReader::inner))]
fn negated(alloc: Global, room: u32, cursor: &mut Cursor) -> Result<Box<Surface>, Refusal>
    ensures { ReadsFormula cursor.new result (reader.negated_at (reader.inner room) cursor.old) }
{
    deeper(room)?;
    let at = cursor.place();
    cursor.advance();
    match cursor.found() {
        Terminal::Mark(Mark::Close) => {
            cursor.advance();
            let conn = Conn::Not;
            Ok(Box::new(alloc, Surface::Op { at, conn })?)
        }
        _ => negated_operand(alloc, room, at, cursor),
    }
}

/// What is negated behind a `(` and a `~` at the place `at`, and what follows it, up to the `)`.
#[cycle(formulas)]
#[tactic(auto, unfolding(crate::specs::Internal::FormulaReader::inner))]
fn negated_operand(
    alloc: Global,
    room: u32,
    at: u32,
    cursor: &mut Cursor,
) -> Result<Box<Surface>, Refusal>
    ensures { ReadsFormula cursor.new result (reader.negated_operand (reader.inner room) at cursor.old) }
{
    let inner = deeper(room)?;
    let body = operand(alloc, inner, cursor)?;
    let left = Box::new(alloc, Surface::Not { at, body })?;
    let whole = tail(alloc, room, left, cursor)?;
    closed(whole, cursor)
}

/// The formula, where a `)` stands behind it.
fn closed(inside: Box<Surface>, cursor: &mut Cursor) -> Result<Box<Surface>, Refusal>
    ensures { ReadsFormula cursor.new result (reader.closed (the_formula inside.value) cursor.old) }
{
    cursor.expect(Mark::Close)?;
    Ok(inside)
}
