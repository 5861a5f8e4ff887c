//! Formulas. In each reader, `room` is how many more things may be open at once.
ghost use Rattle.thf_grammar.specs.View.{the_formula};
ghost use Rattle.thf_parse.specs.Internal.FormulaReader as reader;
ghost use Rattle.thf_parse.specs.Internal.Reads.{ReadsFormula};

mod application;
mod atom;
mod binary;
mod binder;
mod group;
mod unit;

use crate::cursor::Cursor;
use crate::formula::application::{arguments, quantified};
use crate::formula::binary::tail;
use crate::formula::binder::bind;
use crate::formula::unit::{negation, primary, right_side};
use crate::refusal::Refusal;
use std::alloc::Global;
use thf_grammar::{Conn, Mark, Surface, Terminal};

#[cycle(formulas)]
#[tactic(auto, unfolding(crate::specs::Internal::FormulaReader::formula_reader))]
pub fn formula(alloc: Global, room: u32, cursor: &mut Cursor) -> Result<Box<Surface>, Refusal>
    ensures { ReadsFormula cursor.new result (reader.formula_reader (reader.inner room) cursor.old) }
{
    match cursor.found() {
        Terminal::Conn(Conn::Not) => {
            let left = negation(alloc, room, cursor)?;
            tail(alloc, room, left, cursor)
        }
        Terminal::Quant(all) => {
            cursor.advance();
            quantified(alloc, room, all, cursor)
        }
        Terminal::Binder(binder) => {
            let left = bind(alloc, room, binder, cursor)?;
            applied(alloc, room, left, cursor)
        }
        _ => {
            let left = primary(alloc, room, cursor)?;
            behind_primary(alloc, room, left, cursor)
        }
    }
}

/// The formula that begins with the primary formula `left`.
#[cycle(formulas)]
#[tactic(auto, unfolding(crate::specs::Internal::FormulaReader::behind_primary))]
fn behind_primary(
    alloc: Global,
    room: u32,
    left: Box<Surface>,
    cursor: &mut Cursor,
) -> Result<Box<Surface>, Refusal>
    ensures { ReadsFormula cursor.new result (reader.behind_primary (reader.inner room) (the_formula left.value) cursor.old) }
{
    match cursor.found() {
        Terminal::Equality(positive) => {
            let equation = right_side(alloc, room, positive, left, cursor)?;
            tail(alloc, room, equation, cursor)
        }
        _ => applied(alloc, room, left, cursor),
    }
}

/// The formula that begins with the unitary formula `left`, which isn't a side of an equation.
#[cycle(formulas)]
#[tactic(auto, unfolding(crate::specs::Internal::FormulaReader::applied_behind))]
fn applied(
    alloc: Global,
    room: u32,
    left: Box<Surface>,
    cursor: &mut Cursor,
) -> Result<Box<Surface>, Refusal>
    ensures { ReadsFormula cursor.new result (reader.applied_behind (reader.inner room) (the_formula left.value) cursor.old) }
{
    match cursor.found() {
        Terminal::Mark(Mark::At) => arguments(alloc, room, left, cursor),
        _ => tail(alloc, room, left, cursor),
    }
}
