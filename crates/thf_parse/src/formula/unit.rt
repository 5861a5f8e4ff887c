//! The operands of connectives, and the sides of equations. In each reader, `room` is how many more things may be open at once.
ghost use Rattle.thf_grammar.specs.View.{the_formula};
ghost use Rattle.thf_parse.specs.Internal.FormulaReader as reader;
ghost use Rattle.thf_parse.specs.Internal.Reads.{ReadsFormula};

use crate::cursor::Cursor;
use crate::formula::atom::{constant, truth, variable_term};
use crate::formula::binder::bind;
use crate::formula::group::group;
use crate::refusal::Refusal;
use crate::room::deeper;
use std::alloc::Global;
use thf_grammar::{Conn, Mark, Surface, Terminal};

#[cycle(formulas)]
#[tactic(auto, unfolding(crate::specs::Internal::FormulaReader::inner))]
pub fn negation(alloc: Global, room: u32, cursor: &mut Cursor) -> Result<Box<Surface>, Refusal>
    ensures { ReadsFormula cursor.new result (reader.negation_at (reader.inner room) cursor.old) }
{
    let inner = deeper(room)?;
    let at = cursor.place();
    cursor.advance();
    let body = operand(alloc, inner, cursor)?;
    Ok(Box::new(alloc, Surface::Not { at, body })?)
}

#[cycle(formulas)]
#[tactic(auto, unfolding(crate::specs::Internal::FormulaReader::primary))]
pub fn primary(alloc: Global, room: u32, cursor: &mut Cursor) -> Result<Box<Surface>, Refusal>
    ensures { ReadsFormula cursor.new result (reader.primary (reader.inner room) cursor.old) }
{
    match cursor.found() {
        Terminal::Lower | Terminal::Quoted => constant(alloc, cursor),
        Terminal::Upper => variable_term(alloc, cursor),
        Terminal::Truth(value) => truth(alloc, value, cursor),
        Terminal::Mark(Mark::Open) => group(alloc, room, cursor),
        _ => Err(Refusal::Wrong),
    }
}

/// A primary formula or a binder's.
#[cycle(formulas)]
#[tactic(auto, unfolding(crate::specs::Internal::FormulaReader::unitary))]
fn unitary(alloc: Global, room: u32, cursor: &mut Cursor) -> Result<Box<Surface>, Refusal>
    ensures { ReadsFormula cursor.new result (reader.unitary (reader.inner room) cursor.old) }
{
    match cursor.found() {
        Terminal::Binder(binder) => bind(alloc, room, binder, cursor),
        _ => primary(alloc, room, cursor),
    }
}

/// A unitary formula or a negation.
#[cycle(formulas)]
#[tactic(auto, unfolding(crate::specs::Internal::FormulaReader::operand))]
pub fn operand(alloc: Global, room: u32, cursor: &mut Cursor) -> Result<Box<Surface>, Refusal>
    ensures { ReadsFormula cursor.new result (reader.operand (reader.inner room) cursor.old) }
{
    match cursor.found() {
        Terminal::Conn(Conn::Not) => negation(alloc, room, cursor),
        _ => unitary(alloc, room, cursor),
    }
}

/// The equation with `left` on its left, where the tokens begin with its sign.
#[cycle(formulas)]
#[tactic(auto, unfolding(crate::specs::Internal::FormulaReader::right_side))]
pub fn right_side(
    alloc: Global,
    room: u32,
    positive: bool,
    left: Box<Surface>,
    cursor: &mut Cursor,
) -> Result<Box<Surface>, Refusal>
    ensures { ReadsFormula cursor.new result (reader.right_side (reader.inner room) positive (the_formula left.value) cursor.old) }
{
    let at = cursor.place();
    cursor.advance();
    let right = unitary(alloc, room, cursor)?;
    let equation = Surface::Equation {
        at,
        positive,
        left,
        right,
    };
    Ok(Box::new(alloc, equation)?)
}

#[cycle(formulas)]
#[tactic(auto, unfolding(crate::specs::Internal::FormulaReader::unit))]
pub fn unit(alloc: Global, room: u32, cursor: &mut Cursor) -> Result<Box<Surface>, Refusal>
    ensures { ReadsFormula cursor.new result (reader.unit (reader.inner room) cursor.old) }
{
    match cursor.found() {
        Terminal::Conn(Conn::Not) => negation(alloc, room, cursor),
        Terminal::Binder(binder) => bind(alloc, room, binder, cursor),
        _ => {
            let left = primary(alloc, room, cursor)?;
            match cursor.found() {
                Terminal::Equality(positive) => right_side(alloc, room, positive, left, cursor),
                _ => Ok(left),
            }
        }
    }
}
