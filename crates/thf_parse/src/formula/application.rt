//! What is applied to arguments. In each reader, `room` is how many more things may be open at once.
ghost use Rattle.thf_grammar.specs.View.{the_formula};
ghost use Rattle.thf_parse.specs.Internal.FormulaReader as reader;
ghost use Rattle.thf_parse.specs.Internal.Reads.{ReadsFormula};

use crate::cursor::Cursor;
use crate::formula::unit::operand;
use crate::refusal::Refusal;
use crate::room::deeper;
use std::alloc::Global;
use thf_grammar::{Mark, Surface, Terminal};

/// What is applied to further arguments, from their `@` on, where `left` is the tree of what stands before.
#[cycle(formulas)]
#[tactic(auto, unfolding(crate::specs::Internal::FormulaReader::arguments_behind))]
pub fn arguments(
    alloc: Global,
    room: u32,
    left: Box<Surface>,
    cursor: &mut Cursor,
) -> Result<Box<Surface>, Refusal>
    ensures { ReadsFormula cursor.new result (reader.arguments_behind (reader.inner room) (the_formula left.value) cursor.old) }
{
    match cursor.found() {
        Terminal::Mark(Mark::At) => next_argument(alloc, room, left, cursor),
        _ => Ok(left),
    }
}

/// What is applied to further arguments, from an `@` on that is there.
#[cycle(formulas)]
#[tactic(auto, unfolding(crate::specs::Internal::FormulaReader::inner))]
fn next_argument(
    alloc: Global,
    room: u32,
    left: Box<Surface>,
    cursor: &mut Cursor,
) -> Result<Box<Surface>, Refusal>
    ensures { ReadsFormula cursor.new result (reader.next_argument (reader.inner room) (the_formula left.value) cursor.old) }
{
    let inner = deeper(room)?;
    let at = cursor.place();
    cursor.advance();
    let arg = operand(alloc, inner, cursor)?;
    let application = Surface::Apply { at, fun: left, arg };
    arguments(alloc, inner, Box::new(alloc, application)?, cursor)
}

/// The argument of `!!` or `??`, and those behind it, from the `@` on.
#[cycle(formulas)]
#[tactic(auto, unfolding(crate::specs::Internal::FormulaReader::quantified_at, crate::specs::Internal::FormulaReader::inner))]
pub fn quantified(
    alloc: Global,
    room: u32,
    all: bool,
    cursor: &mut Cursor,
) -> Result<Box<Surface>, Refusal>
    ensures { ReadsFormula cursor.new result (reader.quantified_at (reader.inner room) all cursor.old) }
{
    match cursor.found() {
        Terminal::Mark(Mark::At) => {
            let inner = deeper(room)?;
            let at = cursor.place();
            cursor.advance();
            let arg = operand(alloc, inner, cursor)?;
            let quantified = Surface::Quant { at, all, arg };
            arguments(alloc, inner, Box::new(alloc, quantified)?, cursor)
        }
        _ => Err(Refusal::Wrong),
    }
}
