//! Connectives between two operands. In each reader, `room` is how many more things may be open at once.
ghost use Rattle.std.specs.Prelude.{◌≡◌};
ghost use Rattle.thf_grammar.specs.View.{the_formula};
ghost use Rattle.thf_parse.specs.Internal.FormulaReader as reader;
ghost use Rattle.thf_parse.specs.Internal.Reads.{ReadsFormula};

use crate::cursor::Cursor;
use crate::formula::unit::unit;
use crate::refusal::Refusal;
use crate::room::deeper;
use std::alloc::Global;
use thf_grammar::{Conn, Surface, Terminal};

fn is_link(conn: Conn, found: Terminal) -> bool
    ensures { result ≡ reader.is_link conn found }
{
    matches!(
        (conn, found),
        (Conn::And, Terminal::Conn(Conn::And)) | (Conn::Or, Terminal::Conn(Conn::Or))
    )
}

/// The chain of `conn` from its operator on, where `left` is the tree of the operands before.
#[cycle(formulas)]
#[tactic(auto, unfolding(crate::specs::Internal::FormulaReader::links))]
fn links(
    alloc: Global,
    room: u32,
    conn: Conn,
    left: Box<Surface>,
    cursor: &mut Cursor,
) -> Result<Box<Surface>, Refusal>
    ensures { ReadsFormula cursor.new result (reader.links (reader.inner room) conn (the_formula left.value) cursor.old) }
{
    if is_link(conn, cursor.found()) {
        next_link(alloc, room, conn, left, cursor)
    } else {
        Ok(left)
    }
}

/// The chain of `conn` from an operator on that is there.
#[cycle(formulas)]
#[tactic(auto, unfolding(crate::specs::Internal::FormulaReader::inner))]
fn next_link(
    alloc: Global,
    room: u32,
    conn: Conn,
    left: Box<Surface>,
    cursor: &mut Cursor,
) -> Result<Box<Surface>, Refusal>
    ensures { ReadsFormula cursor.new result (reader.next_link (reader.inner room) conn (the_formula left.value) cursor.old) }
{
    let inner = deeper(room)?;
    let at = cursor.place();
    cursor.advance();
    let right = unit(alloc, inner, cursor)?;
    let pair = Surface::Binary {
        at,
        conn,
        left,
        right,
    };
    links(alloc, inner, conn, Box::new(alloc, pair)?, cursor)
}

/// The formula of a connective that has two operands, from the connective on.
#[cycle(formulas)]
#[tactic(auto, unfolding(crate::specs::Internal::FormulaReader::second))]
fn second(
    alloc: Global,
    room: u32,
    conn: Conn,
    left: Box<Surface>,
    cursor: &mut Cursor,
) -> Result<Box<Surface>, Refusal>
    ensures { ReadsFormula cursor.new result (reader.second (reader.inner room) conn (the_formula left.value) cursor.old) }
{
    let at = cursor.place();
    cursor.advance();
    let right = unit(alloc, room, cursor)?;
    let pair = Surface::Binary {
        at,
        conn,
        left,
        right,
    };
    Ok(Box::new(alloc, pair)?)
}

/// The formula whose first unit is `left`.
#[cycle(formulas)]
#[tactic(auto, unfolding(crate::specs::Internal::FormulaReader::tail))]
pub fn tail(
    alloc: Global,
    room: u32,
    left: Box<Surface>,
    cursor: &mut Cursor,
) -> Result<Box<Surface>, Refusal>
    ensures { ReadsFormula cursor.new result (reader.tail (reader.inner room) (the_formula left.value) cursor.old) }
{
    match cursor.found() {
        Terminal::Conn(Conn::Not) => Ok(left),
        Terminal::Conn(Conn::And) => links(alloc, room, Conn::And, left, cursor),
        Terminal::Conn(Conn::Or) => links(alloc, room, Conn::Or, left, cursor),
        Terminal::Conn(conn) => second(alloc, room, conn, left, cursor),
        _ => Ok(left),
    }
}
