//! Types. In each reader, `room` is how many more things may be open at once.
ghost use Rattle.thf_parse.specs.Internal.Reader as reader;
ghost use Rattle.thf_parse.specs.Internal.Reads.{ReadsType};
ghost use Rattle.thf_grammar.specs.View.{the_surface_type};

use crate::cursor::Cursor;
use crate::refusal::Refusal;
use crate::room::deeper;
use std::alloc::Global;
use thf_grammar::{Mark, SurfaceTy, Terminal};

/// The type that the tokens begin with.
#[cycle(types)]
#[tactic(auto, unfolding(crate::specs::Internal::Reader::type_with))]
pub fn type_tree(alloc: Global, room: u32, cursor: &mut Cursor) -> Result<SurfaceTy, Refusal>
    ensures { ReadsType cursor.new result (reader.type_with (reader.inner_type room) cursor.old) }
{
    let left = simple_type(alloc, room, cursor)?;
    match cursor.found() {
        Terminal::Mark(Mark::Arrow) => right_type(alloc, room, left, cursor),
        _ => Ok(left),
    }
}

/// The type from `left` to the one behind the arrow that the tokens begin with.
#[cycle(types)]
#[tactic(auto, unfolding(crate::specs::Internal::Reader::inner_type))]
fn right_type(
    alloc: Global,
    room: u32,
    left: SurfaceTy,
    cursor: &mut Cursor,
) -> Result<SurfaceTy, Refusal>
    ensures { ReadsType cursor.new result (reader.right_type (reader.inner_type room) (the_surface_type left) cursor.old) }
{
    let inner = deeper(room)?;
    let at = cursor.place();
    cursor.advance();
    let right = type_tree(alloc, inner, cursor)?;
    Ok(SurfaceTy::arrow(alloc, at, left, right)?)
}

#[cycle(types)]
#[tactic(auto, unfolding(crate::specs::Internal::Reader::simple_type))]
fn simple_type(alloc: Global, room: u32, cursor: &mut Cursor) -> Result<SurfaceTy, Refusal>
    ensures { ReadsType cursor.new result (reader.simple_type (reader.inner_type room) cursor.old) }
{
    let at = cursor.place();
    match cursor.found() {
        Terminal::Indiv => {
            cursor.advance();
            Ok(SurfaceTy::Indiv { at })
        }
        Terminal::Form => {
            cursor.advance();
            Ok(SurfaceTy::Form { at })
        }
        Terminal::Lower | Terminal::Quoted => named_type(alloc, cursor),
        Terminal::Mark(Mark::Open) => group_type(alloc, room, cursor),
        _ => Err(Refusal::Wrong),
    }
}

fn named_type(alloc: Global, cursor: &mut Cursor) -> Result<SurfaceTy, Refusal>
    ensures { ReadsType cursor.new result (reader.named_type_reader cursor.old) }
{
    let at = cursor.place();
    let name = cursor.name(alloc)?;
    cursor.advance();
    Ok(SurfaceTy::Named { at, name })
}

/// A type in parentheses.
#[cycle(types)]
#[tactic(auto, unfolding(crate::specs::Internal::Reader::inner_type))]
fn group_type(alloc: Global, room: u32, cursor: &mut Cursor) -> Result<SurfaceTy, Refusal>
    ensures { ReadsType cursor.new result (reader.group_type (reader.inner_type room) cursor.old) }
{
    let inner = deeper(room)?;
    cursor.advance();
    let inside = type_tree(alloc, inner, cursor)?;
    cursor.expect(Mark::Close)?;
    Ok(inside)
}
