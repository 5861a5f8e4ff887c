//! The bodies of annotated formulas. In each reader, `room` is how many more things may be open at once.
ghost use Rattle.thf_grammar.specs.View.{the_selected};
ghost use Rattle.thf_parse.specs.Internal.Reader.{inner_type, type_with};
ghost use Rattle.thf_parse.specs.Internal.StatementReader as reader;
ghost use Rattle.thf_parse.specs.Internal.Reads.{ReadsBody};

use crate::cursor::Cursor;
use crate::formula::formula;
use crate::include::named;
use crate::refusal::Refusal;
use crate::room::deeper;
use crate::types::type_tree;
use std::alloc::Global;
use thf_grammar::{Body, Mark, Selected, Terminal};

/// What the name is declared as, from the colon behind it on.
#[tactic(auto, unfolding(crate::specs::Internal::StatementReader::declared))]
fn declared(alloc: Global, room: u32, label: Selected, cursor: &mut Cursor) -> Result<Body, Refusal>
    ensures { ReadsBody cursor.new result (reader.declared (type_with (inner_type room)) (the_selected label) cursor.old) }
{
    let Selected { at, name } = label;
    cursor.expect(Mark::Colon)?;
    match cursor.found() {
        Terminal::TypeOfTypes => {
            cursor.advance();
            Ok(Body::Base { at, name })
        }
        _ => {
            let ty = type_tree(alloc, room, cursor)?;
            Ok(Body::Typing { at, name, ty })
        }
    }
}

/// A typing.
#[cycle(typing)]
#[tactic(auto, unfolding(crate::specs::Internal::StatementReader::typing_with))]
fn typing(alloc: Global, room: u32, cursor: &mut Cursor) -> Result<Body, Refusal>
    ensures { ReadsBody cursor.new result (reader.typing_with (type_with (inner_type room)) (reader.inner_typing room) cursor.old) }
{
    match cursor.found() {
        Terminal::Lower | Terminal::Quoted => {
            let name = named(alloc, cursor)?;
            declared(alloc, room, name, cursor)
        }
        Terminal::Mark(Mark::Open) => group_typing(alloc, room, cursor),
        _ => Err(Refusal::Wrong),
    }
}

/// A typing in parentheses.
#[cycle(typing)]
#[tactic(auto, unfolding(crate::specs::Internal::StatementReader::inner_typing))]
fn group_typing(alloc: Global, room: u32, cursor: &mut Cursor) -> Result<Body, Refusal>
    ensures { ReadsBody cursor.new result (reader.group_typing (reader.inner_typing room) cursor.old) }
{
    let inner = deeper(room)?;
    cursor.advance();
    let inside = typing(alloc, inner, cursor)?;
    cursor.expect(Mark::Close)?;
    Ok(inside)
}

/// The body of an annotated formula with this role.
#[tactic(auto, unfolding(crate::specs::Internal::StatementReader::body_reader))]
pub fn body(alloc: Global, room: u32, role: &[u8], cursor: &mut Cursor) -> Result<Body, Refusal>
    ensures { ReadsBody cursor.new result (reader.body_reader room role.now cursor.old) }
{
    if role == b"type".as_slice() {
        return typing(alloc, room, cursor);
    }
    let tree = formula(alloc, room, cursor)?;
    Ok(Body::Formula(Box::into_inner(tree)))
}
