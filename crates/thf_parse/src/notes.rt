//! Notes, which are read and not kept. In each reader, `room` is how many more things may be open at once.
ghost use Rattle.thf_parse.specs.Internal.NoteReader as reader;
ghost use Rattle.thf_parse.specs.Internal.Outcome.{first_terminal};
ghost use Rattle.thf_parse.specs.Internal.Passes.{Passes};

use crate::cursor::Cursor;
use crate::refusal::Refusal;
use crate::room::deeper;
use thf_grammar::{Mark, Terminal};

/// The arguments of a name, where it has any.
#[cycle(notes)]
#[tactic(auto, unfolding(crate::specs::Internal::NoteReader::called, crate::specs::Internal::NoteReader::inner_notes))]
fn called(room: u32, cursor: &mut Cursor) -> Result<(), Refusal>
    ensures { Passes cursor.new result (reader.called (reader.inner_notes room) cursor.old) }
{
    match cursor.found() {
        Terminal::Mark(Mark::Open) => {
            let inner = deeper(room)?;
            cursor.advance();
            generals(inner, cursor)?;
            cursor.expect(Mark::Close)
        }
        _ => Ok(()),
    }
}

#[cycle(notes)]
#[tactic(auto, unfolding(crate::specs::Internal::NoteReader::data_at))]
fn general_data(room: u32, cursor: &mut Cursor) -> Result<(), Refusal>
    ensures { Passes cursor.new result (reader.data_at (reader.inner_notes room) cursor.old) }
{
    match cursor.found() {
        Terminal::Lower | Terminal::Quoted => {
            cursor.advance();
            called(room, cursor)
        }
        Terminal::Upper | Terminal::Integer | Terminal::Distinct => {
            cursor.advance();
            Ok(())
        }
        _ => Err(Refusal::Wrong),
    }
}

/// A list, from its `[` on.
#[cycle(notes)]
#[tactic(auto, unfolding(crate::specs::Internal::NoteReader::inner_notes))]
fn list(room: u32, cursor: &mut Cursor) -> Result<(), Refusal>
    ensures { Passes cursor.new result (reader.list_at (reader.inner_notes room) cursor.old) }
{
    let inner = deeper(room)?;
    cursor.advance();
    listed(inner, cursor)
}

/// A list, from what stands behind its `[` on.
#[cycle(notes)]
fn listed(room: u32, cursor: &mut Cursor) -> Result<(), Refusal>
    ensures { Passes cursor.new result (reader.list_reader (reader.generals (reader.inner_notes room)) cursor.old) }
{
    match cursor.found() {
        Terminal::Mark(Mark::CloseList) => {
            cursor.advance();
            Ok(())
        }
        _ => {
            generals(room, cursor)?;
            cursor.expect(Mark::CloseList)
        }
    }
}

/// A colon and what follows it, where there is one.
#[cycle(notes)]
#[tactic(auto, unfolding(crate::specs::Internal::NoteReader::paired, crate::specs::Internal::NoteReader::inner_notes))]
fn paired(room: u32, cursor: &mut Cursor) -> Result<(), Refusal>
    ensures { Passes cursor.new result (reader.paired (reader.inner_notes room) cursor.old) }
{
    match cursor.found() {
        Terminal::Mark(Mark::Colon) => {
            let inner = deeper(room)?;
            cursor.advance();
            general(inner, cursor)
        }
        _ => Ok(()),
    }
}

#[cycle(notes)]
#[tactic(auto, unfolding(crate::specs::Internal::NoteReader::general))]
fn general(room: u32, cursor: &mut Cursor) -> Result<(), Refusal>
    ensures { Passes cursor.new result (reader.general (reader.inner_notes room) cursor.old) }
{
    match cursor.found() {
        Terminal::Mark(Mark::OpenList) => list(room, cursor),
        _ => {
            general_data(room, cursor)?;
            paired(room, cursor)
        }
    }
}

#[cycle(notes)]
fn generals(room: u32, cursor: &mut Cursor) -> Result<(), Refusal>
    ensures { Passes cursor.new result (reader.generals (reader.inner_notes room) cursor.old) }
{
    'items: loop {
        match general(room, cursor) {
            Ok(()) => (),
            Err(refusal) => return Err(refusal),
        }
        if !cursor.found().is_mark(Mark::Comma) {
            return Ok(());
        }
        cursor.advance();
    }
}

/// The notes, where there are any.
#[tactic(auto, unfolding(crate::specs::Internal::NoteReader::notes))]
pub fn notes(room: u32, cursor: &mut Cursor) -> Result<(), Refusal>
    ensures { Passes cursor.new result (reader.notes (reader.inner_notes room) cursor.old) }
{
    match cursor.found() {
        Terminal::Mark(Mark::Comma) => {
            cursor.advance();
            general(room, cursor)?;
            second_note(room, cursor)
        }
        _ => Ok(()),
    }
}

/// A second note, where there is one.
fn second_note(room: u32, cursor: &mut Cursor) -> Result<(), Refusal>
    ensures { Passes cursor.new result (reader.second_note (reader.inner_notes room) (first_terminal cursor.old) cursor.old) }
{
    match cursor.found() {
        Terminal::Mark(Mark::Comma) => {
            cursor.advance();
            general(room, cursor)
        }
        _ => Ok(()),
    }
}
