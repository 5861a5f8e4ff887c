//! Statements.
ghost use Rattle.std.specs.Prelude.{◌≡◌};
ghost use Rattle.thf_parse.specs.Internal.StatementReader as reader;
ghost use Rattle.thf_parse.specs.Internal.Passes.{Passes};
ghost use Rattle.thf_parse.specs.Internal.Reads.{ReadsLabel, ReadsHead, ReadsStatement};

use crate::cursor::Cursor;
use crate::include::{include, label, named};
use crate::notes::notes;
use crate::refusal::Refusal;
use crate::typing::body;
use outside::Bytes;
use std::alloc::Global;
use thf_grammar::{Annotated, Mark, Selected, Statement, Terminal};

/// What a statement begins with.
#[derive(Clone, Copy)]
pub enum Keyword {
    Thf,
    Include,
    Unknown,
}

/// An annotated formula up to its body.
#[derive(Drop)]
pub struct Heading {
    pub name: Bytes,
    pub role: Selected,
}

fn keyword_in(text: &[u8]) -> Keyword
    ensures { result ≡ reader.keyword_in text.now }
{
    if text == b"thf".as_slice() {
        Keyword::Thf
    } else if text == b"include".as_slice() {
        Keyword::Include
    } else {
        Keyword::Unknown
    }
}

/// The keyword that is the first token.
#[tactic(auto, unfolding(crate::specs::Internal::StatementReader::keyword))]
fn first_keyword(cursor: &Cursor) -> Keyword
    ensures { result ≡ reader.keyword cursor.now }
{
    match cursor.found() {
        Terminal::Lower => keyword_in(cursor.text()),
        _ => Keyword::Unknown,
    }
}

#[tactic(auto, unfolding(crate::specs::Internal::StatementReader::role))]
fn role(alloc: Global, cursor: &mut Cursor) -> Result<Selected, Refusal>
    ensures { ReadsLabel cursor.new result (reader.role cursor.old) }
{
    match cursor.found() {
        Terminal::Lower => named(alloc, cursor),
        _ => Err(Refusal::Wrong),
    }
}

/// An annotated formula from its parenthesis up to its body.
#[tactic(auto, unfolding(crate::specs::Internal::StatementReader::head))]
fn head(alloc: Global, cursor: &mut Cursor) -> Result<Heading, Refusal>
    ensures { ReadsHead cursor.new result (reader.head cursor.old) }
{
    cursor.expect(Mark::Open)?;
    let label = label(alloc, cursor)?;
    cursor.expect(Mark::Comma)?;
    let role = role(alloc, cursor)?;
    cursor.expect(Mark::Comma)?;
    Ok(Heading {
        name: label.name,
        role,
    })
}

/// The end of a statement.
#[tactic(auto, unfolding(crate::specs::Internal::StatementReader::finish))]
pub fn finish(cursor: &mut Cursor) -> Result<(), Refusal>
    ensures { Passes cursor.new result (reader.finish cursor.old) }
{
    cursor.expect(Mark::Close)?;
    cursor.expect(Mark::Stop)
}

/// An annotated formula from its parenthesis on.
#[tactic(auto, unfolding(crate::specs::Internal::StatementReader::annotated))]
fn annotated(alloc: Global, room: u32, cursor: &mut Cursor) -> Result<Statement, Refusal>
    ensures { ReadsStatement cursor.new result (reader.annotated room cursor.old) }
{
    let head = head(alloc, cursor)?;
    let body = body(alloc, room, head.role.name.as_slice(), cursor)?;
    notes(room, cursor)?;
    finish(cursor)?;
    Ok(Statement::Annotated(Annotated {
        name: head.name,
        role: head.role.name,
        role_at: head.role.at,
        body,
    }))
}

/// The statement that the tokens begin with, where `room` things may be open at once.
#[tactic(auto, unfolding(crate::specs::Internal::StatementReader::statement))]
pub fn statement(alloc: Global, room: u32, cursor: &mut Cursor) -> Result<Statement, Refusal>
    ensures { ReadsStatement cursor.new result (reader.statement room cursor.old) }
{
    match first_keyword(cursor) {
        Keyword::Thf => {
            cursor.advance();
            annotated(alloc, room, cursor)
        }
        Keyword::Include => {
            cursor.advance();
            include(alloc, cursor)
        }
        Keyword::Unknown => Err(Refusal::Wrong),
    }
}
