//! Labels, and includes.
ghost use Rattle.std.specs.Prelude.{◌≡◌, ◌∷◌, [], ◌++◌, map, IfOk};
ghost use Rattle.thf_grammar.specs.View.{the_selected};
ghost use Rattle.thf_parse.specs.Internal.StatementReader as reader;
ghost use Rattle.thf_parse.specs.Internal.Reads.{ReadsLabel, ReadsLabels, ReadsSelection, ReadsStatement};

use crate::cursor::Cursor;
use crate::refusal::Refusal;
use crate::statement::finish;
use std::alloc::{AllocError, Global};
use thf_grammar::{Mark, Selected, Selection, Statement, Terminal};

/// The first token as a name with its place.
pub fn named(alloc: Global, cursor: &mut Cursor) -> Result<Selected, Refusal>
    ensures { ReadsLabel cursor.new result (reader.selected_name_reader cursor.old) }
{
    let at = cursor.place();
    let name = cursor.name(alloc)?;
    cursor.advance();
    Ok(Selected { at, name })
}

#[tactic(auto, unfolding(crate::specs::Internal::StatementReader::label))]
pub fn label(alloc: Global, cursor: &mut Cursor) -> Result<Selected, Refusal>
    ensures { ReadsLabel cursor.new result (reader.label cursor.old) }
{
    match cursor.found() {
        Terminal::Lower | Terminal::Quoted | Terminal::Integer => named(alloc, cursor),
        _ => Err(Refusal::Wrong),
    }
}

#[tactic(auto, unfolding(crate::specs::Internal::StatementReader::quoted_reader))]
fn quoted(alloc: Global, cursor: &mut Cursor) -> Result<Selected, Refusal>
    ensures { ReadsLabel cursor.new result (reader.quoted_reader cursor.old) }
{
    match cursor.found() {
        Terminal::Quoted => named(alloc, cursor),
        _ => Err(Refusal::Wrong),
    }
}

/// The labels with one more.
fn with_label(mut labels: Selection, label: Selected) -> Result<Selection, AllocError>
    ensures { IfOk result (λ more. map the_selected more ≡ map the_selected labels ++ the_selected label ∷ []) }
{
    labels.push(label)?;
    Ok(labels)
}

/// The selected names in brackets.
#[tactic(auto, unfolding(crate::specs::Internal::StatementReader::names))]
fn names(alloc: Global, cursor: &mut Cursor) -> Result<Option<Selection>, Refusal>
    ensures { ReadsSelection cursor.new result (reader.names cursor.old) }
{
    cursor.expect(Mark::OpenList)?;
    let labels = labels(alloc, cursor)?;
    cursor.expect(Mark::CloseList)?;
    Ok(Some(labels))
}

fn labels(alloc: Global, cursor: &mut Cursor) -> Result<Selection, Refusal>
    ensures { ReadsLabels cursor.new result (reader.labels cursor.old) }
{
    let mut labels = Selection::new(alloc);
    'labels: loop {
        let read = match label(alloc, cursor) {
            Ok(read) => read,
            Err(refusal) => return Err(refusal),
        };
        labels = with_label(labels, read)?;
        if !cursor.found().is_mark(Mark::Comma) {
            return Ok(labels);
        }
        cursor.advance();
    }
}

#[tactic(auto, unfolding(crate::specs::Internal::StatementReader::selection))]
fn selection(alloc: Global, cursor: &mut Cursor) -> Result<Option<Selection>, Refusal>
    ensures { ReadsSelection cursor.new result (reader.selection cursor.old) }
{
    match cursor.found() {
        Terminal::Mark(Mark::Comma) => {
            cursor.advance();
            names(alloc, cursor)
        }
        _ => Ok(None),
    }
}

/// An include from its parenthesis on.
#[tactic(auto, unfolding(crate::specs::Internal::StatementReader::include))]
pub fn include(alloc: Global, cursor: &mut Cursor) -> Result<Statement, Refusal>
    ensures { ReadsStatement cursor.new result (reader.include cursor.old) }
{
    cursor.expect(Mark::Open)?;
    let file = quoted(alloc, cursor)?;
    let only = selection(alloc, cursor)?;
    finish(cursor)?;
    Ok(Statement::Include {
        at: file.at,
        file: file.name,
        only,
    })
}
