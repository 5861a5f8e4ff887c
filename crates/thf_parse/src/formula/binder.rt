//! The formulas of binders. In each reader, `room` is how many more things may be open at once.
ghost use Rattle.std.specs.Prelude.{◌≡◌};
ghost use Rattle.thf_grammar.specs.View.{the_vars};
ghost use Rattle.thf_grammar.specs.Formulas as grammar;
ghost use Rattle.thf_parse.specs.Internal.FormulaReader as reader;
ghost use Rattle.thf_parse.specs.Internal.Reads.{ReadsFormula};

use crate::cursor::Cursor;
use crate::formula::unit::unit;
use crate::refusal::Refusal;
use crate::room::deeper;
use crate::variable::{variable, with_variable};
use std::alloc::Global;
use thf_grammar::{Binder, Mark, Surface, SurfaceVars, Terminal};

/// A binder and the place where it stands.
#[derive(Clone, Copy)]
struct Bound {
    at: u32,
    binder: Binder,
}

fn binds_many(binder: Binder) -> bool
    ensures { result ≡ grammar.binds_many binder }
{
    match binder {
        Binder::All | Binder::Exists | Binder::Lam => true,
        Binder::Choice | Binder::Desc => false,
    }
}

/// The binder's formula that begins with the first token.
#[cycle(formulas)]
#[tactic(auto, unfolding(crate::specs::Internal::FormulaReader::binder_at, crate::specs::Internal::FormulaReader::inner))]
pub fn bind(
    alloc: Global,
    room: u32,
    binder: Binder,
    cursor: &mut Cursor,
) -> Result<Box<Surface>, Refusal>
    ensures { ReadsFormula cursor.new result (reader.binder_at (reader.inner room) binder cursor.old) }
{
    let at = cursor.place();
    let bound = Bound { at, binder };
    cursor.advance();
    match cursor.found() {
        Terminal::Mark(Mark::OpenList) => {
            deeper(room)?;
            cursor.advance();
            next_variable(alloc, room, bound, SurfaceVars::new(alloc), cursor)
        }
        _ => Err(Refusal::Wrong),
    }
}

/// The rest of a binder's formula from a variable on.
#[cycle(formulas)]
#[tactic(auto, unfolding(crate::specs::Internal::FormulaReader::next_variable, crate::specs::Internal::FormulaReader::inner))]
fn next_variable(
    alloc: Global,
    room: u32,
    bound: Bound,
    vars: SurfaceVars,
    cursor: &mut Cursor,
) -> Result<Box<Surface>, Refusal>
    ensures { ReadsFormula cursor.new result (reader.next_variable (reader.inner room) bound.binder bound.at (the_vars vars) cursor.old) }
{
    match cursor.found() {
        Terminal::Upper => {
            let inner = deeper(room)?;
            variables(alloc, inner, bound, vars, cursor)
        }
        _ => Err(Refusal::Wrong),
    }
}

/// The rest of a binder's formula from a variable on that is counted.
#[cycle(formulas)]
#[tactic(auto, unfolding(crate::specs::Internal::FormulaReader::bound, crate::specs::Internal::FormulaReader::inner))]
fn variables(
    alloc: Global,
    room: u32,
    bound: Bound,
    vars: SurfaceVars,
    cursor: &mut Cursor,
) -> Result<Box<Surface>, Refusal>
    ensures { ReadsFormula cursor.new result (reader.bound (reader.inner room) bound.binder bound.at (the_vars vars) cursor.old) }
{
    let inner = deeper(room)?;
    let var = variable(alloc, inner, cursor)?;
    let vars = with_variable(vars, var)?;
    behind_variable(alloc, room, bound, vars, cursor)
}

/// The rest of a binder's formula behind a variable.
#[cycle(formulas)]
#[tactic(auto, unfolding(crate::specs::Internal::FormulaReader::behind_variable))]
fn behind_variable(
    alloc: Global,
    room: u32,
    bound: Bound,
    vars: SurfaceVars,
    cursor: &mut Cursor,
) -> Result<Box<Surface>, Refusal>
    ensures { ReadsFormula cursor.new result (reader.behind_variable (reader.inner room) bound.binder bound.at (the_vars vars) cursor.old) }
{
    match cursor.found() {
        Terminal::Mark(Mark::Comma) => {
            if !binds_many(bound.binder) {
                return Err(Refusal::Wrong);
            }
            cursor.advance();
            next_variable(alloc, room, bound, vars, cursor)
        }
        Terminal::Mark(Mark::CloseList) => {
            cursor.advance();
            body(alloc, room, bound, vars, cursor)
        }
        _ => Err(Refusal::Wrong),
    }
}

/// A binder's formula, from the colon before its body on.
#[cycle(formulas)]
#[tactic(auto, unfolding(crate::specs::Internal::FormulaReader::body))]
fn body(
    alloc: Global,
    room: u32,
    bound: Bound,
    vars: SurfaceVars,
    cursor: &mut Cursor,
) -> Result<Box<Surface>, Refusal>
    ensures { ReadsFormula cursor.new result (reader.body (reader.inner room) bound.binder bound.at (the_vars vars) cursor.old) }
{
    cursor.expect(Mark::Colon)?;
    let body = unit(alloc, room, cursor)?;
    let binding = Surface::Bind {
        at: bound.at,
        binder: bound.binder,
        vars,
        body,
    };
    Ok(Box::new(alloc, binding)?)
}
