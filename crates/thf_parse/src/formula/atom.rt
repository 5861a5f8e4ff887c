//! Formulas of one token.
ghost use Rattle.thf_parse.specs.Internal.FormulaReader as reader;
ghost use Rattle.thf_parse.specs.Internal.Reads.{ReadsFormula};

use crate::cursor::Cursor;
use crate::refusal::Refusal;
use std::alloc::Global;
use thf_grammar::Surface;

pub fn constant(alloc: Global, cursor: &mut Cursor) -> Result<Box<Surface>, Refusal>
    ensures { ReadsFormula cursor.new result (reader.constant_reader cursor.old) }
{
    let at = cursor.place();
    let name = cursor.name(alloc)?;
    cursor.advance();
    Ok(Box::new(alloc, Surface::Name { at, name })?)
}

pub fn variable_term(alloc: Global, cursor: &mut Cursor) -> Result<Box<Surface>, Refusal>
    ensures { ReadsFormula cursor.new result (reader.variable_term_at cursor.old) }
{
    let at = cursor.place();
    let name = cursor.name(alloc)?;
    cursor.advance();
    Ok(Box::new(alloc, Surface::Var { at, name })?)
}

pub fn truth(alloc: Global, value: bool, cursor: &mut Cursor) -> Result<Box<Surface>, Refusal>
    ensures { ReadsFormula cursor.new result (reader.truth_at value cursor.old) }
{
    let at = cursor.place();
    cursor.advance();
    Ok(Box::new(alloc, Surface::Truth { at, value })?)
}
