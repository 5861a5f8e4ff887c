//! The variables of binders.
ghost use Rattle.std.specs.Prelude.{◌≡◌, [], ◌∷◌, ◌++◌, IfOk};
ghost use Rattle.thf_grammar.specs.View.{the_var, the_vars};
ghost use Rattle.thf_parse.specs.Internal.Reader.{inner_type, type_with};
ghost use Rattle.thf_parse.specs.Internal.FormulaReader as reader;
ghost use Rattle.thf_parse.specs.Internal.Reads.{ReadsVar};

use crate::cursor::Cursor;
use crate::refusal::Refusal;
use crate::types::type_tree;
use std::alloc::{AllocError, Global};
use thf_grammar::{Mark, SurfaceTy, SurfaceVar, SurfaceVars, Terminal};

/// The variable whose name is the first token, where `room` more things may be open at once.
#[tactic(auto, unfolding(crate::specs::Internal::FormulaReader::variable_at))]
pub fn variable(alloc: Global, room: u32, cursor: &mut Cursor) -> Result<SurfaceVar, Refusal>
    ensures { ReadsVar cursor.new result (reader.variable_at (type_with (inner_type room)) cursor.old) }
{
    let at = cursor.place();
    let name = cursor.name(alloc)?;
    cursor.advance();
    match cursor.found() {
        Terminal::Mark(Mark::Colon) => {
            cursor.advance();
            let ty = type_tree(alloc, room, cursor)?;
            Ok(SurfaceVar { at, name, ty })
        }
        _ => Ok(SurfaceVar {
            at,
            name,
            ty: SurfaceTy::Indiv { at },
        }),
    }
}

/// The variables with one more.
pub fn with_variable(mut vars: SurfaceVars, var: SurfaceVar) -> Result<SurfaceVars, AllocError>
    ensures { IfOk result (λ more. the_vars more ≡ the_vars vars ++ the_var var ∷ []) }
{
    vars.push(var)?;
    Ok(vars)
}
