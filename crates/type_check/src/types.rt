//! The types that texts name.

ghost use Rattle.thf_grammar.specs.View as surface;
ghost use Rattle.stt_core.specs.View as core;
ghost use Rattle.type_check.specs.Types as defined;
ghost use Rattle.type_check.specs.Internal.Answers.{AnswersCheck};

use crate::declared::Declared;
use crate::refusal::{IllWhy, Refusal};
use std::alloc::Global;
use stt_core::{Symbol, Ty};
use thf_grammar::SurfaceTy;

/// The type that a name stands for.
fn base_named(at: u32, symbol: Option<Symbol>) -> Result<Ty, Refusal>
    ensures { AnswersCheck core.the_type result (defined.base_named at symbol) }
{
    match symbol {
        Some(Symbol::Base(n)) => Ok(Ty::Base(n)),
        Some(Symbol::Const(_)) | None => Err(Refusal::At {
            at,
            why: IllWhy::Unknown,
        }),
    }
}

/// Reads a type.
pub(crate) fn read_type(alloc: Global, declared: &Declared, ty: &SurfaceTy) -> Result<Ty, Refusal>
    ensures { AnswersCheck core.the_type result (defined.read_type declared.now (surface.the_surface_type ty.now)) }
{
    match ty {
        SurfaceTy::Form { .. } => Ok(Ty::Base(0)),
        SurfaceTy::Indiv { .. } => Ok(Ty::Base(1)),
        SurfaceTy::Named { at, name } => base_named(*at, declared.find(name)),
        SurfaceTy::Arrow { from, to, .. } => {
            let from = read_type(alloc, declared, from)?;
            let to = read_type(alloc, declared, to)?;
            Ok(Ty::function(alloc, from, to)?)
        }
    }
}
