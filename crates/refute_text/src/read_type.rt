//! Reads types.

ghost use Rattle.std.specs.Prelude.{◌≡◌};
ghost use Rattle.refute_text.specs.Internal.Reader.{behind_text, named_at, type_at};
ghost use Rattle.refute_text.specs.Internal.Refusals.{AnswersReader};
ghost use Rattle.refute_print.specs.View.{the_text_type};

use crate::read_name::{behind, name};
use crate::refusal::Refusal;
use refute_print::TextTy;
use std::alloc::Global;

/// A type, and what follows it.
#[derive(Drop)]
pub(crate) struct TypeRead<'a> {
    pub ty: TextTy,
    pub rest: &'a [u8],
}

/// What follows the text, with which the bytes are to begin.
pub(crate) fn expect<'a>(text: &[u8], bytes: &'a [u8]) -> Result<&'a [u8], Refusal>
    ensures { AnswersReader (λ rest. rest.now) result (behind_text text.now bytes.now) }
{
    match behind(text, bytes) {
        Some(rest) => Ok(rest),
        None => Err(Refusal::Form),
    }
}

fn named(alloc: Global, bytes: &[u8]) -> Result<TypeRead<'_>, Refusal>
    ensures { AnswersReader (λ r. (the_text_type r.ty, r.rest.now)) result (named_at bytes.now) }
{
    let read = name(alloc, bytes)?;
    Ok(TypeRead {
        ty: TextTy::Named(read.name),
        rest: read.rest,
    })
}

/// A type in which at most so many parentheses are open at once.
#[tactic(auto, unfolding(crate::specs::Internal::Reader::type_at))]
pub(crate) fn read_type(alloc: Global, depth: u32, bytes: &[u8]) -> Result<TypeRead<'_>, Refusal>
    ensures { AnswersReader (λ r. (the_text_type r.ty, r.rest.now)) result (type_at depth bytes.now) }
{
    if let Some(rest) = behind(b"$o", bytes) {
        return Ok(TypeRead {
            ty: TextTy::Form,
            rest,
        });
    }
    if let Some(rest) = behind(b"$i", bytes) {
        return Ok(TypeRead {
            ty: TextTy::Indiv,
            rest,
        });
    }
    let Some(rest) = behind(b"(", bytes) else {
        return named(alloc, bytes);
    };
    if depth == 0 {
        return Err(Refusal::Form);
    }
    let from = read_type(alloc, depth - 1, rest)?;
    let rest = expect(b">", from.rest)?;
    let to = read_type(alloc, depth - 1, rest)?;
    let rest = expect(b")", to.rest)?;
    let from = Box::new(alloc, from.ty)?;
    let to = Box::new(alloc, to.ty)?;
    Ok(TypeRead {
        ty: TextTy::Arrow(from, to),
        rest,
    })
}
