//! The first hole of a partial term, and a head there.
ghost use Rattle.std.specs.Prelude.{◌≡◌, IfOk, option_map};
ghost use Rattle.stt_core.specs.View.{the_head};
ghost use Rattle.stt_core.specs.ContextView.{the_context};
ghost use Rattle.search_spec.specs.Partial.{first_hole};
ghost use Rattle.term_bank.specs.Content.{content_scope};
ghost use Rattle.instantiate.specs.Internal.Slots.{the_slot, slot_of};
ghost use Rattle.instantiate.specs.Internal.Holes.{first_among};

use crate::partial::{Partial, PartialNode, Partials};
use std::alloc::AllocError;
use stt_core::{Context, Head, Ty};
use term_bank::Bank;

/// A hole's base type, and the type of a head there.
#[derive(Drop)]
pub(crate) struct Slot {
    pub(crate) base: u32,
    pub(crate) ty: Option<Ty>,
}

/// The first hole, with the type of a head there.
#[cycle(slot)]
pub(crate) fn slot_in(
    bank: &Bank,
    ctx: &Context,
    partial: &Partial,
    head: &Head,
) -> Result<Option<Slot>, AllocError>
    ensures { IfOk result (λ o. option_map the_slot o ≡ option_map (slot_of (content_scope bank.now) (the_head head.now))
        (first_hole (the_context ctx.now) partial.now)) }
{
    match &partial.node {
        PartialNode::Hole(base) => Ok(Some(Slot {
            base: *base,
            ty: bank.head_type(ctx, head)?,
        })),
        PartialNode::Lam(ty, body) => {
            let inner = Context::Inner(&*ty, &*ctx);
            slot_in(bank, &inner, body, head)
        }
        PartialNode::App(_, args) => slot_among(bank, ctx, args, head),
    }
}

/// The first hole of several partial terms, with the type of a head there.
#[cycle(slot)]
fn slot_among(
    bank: &Bank,
    ctx: &Context,
    partials: &Partials,
    head: &Head,
) -> Result<Option<Slot>, AllocError>
    ensures { IfOk result (λ o. option_map the_slot o ≡ option_map (slot_of (content_scope bank.now) (the_head head.now))
        (first_among (the_context ctx.now) partials.now)) }
{
    for i in 0..partials.len() {
        match slot_in(bank, ctx, partials.at(i), head)? {
            Some(slot) => return Ok(Some(slot)),
            None => {}
        }
    }
    Ok(None)
}
