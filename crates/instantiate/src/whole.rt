//! Partial terms without holes as terms of a bank.
ghost use Rattle.std.specs.Prelude.{◌≡◌, None, map, IfOk};
ghost use Rattle.term_bank.specs.Content.{content_scope, HasTerm, Grows};
ghost use Rattle.term_bank.specs.Terms.{IsTypedTerm};
ghost use Rattle.instantiate.specs.Internal.Blanks.{term_of};
ghost use Rattle.instantiate.specs.Internal.Holes.{base_in, base_among};
ghost use Rattle.instantiate.specs.Internal.Interned.{AreTyped};
ghost use Rattle.term_bank.specs.Internal.Places.{HaveTerms};

use crate::partial::{Partial, PartialNode, Partials};
use std::alloc::{AllocError, Global};
use term_bank::{Bank, Id, Ids};

/// The number of the term. Where memory runs out, some of its parts may have come in.
#[cycle(intern)]
pub(crate) fn intern(alloc: Global, bank: &mut Bank, partial: &Partial) -> Result<Id, AllocError>
    requires whole { base_in partial.now ≡ None }
    requires typed { IsTypedTerm (content_scope bank.old) (term_of partial.now) }
    ensures term { IfOk result (λ id. HasTerm bank.new id (term_of partial.now)) }
    ensures grows { Grows bank.old bank.new }
{
    match &partial.node {
        PartialNode::Hole(_) => unreachable!(),
        PartialNode::Lam(ty, body) => {
            let body = intern(alloc, bank, body)?;
            bank.intern_lam(ty, body)
        }
        PartialNode::App(head, args) => {
            let args = intern_all(alloc, bank, args)?;
            bank.intern_app(head, args.as_slice())
        }
    }
}

/// The numbers of the terms.
#[cycle(intern)]
fn intern_all(alloc: Global, bank: &mut Bank, partials: &Partials) -> Result<Ids, AllocError>
    requires whole { base_among partials.now ≡ None }
    requires typed { AreTyped (content_scope bank.old) (map term_of partials.now) }
    ensures terms { IfOk result (λ ids. HaveTerms bank.new ids (map term_of partials.now)) }
    ensures grows { Grows bank.old bank.new }
{
    let mut ids = Ids::new(alloc);
    for i in 0..partials.len() {
        let id = intern(alloc, bank, partials.at(i))?;
        ids.push(id)?;
    }
    Ok(ids)
}
