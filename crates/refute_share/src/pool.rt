//! Terms of which each is made once.
ghost use Rattle.std.specs.Prelude.{◌≡◌, ◌<◌, [], length, Some, slice_get, IfOk, IfSome, OnOk, List};
ghost use Rattle.stt_core.specs.Lambda.{Lambda, lambdas};
ghost use Rattle.term_bank.specs.Terms.{term_at};
ghost use Rattle.refute_share.specs.KnownTerms.{KnowsTerms};
ghost use Rattle.refute_share.specs.Internal.Room.{HasNoMore};

use crate::term::{SharedTerm, SharedTerms};
use std::alloc::{AllocError, Global};
use std::marker::Model;
use std::rc::Rc;
use stt_core::Types;
use term_bank::{Bank, Id, Node};

/// The terms of a bank that were made so far, at their numbers. Others share them, so that each distinct term is there once however often
/// it occurs.
#[derive(Drop)]
pub struct TermPool {
    made: Vec<Option<Rc<SharedTerm>>>,
    alloc: Global,
}

impl Model for TermPool {
    ghost use Rattle.std.specs.Prelude.{List, Option, map, option_map};
    ghost use Rattle.std.specs.Coded.{coded_list, coded_option};
    ghost use Rattle.stt_core.specs.Lambda.{Lambda};
    ghost use Rattle.stt_core.specs.Internal.LambdaCode.{lambda_code};

    ghost Value = { List (Option Lambda) };

    ghost coded = { coded_list (coded_option lambda_code) };

    ghost view = { λ p. map (option_map (λ t. t.value)) p.made.items };
}

/// Room for a term at a place.
fn room_for(made: &mut Vec<Option<Rc<SharedTerm>>>, place: usize) -> Result<(), AllocError>
    ensures room { OnOk result (place < length made.new.items) }
    ensures no_more { OnOk result (HasNoMore made.old.items made.new.items) }
{
    while made.len() <= place {
        made.push(None)?;
    }
    Ok(())
}

impl TermPool {
    /// A pool without terms.
    pub fn new(alloc: Global) -> TermPool
        ensures { result ≡ [] }
    {
        TermPool {
            made: Vec::new(alloc),
            alloc,
        }
    }

    /// The term of a number, where it was made.
    fn find(&self, id: Id) -> Result<Option<Rc<SharedTerm>>, AllocError>
        ensures { IfOk result (λ o. IfSome o (λ term. slice_get self.now id ≡ Some (Some term.value))) }
    {
        match self.made.get(id as usize) {
            Some(Some(term)) => Ok(Some(Rc::clone(term)?)),
            _ => Ok(None),
        }
    }

    /// Keeps the term of a number.
    fn keep(&mut self, id: Id, term: &Rc<SharedTerm>) -> Result<(), AllocError>
        ensures { OnOk result ((terms : List Lambda) → KnowsTerms terms self.old → term.now.value ≡ term_at terms id
            → KnowsTerms terms self.new) }
    {
        let shared = Rc::clone(term)?;
        room_for(&mut self.made, id as usize)?;
        self.made[id as usize] = Some(shared);
        Ok(())
    }

    /// The term of a number under binders.
    #[cycle(share)]
    fn share_under(
        &mut self,
        bank: &Bank,
        mut binders: Types,
        id: Id,
    ) -> Result<SharedTerm, AllocError>
        requires within { id < length bank.now.terms }
        requires known { KnowsTerms bank.now.terms self.old }
        ensures known { OnOk result (KnowsTerms bank.now.terms self.new) }
        ensures term { IfOk result (λ term. term ≡ lambdas binders (term_at bank.now.terms id)) }
    {
        match bank.node(id) {
            Node::Lam { ty, body } => {
                binders.push(ty.try_clone(self.alloc)?)?;
                Ok(self.share_under(bank, binders, *body)?)
            }
            Node::App { head, args } => {
                let mut terms = SharedTerms::new(self.alloc);
                for i in 0..args.len() {
                    let term = self.share(bank, args.at(i))?;
                    terms.push(term)?;
                }
                Ok(SharedTerm {
                    binders,
                    head: head.try_clone(self.alloc)?,
                    args: terms,
                })
            }
        }
    }

    /// The term of a number, which is made where it isn't there yet.
    #[cycle(share)]
    pub fn share(&mut self, bank: &Bank, id: Id) -> Result<Rc<SharedTerm>, AllocError>
        requires within { id < length bank.now.terms }
        requires known { KnowsTerms bank.now.terms self.old }
        ensures known { OnOk result (KnowsTerms bank.now.terms self.new) }
        ensures term { IfOk result (λ term. term.value ≡ term_at bank.now.terms id) }
    {
        if let Some(term) = self.find(id)? {
            return Ok(term);
        }
        let binders = Types::new(self.alloc);
        let term = self.share_under(bank, binders, id)?;
        let shared = Rc::new(self.alloc, term)?;
        self.keep(id, &shared)?;
        Ok(shared)
    }
}
