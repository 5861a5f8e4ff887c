//! Whole terms in and out of a bank.

ghost use Rattle.std.specs.Prelude.{◌≡◌, ◌<◌, length, IfOk};
ghost use Rattle.stt_core.specs.Lambda.{lambdas};
ghost use Rattle.term_bank.specs.Content.{content_scope, HasTerm, Grows};
ghost use Rattle.term_bank.specs.Terms.{term_at, IsTypedTerm};

use crate::bank::Bank;
use crate::node::{Id, Ids, Node};
use std::alloc::AllocError;
use stt_core::{Nf, Nfs, Types};

impl Bank {
    /// The number of a term. Where memory runs out, some of its parts may have come in.
    pub fn import(&mut self, nf: &Nf) -> Result<Id, AllocError>
        requires { IsTypedTerm (content_scope self.old) nf.now }
        ensures term { IfOk result (λ id. HasTerm self.new id nf.now) }
        ensures grows { Grows self.old self.new }
    {
        let mut args = Ids::new(self.alloc);
        for i in 0..nf.args.len() {
            let arg = self.import(nf.args.at(i))?;
            args.push(arg)?;
        }
        let mut id = self.intern_app(&nf.head, args.as_slice())?;
        let count = nf.binders.len();
        for k in 0..count {
            id = self.intern_lam(nf.binders.at(count - 1 - k), id)?;
        }
        Ok(id)
    }

    /// The term, as a tree, in which nothing is shared.
    pub fn export(&self, id: Id) -> Result<Nf, AllocError>
        requires { id < length self.now.terms }
        ensures { IfOk result (λ nf. nf ≡ term_at self.now.terms id) }
    {
        Ok(self.export_under(Types::new(self.alloc), id)?)
    }

    /// The term under binders.
    fn export_under(&self, mut binders: Types, id: Id) -> Result<Nf, AllocError>
        requires { id < length self.now.terms }
        ensures { IfOk result (λ nf. nf ≡ lambdas binders (term_at self.now.terms id)) }
    {
        match self.node(id) {
            Node::Lam { ty, body } => {
                binders.push(ty.try_clone(self.alloc)?)?;
                Ok(self.export_under(binders, *body)?)
            }
            Node::App { head, args } => {
                let mut trees = Nfs::new(self.alloc);
                for i in 0..args.len() {
                    let tree = self.export_under(Types::new(self.alloc), args.at(i))?;
                    trees.push(tree)?;
                }
                Ok(Nf {
                    binders,
                    head: head.try_clone(self.alloc)?,
                    args: trees,
                })
            }
        }
    }
}
