//! Terms from the parts that are there.

ghost use Rattle.std.specs.Prelude.{◌≡◌, ◌<◌, ◌-◌, suc, [], length, map, IfOk, OnOk, OnErr, All, option_map};
ghost use Rattle.stt_core.specs.ContextView.{the_context};
ghost use Rattle.stt_core.specs.Lambda.{lam, applied};
ghost use Rattle.stt_core.specs.SimpleType.{SimpleType, arrow};
ghost use Rattle.stt_core.specs.Typing.{type_of};
ghost use Rattle.stt_core.specs.View.{the_head, the_type};
ghost use Rattle.term_bank.specs.Content.{content_scope, HasTerm, Grows};
ghost use Rattle.term_bank.specs.NodeView.{the_shape};
ghost use Rattle.term_bank.specs.Terms.{term_at, shape_term, IsBelow, IsTypedTerm};

use crate::bank::Bank;
use crate::node::{Id, Node};
use std::alloc::AllocError;
use stt_core::{Context, Declared, Head, Ty, head_type};

/// The number of the term at this place. There is no room for more than 2^32 terms.
fn number_of(place: usize) -> Result<Id, AllocError>
    ensures { IfOk result (λ id. id ≡ place) }
{
    match Id::try_from(place) {
        Ok(id) => Ok(id),
        Err(_) => Err(AllocError),
    }
}

impl Bank {
    /// The type of a head in a context, where it has one.
    pub fn head_type(&self, ctx: &Context, head: &Head) -> Result<Option<Ty>, AllocError>
        ensures { IfOk result (λ o. option_map the_type o ≡ type_of (content_scope self.now) (the_context ctx.now) (the_head head.now)) }
    {
        let declared = Declared {
            sig: &self.sig,
            wits: &self.wits,
        };
        Ok(head_type(self.alloc, &declared, ctx, head)?)
    }

    /// The number of the function with this body, whose argument has this type.
    #[inline(never)]
    pub fn intern_lam(&mut self, ty: &Ty, body: Id) -> Result<Id, AllocError>
        requires within { body < length self.old.terms }
        requires typed { IsTypedTerm (content_scope self.old) (lam (the_type ty.now) (term_at self.old.terms body)) }
        ensures term { IfOk result (λ id. HasTerm self.new id (lam (the_type ty.now) (term_at self.old.terms body))) }
        ensures grows { Grows self.old self.new }
        ensures err { OnErr result (self.new ≡ self.old) }
    {
        let node = Node::lam(self.alloc, ty, body)?;
        self.intern(node)
    }

    /// The number of the head with all its arguments.
    #[inline(never)]
    pub fn intern_app(&mut self, head: &Head, args: &[Id]) -> Result<Id, AllocError>
        requires within { All (λ i. i < length self.old.terms) args.now }
        requires typed { IsTypedTerm (content_scope self.old) (applied (the_head head.now) (map (term_at self.old.terms) args.now)) }
        ensures term { IfOk result (λ id. HasTerm self.new id (applied (the_head head.now) (map (term_at self.old.terms) args.now))) }
        ensures grows { Grows self.old self.new }
        ensures err { OnErr result (self.new ≡ self.old) }
    {
        let node = Node::app(self.alloc, head, args)?;
        self.intern(node)
    }

    /// The number of the term of a node, which is added where it isn't there.
    fn intern(&mut self, node: Node) -> Result<Id, AllocError>
        requires below { IsBelow (length self.old.terms) (the_shape node) }
        requires typed { IsTypedTerm (content_scope self.old) (shape_term self.old.terms (the_shape node)) }
        ensures term { IfOk result (λ id. HasTerm self.new id (shape_term self.old.terms (the_shape node))) }
        ensures grows { Grows self.old self.new }
        ensures err { OnErr result (self.new ≡ self.old) }
    {
        match self.nodes.get_index_of(&node) {
            Some(place) => Ok(number_of(place)?),
            None => {
                let id = number_of(self.nodes.len())?;
                let marks = self.node_marks(&node)?;
                self.nodes.insert(node, marks)?;
                Ok(id)
            }
        }
    }
}
