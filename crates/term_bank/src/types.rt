//! The types of closed terms.

ghost use Rattle.std.specs.Prelude.{◌≡◌, ◌<◌, [], length, Some, IfOk, option_map, IsSome};
ghost use Rattle.stt_core.specs.Canonical.{IsCanonical};
ghost use Rattle.stt_core.specs.ContextView.{the_context};
ghost use Rattle.stt_core.specs.Occurrence.{IsClosed};
ghost use Rattle.stt_core.specs.SimpleType.{base, target};
ghost use Rattle.stt_core.specs.Typing.{type_of};
ghost use Rattle.stt_core.specs.View.{the_head, the_type};
ghost use Rattle.term_bank.specs.Content.{content_scope};
ghost use Rattle.term_bank.specs.Internal.MarksView.{HasTypeIn};
ghost use Rattle.term_bank.specs.Terms.{term_at};

use crate::bank::Bank;
use crate::node::{Id, Node};
use std::alloc::AllocError;
use stt_core::{Context, Head, Ty};

/// The number of the base type that a function of this type gives in the end.
fn target_of(ty: &Ty) -> u32
    ensures { result ≡ target (the_type ty.now) }
{
    match ty {
        Ty::Base(n) => *n,
        Ty::Arrow(_, rest) => target_of(rest),
    }
}

impl Bank {
    /// The base type of a head with all its arguments.
    fn spine_type(&self, ctx: &Context, head: &Head) -> Result<Ty, AllocError>
        requires { IsSome (type_of (content_scope self.now) (the_context ctx.now) (the_head head.now)) }
        ensures { IfOk result (λ ty. Some (the_type ty) ≡ option_map (λ a. base (target a))
            (type_of (content_scope self.now) (the_context ctx.now) (the_head head.now))) }
    {
        match self.head_type(ctx, head)? {
            Some(ty) => Ok(Ty::Base(target_of(&ty))),
            None => unreachable!(),
        }
    }

    /// The type of a term in a context.
    fn type_under(&self, ctx: &Context, id: Id) -> Result<Ty, AllocError>
        requires within { id < length self.now.terms }
        requires typed { HasTypeIn (content_scope self.now) (the_context ctx.now) (term_at self.now.terms id) }
        ensures { IfOk result (λ ty. IsCanonical (content_scope self.now) (the_context ctx.now) (the_type ty) (term_at self.now.terms id)) }
    {
        match self.node(id) {
            Node::Lam { ty, body } => {
                let inner = Context::Inner(ty, ctx);
                let outcome = self.type_under(&inner, *body)?;
                Ok(Ty::function(self.alloc, ty.try_clone(self.alloc)?, outcome)?)
            }
            Node::App { head, args: _ } => Ok(self.spine_type(ctx, head)?),
        }
    }

    /// The type of a closed term, which is made anew at each call. The node is asked for its clause that the term is typed.
    pub fn ty(&self, id: Id) -> Result<Ty, AllocError>
        requires within { id < length self.now.terms }
        requires closed { IsClosed (term_at self.now.terms id) }
        ensures { IfOk result (λ ty. IsCanonical (content_scope self.now) [] (the_type ty) (term_at self.now.terms id)) }
    {
        let _node = self.node(id);
        Ok(self.type_under(&Context::Empty, id)?)
    }
}
