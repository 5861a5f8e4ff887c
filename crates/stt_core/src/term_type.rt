//! Which type a term has.

ghost use Rattle.std.specs.Prelude.{◌≡◌, IfOk, option_map, reverse};
ghost use Rattle.stt_core.specs.Lambda.{IsLeaf};
ghost use Rattle.stt_core.specs.Typing.{type_of as type_in_scope};
ghost use Rattle.stt_core.specs.View.{the_type, the_term, the_head};
ghost use Rattle.stt_core.specs.ScopeView.{the_scope};
ghost use Rattle.stt_core.specs.ContextView.{the_context, declared_scope};

use crate::nf::Head;
use crate::signature::Signature;
use crate::term::Term;
use crate::ty::{Ty, Types};
use crate::typing::{Context, Declared, abstracted, applied_to, head_type};
use std::alloc::{AllocError, Global};

impl Term {
    /// A variable or a constant as a head.
    pub fn to_head(&self, alloc: Global) -> Result<Head, AllocError>
        requires { IsLeaf (the_term self.now) }
        ensures { IfOk result (λ head. the_head head ≡ the_term self.now) }
    {
        match self {
            Term::Bound(k) => Ok(Head::Bound(*k)),
            Term::Name(k) => Ok(Head::Name(*k)),
            Term::Wit(k) => Ok(Head::Wit(*k)),
            Term::False => Ok(Head::False),
            Term::Not => Ok(Head::Not),
            Term::Imp => Ok(Head::Imp),
            Term::All(a) => Ok(Head::All(a.try_clone(alloc)?)),
            Term::Eq(a) => Ok(Head::Eq(a.try_clone(alloc)?)),
            Term::Choice(a) => Ok(Head::Choice(a.try_clone(alloc)?)),
            Term::Desc(a) => Ok(Head::Desc(a.try_clone(alloc)?)),
            Term::Lam(_, _) => unreachable!(),
            Term::App(_, _) => unreachable!(),
        }
    }
}

/// The type of a term.
fn term_type(
    alloc: Global,
    declared: &Declared,
    ctx: &Context,
    term: &Term,
) -> Result<Option<Ty>, AllocError>
    ensures { IfOk result (λ o. option_map the_type o ≡ type_in_scope (declared_scope declared.now) (the_context ctx.now)
        (the_term term.now)) }
{
    match term {
        Term::Lam(a, body) => {
            let inner = Context::Inner(&*a, &*ctx);
            let outcome = term_type(alloc, declared, &inner, body)?;
            Ok(abstracted(alloc, declared, a, outcome)?)
        }
        Term::App(function, argument) => {
            let function = term_type(alloc, declared, ctx, function)?;
            let argument = term_type(alloc, declared, ctx, argument)?;
            Ok(applied_to(alloc, function, argument)?)
        }
        _ => {
            let head = term.to_head(alloc)?;
            Ok(head_type(alloc, declared, ctx, &head)?)
        }
    }
}

/// The type of a term over a signature and witnesses of these types, or none where it has none. `ctx` has the types of the term's free
/// bound variables: the last one is the innermost, that of `Bound(0)`.
pub fn type_of(
    alloc: Global,
    sig: &Signature,
    wits: &Types,
    ctx: &Types,
    term: &Term,
) -> Result<Option<Ty>, AllocError>
    ensures { IfOk result (λ o. option_map the_type o ≡ type_in_scope (the_scope sig.now wits.now) (reverse ctx.now) (the_term term.now)) }
{
    let declared = Declared { sig, wits };
    Ok(term_type(alloc, &declared, &Context::Outer(ctx), term)?)
}
