//! Terms with their types, and what a node asks of the types of its parts.

ghost use Rattle.std.specs.Prelude.{◌≡◌, Some, IfOk, option_map};
ghost use Rattle.stt_core.specs.Typing.{applied_type};
ghost use Rattle.stt_core.specs.View.{the_type, the_term};
ghost use Rattle.type_check.specs.Internal.Answers.{AnswersCheck};
ghost use Rattle.type_check.specs.Typed as defined;
ghost use Rattle.type_check.specs.Internal.TypedView.{the_type_of, the_typed};

use crate::refusal::{IllWhy, Refusal};
use std::alloc::{AllocError, Global};
use stt_core::{Term, Ty};

/// The type of a term: one that is kept elsewhere, or one that is made for the term.
#[derive(Drop)]
pub(crate) enum TypeOf<'a> {
    Kept(&'a Ty),
    Made(Ty),
}

/// A term and its type.
#[derive(Drop)]
pub(crate) struct Typed<'a> {
    pub(crate) term: Term,
    pub(crate) ty: TypeOf<'a>,
}

impl<'a> TypeOf<'a> {
    pub(crate) fn get(&self) -> &Ty
        ensures { the_type result.now ≡ the_type_of self.now }
    {
        match self {
            TypeOf::Kept(ty) => ty,
            TypeOf::Made(ty) => ty,
        }
    }

    /// The type as one's own.
    pub(crate) fn into_made(self, alloc: Global) -> Result<Ty, AllocError>
        ensures { IfOk result (λ ty. the_type ty ≡ the_type_of self.entry) }
    {
        match self {
            TypeOf::Kept(ty) => ty.try_clone(alloc),
            TypeOf::Made(ty) => Ok(ty),
        }
    }

    /// The type of what a function of this type gives at an argument.
    pub(crate) fn applied_to(
        self,
        alloc: Global,
        argument: &Ty,
    ) -> Result<Option<TypeOf<'a>>, AllocError>
        ensures { IfOk result (λ o. option_map the_type_of o ≡ applied_type (Some (the_type_of self.entry))
            (Some (the_type argument.now))) }
    {
        match self {
            TypeOf::Kept(Ty::Arrow(a, b)) => {
                if a.same(argument) {
                    Ok(Some(TypeOf::Kept(b)))
                } else {
                    Ok(None)
                }
            }
            TypeOf::Made(Ty::Arrow(a, b)) => {
                if a.same(argument) {
                    Ok(Some(TypeOf::Made(b.try_clone(alloc)?)))
                } else {
                    Ok(None)
                }
            }
            TypeOf::Kept(Ty::Base(_)) => Ok(None),
            TypeOf::Made(Ty::Base(_)) => Ok(None),
        }
    }

    /// The type whose predicates have this type.
    pub(crate) fn into_domain(self, alloc: Global) -> Result<Option<Ty>, AllocError>
        ensures { IfOk result (λ a. option_map the_type a ≡ defined.domain (the_type_of self.entry)) }
    {
        match self {
            TypeOf::Kept(Ty::Arrow(a, b)) => {
                if b.same(&Ty::Base(0)) {
                    Ok(Some(a.try_clone(alloc)?))
                } else {
                    Ok(None)
                }
            }
            TypeOf::Made(Ty::Arrow(a, b)) => {
                if b.same(&Ty::Base(0)) {
                    Ok(Some(a.try_clone(alloc)?))
                } else {
                    Ok(None)
                }
            }
            TypeOf::Kept(Ty::Base(_)) => Ok(None),
            TypeOf::Made(Ty::Base(_)) => Ok(None),
        }
    }
}

impl Typed<'_> {
    /// The term, where it has the type that the node at `at` wants of it.
    pub(crate) fn of_type(self, at: u32, ty: &Ty) -> Result<Term, Refusal>
        ensures { AnswersCheck the_term result (defined.of_type at (the_type ty.now) (the_typed self.entry)) }
    {
        if self.ty.get().same(ty) {
            Ok(self.term)
        } else {
            Err(Refusal::At {
                at,
                why: IllWhy::Mismatch,
            })
        }
    }

    /// The same with a type of its own.
    pub(crate) fn into_made(self, alloc: Global) -> Result<Typed<'static>, AllocError>
        ensures { IfOk result (λ made. the_typed made ≡ the_typed self.entry) }
    {
        Ok(Typed {
            term: self.term,
            ty: TypeOf::Made(self.ty.into_made(alloc)?),
        })
    }
}
