//! The variables in scope.

ghost use Rattle.std.specs.Prelude.{◌≡◌, suc, IfOk, option_map};
ghost use Rattle.type_check.specs.Internal.TypedView.{the_typed};
ghost use Rattle.type_check.specs.Internal.ScopeView.{the_binders, found_in};

use crate::typed::{TypeOf, Typed};
use std::alloc::AllocError;
use stt_core::{Term, Ty};

/// The binders around a text, as a list that is linked from the innermost one outwards.
#[derive(Drop)]
pub(crate) enum Scope<'a> {
    Empty,
    Inner {
        name: &'a [u8],
        ty: &'a Ty,
        outer: &'a Scope<'a>,
    },
    /// A binder whose variable has no name: no text speaks of it.
    Hidden {
        outer: &'a Scope<'a>,
    },
}

/// One more. More binders than can be counted don't fit in memory.
fn one_more(k: u32) -> Result<u32, AllocError>
    ensures { IfOk result (λ n. n ≡ suc k) }
{
    match k.checked_add(1) {
        Some(n) => Ok(n),
        None => Err(AllocError),
    }
}

impl<'a> Scope<'a> {
    /// The innermost variable of that name, where `k` more binders stand before these.
    pub(crate) fn variable(&self, k: u32, name: &[u8]) -> Result<Option<Typed<'a>>, AllocError>
        ensures { IfOk result (λ x. option_map the_typed x ≡ found_in k (the_binders self.now) name.now) }
    {
        match self {
            Scope::Empty => Ok(None),
            Scope::Inner {
                name: innermost,
                ty,
                outer,
            } => {
                if *innermost == name {
                    Ok(Some(Typed {
                        term: Term::Bound(k),
                        ty: TypeOf::Kept(ty),
                    }))
                } else {
                    outer.variable(one_more(k)?, name)
                }
            }
            Scope::Hidden { outer } => outer.variable(one_more(k)?, name),
        }
    }
}
