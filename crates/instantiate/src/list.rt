//! The terms of one type.
ghost use Rattle.std.specs.Prelude.{◌≡◌, ◌++◌, [], ◌∷◌, false, nat_eq, IfOk, OnOk, OnErr};
ghost use Rattle.std.specs.List.{list_any};
ghost use Rattle.stt_core.specs.SimpleType.{same_type};
ghost use Rattle.stt_core.specs.View.{the_type};

use indexmap::IndexSet;
use std::alloc::{AllocError, Global};
use std::marker::Model;
use stt_core::Ty;
use term_bank::Id;

/// A term, by its number, with its type.
#[derive(Drop)]
pub(crate) struct Listed {
    pub(crate) ty: Ty,
    pub(crate) id: Id,
}

impl Model for Listed {
    ghost use Rattle.std.specs.Coded.{coded×, coded_ℕ};
    ghost use Rattle.stt_core.specs.Internal.TypeCode.{type_code};
    ghost use Rattle.stt_core.specs.View.{the_type};
    ghost use Rattle.instantiate.specs.Listing.{Listing};

    ghost Value = { Listing };

    ghost coded = { coded× type_code coded_ℕ };

    ghost view = { λ l. (the_type l.ty, l.id) };
}

impl Listed {
    pub(crate) fn new(alloc: Global, ty: &Ty, id: Id) -> Result<Listed, AllocError>
        ensures { IfOk result (λ l. l ≡ (the_type ty.now, id)) }
    {
        Ok(Listed {
            ty: ty.try_clone(alloc)?,
            id,
        })
    }
}

/// A type with its terms, each there once.
#[derive(Drop)]
pub(crate) struct TermList {
    ty: Ty,
    terms: IndexSet<Id>,
}

impl Model for TermList {
    ghost use Rattle.std.specs.Coded.{coded×, coded_list, coded_ℕ};
    ghost use Rattle.stt_core.specs.Internal.TypeCode.{type_code};
    ghost use Rattle.stt_core.specs.View.{the_type};
    ghost use Rattle.instantiate.specs.Internal.Groups.{Group};

    ghost Value = { Group };

    ghost coded = { coded× type_code (coded_list coded_ℕ) };

    ghost view = { λ l. (the_type l.ty, l.terms.keys) };
}

impl TermList {
    pub(crate) fn new(alloc: Global, ty: &Ty, id: Id) -> Result<TermList, AllocError>
        ensures { IfOk result (λ l. l ≡ (the_type ty.now, id ∷ [])) }
    {
        let mut terms = IndexSet::new(alloc);
        terms.insert(id)?;
        Ok(TermList {
            ty: ty.try_clone(alloc)?,
            terms,
        })
    }

    /// Whether these are the terms of the type.
    pub(crate) fn is_of(&self, ty: &Ty) -> bool
        ensures { result ≡ same_type (the_type ty.now) self.now.0 }
    {
        ty.same(&self.ty)
    }

    pub(crate) fn has(&self, id: Id) -> bool
        ensures { result ≡ list_any (nat_eq id) self.now.1 }
    {
        self.terms.contains(&id)
    }

    /// Appends a term that isn't there.
    pub(crate) fn push(&mut self, id: Id) -> Result<(), AllocError>
        requires { list_any (nat_eq id) self.old.1 ≡ false }
        ensures ok { OnOk result (self.new ≡ (self.old.0, self.old.1 ++ id ∷ [])) }
        ensures err { OnErr result (self.new ≡ self.old) }
    {
        self.terms.insert(id)?;
        Ok(())
    }

    pub(crate) fn as_slice(&self) -> &[Id]
        ensures { result.now ≡ self.now.1 }
    {
        self.terms.as_slice()
    }
}
