//! Names that stand for terms of a bank.

ghost use Rattle.std.specs.Prelude.{◌≡◌, ℕ, [], ◌∷◌, ◌++◌, OnOk, IfOk};
ghost use Rattle.std.specs.Ordering.{nat_cmp};
ghost use Rattle.std.specs.BTreeMap.{get};
ghost use Rattle.stt_core.specs.View.{the_term};
ghost use Rattle.bank_normal.specs.Internal.FindingForms.{id_or, id_of, id_of_term};

use std::alloc::{AllocError, Global};
use std::collections::BTreeMap;
use std::marker::Model;
use stt_core::Term;
use term_bank::Id;

/// A name, by its place in the signature, and the number of the canonical term that it stands for.
#[derive(Clone, Copy)]
pub struct FormId {
    pub place: u32,
    pub id: Id,
}

/// A list of names that stand for terms of a bank. Where a name comes twice, its first term counts.
#[derive(Drop)]
pub struct Forms {
    items: Vec<FormId>,
    ids: BTreeMap<u32, Id>,
}

impl Model for Forms {
    ghost use Rattle.std.specs.Prelude.{List};
    ghost use Rattle.bank_normal.specs.declared.forms.FormId.{FormId};
    ghost use Rattle.bank_normal.specs.Internal.FindingForms.{HasIds};

    ghost Value = { List FormId };

    ghost view = { λ a. a.items.items };

    ghost invariant = { λ a. HasIds a.ids a.items.items };
}

/// Notes the number of a name's term, unless it has an earlier one.
fn note(ids: &mut BTreeMap<u32, Id>, place: u32, id: Id) -> Result<(), AllocError>
    ensures { OnOk result ((k : ℕ) → get nat_cmp ids.new k ≡ id_or (get nat_cmp ids.old k) place id k) }
{
    if !ids.contains_key(&place) {
        ids.insert(place, id)?;
    }
    Ok(())
}

impl Forms {
    pub fn new(alloc: Global) -> Forms
        ensures { result ≡ [] }
    {
        Forms {
            items: Vec::new(alloc),
            ids: BTreeMap::new(alloc),
        }
    }

    /// The list with a further name.
    pub fn with(self, form: FormId) -> Result<Forms, AllocError>
        ensures { IfOk result (λ fs. fs ≡ self ++ form ∷ []) }
    {
        let Forms { mut items, mut ids } = self;
        note(&mut ids, form.place, form.id)?;
        items.push(form)?;
        Ok(Forms { items, ids })
    }

    /// The number of a name's term.
    fn id_of(&self, place: u32) -> Option<Id>
        ensures { result ≡ id_of self.now place }
    {
        match self.ids.get(&place) {
            Some(id) => Some(*id),
            None => None,
        }
    }

    /// The number of the term that a term stands for, where it is a name of the list.
    pub(crate) fn id_of_term(&self, term: &Term) -> Option<Id>
        ensures { result ≡ id_of_term self.now (the_term term.now) }
    {
        match term {
            Term::Name(place) => self.id_of(*place),
            _ => None,
        }
    }
}
