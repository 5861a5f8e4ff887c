//! Terms by type, in the order in which they came.
ghost use Rattle.std.specs.Prelude.{◌≡◌, ◌≤◌, ◌++◌, [], ◌∷◌, true, false, not, length, nat_eq, IfOk, OnOk, OnErr};
ghost use Rattle.std.specs.List.{list_any};
ghost use Rattle.stt_core.specs.View.{the_type};
ghost use Rattle.instantiate.specs.Listing.{ids_of, with_listed};
ghost use Rattle.instantiate.specs.Internal.Groups.{first_group, group_place, HasOneMore};

use crate::list::{Listed, TermList};
use std::alloc::{AllocError, Global};
use std::marker::Model;
use stt_core::Ty;
use term_bank::Id;

/// The terms of each type, each there once. Contracts see all of them in the order in which they came.
#[derive(Drop)]
pub struct Enumerator {
    lists: Vec<TermList>,
    order: Vec<Listed>,
    pub(crate) alloc: Global,
}

impl Model for Enumerator {
    ghost use Rattle.std.specs.Prelude.{List};
    ghost use Rattle.std.specs.Coded.{coded_list, coded×, coded_ℕ};
    ghost use Rattle.stt_core.specs.Internal.TypeCode.{type_code};
    ghost use Rattle.instantiate.specs.Listing.{Listing};
    ghost use Rattle.instantiate.specs.Internal.Groups.{AreRightGroups};

    ghost Value = { List Listing };

    ghost coded = { coded_list (coded× type_code coded_ℕ) };

    ghost view = { λ e. e.order.items };

    ghost invariant = { λ e. AreRightGroups e.lists.items e.order.items };
}

impl Enumerator {
    pub fn new(alloc: Global) -> Enumerator
        ensures { result ≡ [] }
    {
        Enumerator {
            lists: Vec::new(alloc),
            order: Vec::new(alloc),
            alloc,
        }
    }

    /// The terms of a type, in the order in which they came.
    pub fn terms_of(&self, ty: &Ty) -> &[Id]
        ensures { result.now ≡ ids_of (the_type ty.now) self.now }
    {
        let place = place_of(self.lists.as_slice(), ty);
        match self.lists.get(place) {
            Some(list) => list.as_slice(),
            None => &[],
        }
    }

    /// Adds a term of a type: false where it is there.
    pub fn add_term(&mut self, ty: &Ty, id: Id) -> Result<bool, AllocError>
        ensures ok { OnOk result (self.new ≡ with_listed (the_type ty.now) id self.old) }
        ensures fresh { IfOk result (λ is_new. is_new ≡ not (list_any (nat_eq id) (ids_of (the_type ty.now) self.old))) }
        ensures err { OnErr result (self.new ≡ self.old) }
    {
        self.order.reserve(1)?;
        let listed = Listed::new(self.alloc, ty, id)?;
        if !add_to(self.alloc, &mut self.lists, ty, id)? {
            return Ok(false);
        }
        self.order.push(listed)?;
        Ok(true)
    }
}

/// Adds a term to the list of its type: false where it is there.
fn add_to(alloc: Global, lists: &mut Vec<TermList>, ty: &Ty, id: Id) -> Result<bool, AllocError>
    ensures fresh { IfOk result (λ is_new. is_new ≡ not (list_any (nat_eq id) (first_group (the_type ty.now) lists.old.items))) }
    ensures more { IfOk result (λ is_new. is_new ≡ true → HasOneMore (the_type ty.now) id lists.old.items lists.new.items) }
    ensures same { IfOk result (λ is_new. is_new ≡ false → lists.new.items ≡ lists.old.items) }
    ensures err { OnErr result (lists.new.items ≡ lists.old.items) }
{
    let place = place_of(lists.as_slice(), ty);
    if place == lists.len() {
        lists.push(TermList::new(alloc, ty, id)?)?;
        return Ok(true);
    }
    if lists[place].has(id) {
        return Ok(false);
    }
    lists[place].push(id)?;
    Ok(true)
}

/// The place of the first list of the type, or the end.
fn place_of(lists: &[TermList], ty: &Ty) -> usize
    ensures place { result ≡ group_place (the_type ty.now) lists.now }
    ensures within { result ≤ length lists.now }
{
    for i in 0..lists.len() {
        if lists[i].is_of(ty) {
            return i;
        }
    }
    lists.len()
}
