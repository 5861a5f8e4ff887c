//! The holes of partial terms.
ghost use Rattle.std.specs.Prelude.{◌≡◌, ◌<◌, ◌++◌, List, [], ◌∷◌, length, nat_eq, Some, slice_get, option_map, option_and_then, IsSome, IfOk, OnOk};
ghost use Rattle.stt_core.specs.Typing.{type_of};
ghost use Rattle.stt_core.specs.View.{the_type};
ghost use Rattle.term_bank.specs.Content.{content_scope};
ghost use Rattle.prover_state.specs.Internal.Fitting.{variables_for};
ghost use Rattle.search_spec.specs.Partial.{Hole};
ghost use Rattle.prover_state.specs.Internal.Heads.{the_hole_head};
ghost use Rattle.prover_state.specs.Internal.Holes.{leftmost, blank_hole, after_head};
ghost use Rattle.prover_state.specs.Internal.Pending.{base_of};

use crate::cells::{Cell, Cells};
use crate::contexts::Contexts;
use crate::fitting::small;
use crate::head::{HoleHead, head_of};
use crate::head_types::HeadTypes;
use std::alloc::{AllocError, Global};
use std::marker::Model;
use stt_core::Ty;
use term_bank::Bank;

/// The holes of each partial term, from left to right. A partial term shares the holes that were there before it grew.
#[derive(Drop)]
pub struct OpenHoles {
    cells: Cells,
    lists: Vec<u32>,
    contexts: Contexts,
    logical: HeadTypes,
}

impl Model for OpenHoles {
    ghost use Rattle.std.specs.Prelude.{List, map, length, ◌≤◌};
    ghost use Rattle.std.specs.Coded.{coded_list};
    ghost use Rattle.tableau_calculus.specs.Each.{Each};
    ghost use Rattle.search_spec.specs.Partial.{Hole};
    ghost use Rattle.prover_state.specs.Internal.Holes.{hole_code};
    ghost use Rattle.prover_state.specs.Internal.Chains.{chain};

    ghost Value = { List (List Hole) };

    ghost coded = { coded_list (coded_list hole_code) };

    ghost view = { λ o. map (chain o.cells) o.lists.items };

    ghost invariant = { λ o. Each (λ k. k ≤ length o.cells) o.lists.items };
}

impl OpenHoles {
    pub(crate) fn new(alloc: Global, logical: HeadTypes) -> OpenHoles
        ensures { result ≡ [] }
    {
        OpenHoles {
            cells: Cells::new(alloc),
            lists: Vec::new(alloc),
            contexts: Contexts::new(alloc),
            logical,
        }
    }

    /// The first hole of a partial term.
    fn first(&self, p: usize) -> Option<&Cell>
        requires { p < length self.now }
        ensures { (holes : List Hole) → slice_get self.now p ≡ Some holes → option_map (λ c. c.now.0) result ≡ leftmost holes }
    {
        match self.lists[p] {
            0 => None,
            k => Some(self.cells.first(k as usize)),
        }
    }

    /// The base type of the first hole of a partial term, or that of formulas, where it has none.
    pub(crate) fn base(&self, p: usize) -> u32
        requires { p < length self.now }
        ensures { (holes : List Hole) → slice_get self.now p ≡ Some holes → result ≡ base_of (leftmost holes) }
    {
        match self.first(p) {
            Some(hole) => hole.base(),
            None => 0,
        }
    }

    /// How many variables fit the first hole of a partial term.
    pub fn count_variables(&self, p: usize) -> usize
        requires { p < length self.now }
        ensures { (holes : List Hole) → slice_get self.now p ≡ Some holes → result ≡ length (variables_for (leftmost holes)) }
    {
        match self.first(p) {
            Some(hole) => hole.count_variables(),
            None => 0,
        }
    }

    /// The variable at a place among those that fit the first hole of a partial term.
    pub(crate) fn variable(&self, p: usize, place: usize) -> usize
        requires number { p < length self.now }
        requires within { (holes : List Hole) → slice_get self.now p ≡ Some holes → place < length (variables_for (leftmost holes)) }
        ensures { (holes : List Hole) → slice_get self.now p ≡ Some holes → slice_get (variables_for (leftmost holes)) place ≡ Some result }
    {
        match self.first(p) {
            Some(hole) => hole.variable(place),
            None => unreachable!(),
        }
    }

    /// Whether a partial term has one hole alone.
    pub fn is_single(&self, p: usize) -> bool
        requires { p < length self.now }
        ensures { (holes : List Hole) → slice_get self.now p ≡ Some holes → result ≡ nat_eq (length holes) 1 }
    {
        self.cells.is_single(self.lists[p] as usize)
    }

    /// The base type of the first hole of a partial term, where it has one.
    pub fn first_base(&self, p: usize) -> Option<u32>
        requires { p < length self.now }
        ensures { (holes : List Hole) → slice_get self.now p ≡ Some holes → result ≡ option_map (λ h. h.base) (leftmost holes) }
    {
        match self.first(p) {
            Some(hole) => Some(hole.base()),
            None => None,
        }
    }

    /// The type of a head at the first hole of a partial term, where it has one.
    pub fn head_type(
        &self,
        alloc: Global,
        bank: &Bank,
        p: usize,
        head: HoleHead,
    ) -> Result<Ty, AllocError>
        requires number { p < length self.now }
        requires typed { (holes : List Hole) → slice_get self.now p ≡ Some holes
            → IsSome (option_and_then (λ h. type_of (content_scope bank.now) h.context (the_hole_head head)) (leftmost holes)) }
        ensures { IfOk result (λ ty. (holes : List Hole) → slice_get self.now p ≡ Some holes
            → Some (the_type ty) ≡ option_and_then (λ h. type_of (content_scope bank.now) h.context (the_hole_head head))
            (leftmost holes)) }
    {
        if let Some(ty) = self.logical.type_of(head) {
            return Ok(ty.try_clone(alloc)?);
        }
        match self.first(p) {
            Some(hole) => Ok(hole.head_type(bank, &head_of(head))?),
            None => unreachable!(),
        }
    }

    /// Appends the holes of one hole under the binders of a type.
    pub fn push_blank(&mut self, alloc: Global, ty: &Ty) -> Result<(), AllocError>
        ensures { OnOk result (self.new ≡ self.old ++ (blank_hole [] (the_type ty.now) ∷ []) ∷ []) }
    {
        let context = Contexts::none(alloc)?;
        let contexts = &mut self.contexts;
        let list = self.cells.add_blank(alloc, contexts, &context, ty, 0)?;
        let number = small(list)?;
        self.lists.push(number)?;
        Ok(())
    }

    /// Appends what the holes of a partial term become where the first one is filled with a head of the type.
    pub fn push_grown(&mut self, alloc: Global, p: usize, ty: &Ty) -> Result<(), AllocError>
        requires { p < length self.old }
        ensures { OnOk result ((holes : List Hole) → slice_get self.old p ≡ Some holes
            → self.new ≡ self.old ++ after_head (the_type ty.now) holes ∷ []) }
    {
        let k = self.lists[p] as usize;
        let contexts = &mut self.contexts;
        let list = self.cells.add_grown(alloc, contexts, k, ty)?;
        let number = small(list)?;
        self.lists.push(number)?;
        Ok(())
    }
}
