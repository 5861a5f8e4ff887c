//! Holes in lists that share their ends.
ghost use Rattle.std.specs.Prelude.{◌≡◌, ◌<◌, ◌≤◌, ◌++◌, [], ◌∷◌, length, nat_eq, reverse, Some, slice_get, IsSome, IfOk};
ghost use Rattle.stt_core.specs.SimpleType.{SimpleType, target};
ghost use Rattle.stt_core.specs.Typing.{type_of};
ghost use Rattle.stt_core.specs.View.{the_type, the_head};
ghost use Rattle.term_bank.specs.Content.{content_scope};
ghost use Rattle.search_spec.specs.Heads.{places_to};
ghost use Rattle.prover_state.specs.Internal.Holes.{binders_onto, blank_hole, argument_holes, after_head};
ghost use Rattle.prover_state.specs.Internal.Chains.{chain, ExtendsCells};

use crate::contexts::{Contexts, Variables};
use crate::fitting::small;
use instantiate::target_of;
use std::alloc::{AllocError, Global};
use std::marker::Model;
use std::rc::Rc;
use stt_core::{Context, Head, Ty};
use term_bank::Bank;

/// A hole: its base type, and the variables in scope there, which holes share. The holes after it are the list of a number.
#[derive(Drop)]
pub(crate) struct Cell {
    base: u32,
    rest: u32,
    context: Rc<Variables>,
}

impl Model for Cell {
    ghost use Rattle.std.specs.Prelude.{reverse};
    ghost use Rattle.std.specs.Coded.{coded×, coded_ℕ};
    ghost use Rattle.prover_state.specs.Internal.Holes.{hole_code};
    ghost use Rattle.prover_state.specs.Internal.Chains.{Cell as Linked};

    ghost Value = { Linked };

    ghost coded = { coded× hole_code coded_ℕ };

    ghost view = { λ c. (record { base = c.base; context = reverse c.context.value }, c.rest) };
}

impl Cell {
    /// The variables in scope.
    pub(crate) fn context(&self) -> Result<Rc<Variables>, AllocError>
        ensures { IfOk result (λ variables. reverse variables.value ≡ self.now.0.context) }
    {
        Ok(Rc::clone(&self.context)?)
    }

    pub(crate) fn base(&self) -> u32
        ensures { result ≡ self.now.0.base }
    {
        self.base
    }

    /// The number of the list of the holes after it.
    pub(crate) fn rest(&self) -> usize
        ensures { result ≡ self.now.1 }
    {
        self.rest as usize
    }

    /// The type of a head there, where it has one.
    pub(crate) fn head_type(&self, bank: &Bank, head: &Head) -> Result<Ty, AllocError>
        requires { IsSome (type_of (content_scope bank.now) self.now.0.context (the_head head.now)) }
        ensures { IfOk result (λ ty. Some (the_type ty) ≡ type_of (content_scope bank.now) self.now.0.context (the_head head.now)) }
    {
        match bank.head_type(&Context::Outer(self.context.types()), head)? {
            Some(ty) => Ok(ty),
            None => unreachable!(),
        }
    }

    /// How many variables are in scope.
    fn len(&self) -> usize
        ensures { result ≡ length self.now.0.context }
    {
        self.context.len()
    }

    /// The number of the target type of a variable.
    fn target_at(&self, i: usize) -> u32
        requires { i < length self.now.0.context }
        ensures { (a : SimpleType) × ((slice_get self.now.0.context i ≡ Some a) × (result ≡ target a)) }
    {
        self.context.target_at(i)
    }

    /// How many variables have the hole's base type as target type.
    pub(crate) fn count_variables(&self) -> usize
        ensures { result ≡ length (places_to self.now.0.base 0 self.now.0.context) }
    {
        let base = self.base();
        let mut count = 0;
        for i in 0..self.len() {
            if self.target_at(i) == base {
                count += 1;
            }
        }
        count
    }

    /// The variable at a place among those whose target type is the hole's.
    pub(crate) fn variable(&self, place: usize) -> usize
        requires { place < length (places_to self.now.0.base 0 self.now.0.context) }
        ensures { slice_get (places_to self.now.0.base 0 self.now.0.context) place ≡ Some result }
    {
        let base = self.base();
        let mut left = place;
        for i in 0..self.len() {
            if self.target_at(i) == base {
                if left == 0 {
                    return i;
                }
                left -= 1;
            }
        }
        unreachable!()
    }
}

/// All holes. Each stands for the list that it begins, whose number is one more than its place. Contracts see the newest one first.
#[derive(Drop)]
pub(crate) struct Cells {
    items: Vec<Cell>,
}

impl Model for Cells {
    ghost use Rattle.std.specs.Prelude.{List, reverse};
    ghost use Rattle.std.specs.Coded.{coded_list, coded×, coded_ℕ};
    ghost use Rattle.prover_state.specs.Internal.Holes.{hole_code};
    ghost use Rattle.prover_state.specs.Internal.Chains.{Cell as Linked, AreChained};

    ghost Value = { List Linked };

    ghost coded = { coded_list (coded× hole_code coded_ℕ) };

    ghost view = { λ c. reverse c.items.items };

    ghost invariant = { λ c. AreChained (reverse c.items.items) };
}

impl Cells {
    pub(crate) fn new(alloc: Global) -> Cells
        ensures { result ≡ [] }
    {
        Cells {
            items: Vec::new(alloc),
        }
    }

    /// The first hole of the list of a number.
    pub(crate) fn first(&self, k: usize) -> &Cell
        requires there { 0 < k }
        requires within { k ≤ length self.now }
        ensures list { chain self.now k ≡ result.now.0 ∷ chain self.now result.now.1 }
        ensures linked { result.now.1 ≤ length self.now }
    {
        &self.items[k - 1]
    }

    /// Whether the list of a number has one hole alone.
    pub(crate) fn is_single(&self, k: usize) -> bool
        requires within { k ≤ length self.now }
        ensures { result ≡ nat_eq (length (chain self.now k)) 1 }
    {
        k > 0 && self.first(k).rest() == 0
    }

    /// Adds a hole, and answers the number of its list.
    fn add(&mut self, cell: Cell) -> Result<usize, AllocError>
        requires linked { cell.1 ≤ length self.old }
        ensures list { IfOk result (λ k. chain self.new k ≡ cell.0 ∷ chain self.old cell.1) }
        ensures within { IfOk result (λ k. k ≤ length self.new) }
        ensures extends { ExtendsCells self.old self.new }
    {
        self.items.push(cell)?;
        Ok(self.items.len())
    }

    /// Adds a hole of a type, under its binders, before the list of a number, and answers the number of the list.
    pub(crate) fn add_blank(
        &mut self,
        alloc: Global,
        contexts: &mut Contexts,
        context: &Rc<Variables>,
        ty: &Ty,
        rest: usize,
    ) -> Result<usize, AllocError>
        requires linked { rest ≤ length self.old }
        ensures list { IfOk result (λ k. chain self.new k ≡ blank_hole (reverse context.now.value) (the_type ty.now) ∷ chain self.old
            rest) }
        ensures within { IfOk result (λ k. k ≤ length self.new) }
        ensures extends { ExtendsCells self.old self.new }
    {
        let inner = contexts.under(alloc, context, ty)?;
        let base = target_of(ty);
        let behind = small(rest)?;
        Ok(self.add(Cell {
            base,
            rest: behind,
            context: inner,
        })?)
    }

    /// Adds one hole, under its binders, for each argument of a function of the type, before the list of a number, and answers the
    /// number of the list.
    pub(crate) fn add_arguments(
        &mut self,
        alloc: Global,
        contexts: &mut Contexts,
        context: &Rc<Variables>,
        ty: &Ty,
        rest: usize,
    ) -> Result<usize, AllocError>
        requires linked { rest ≤ length self.old }
        ensures list { IfOk result (λ k. chain self.new k ≡ argument_holes (reverse context.now.value) (the_type ty.now) ++ chain self.old
            rest) }
        ensures within { IfOk result (λ k. k ≤ length self.new) }
        ensures extends { ExtendsCells self.old self.new }
    {
        match ty {
            Ty::Base(_) => Ok(rest),
            Ty::Arrow(argument, outcome) => {
                let later = self.add_arguments(alloc, contexts, context, outcome, rest)?;
                Ok(self.add_blank(alloc, contexts, context, argument, later)?)
            }
        }
    }

    /// Adds what the list of a number becomes where its first hole is filled with a head of the type, and answers the number of the list.
    pub(crate) fn add_grown(
        &mut self,
        alloc: Global,
        contexts: &mut Contexts,
        k: usize,
        ty: &Ty,
    ) -> Result<usize, AllocError>
        requires there { k ≤ length self.old }
        ensures list { IfOk result (λ n. chain self.new n ≡ after_head (the_type ty.now) (chain self.old k)) }
        ensures within { IfOk result (λ n. n ≤ length self.new) }
        ensures extends { ExtendsCells self.old self.new }
    {
        if k == 0 {
            return Ok(0);
        }
        let first = self.first(k);
        let context = first.context()?;
        let rest = first.rest();
        Ok(self.add_arguments(alloc, contexts, &context, ty, rest)?)
    }
}
