//! Variables in scope at holes, in lists that these share.
ghost use Rattle.std.specs.Prelude.{◌≡◌, ◌<◌, [], true, length, map, reverse, slice_get, Some, IfOk, OnOk};
ghost use Rattle.stt_core.specs.SimpleType.{SimpleType, target};
ghost use Rattle.stt_core.specs.View.{the_type};
ghost use Rattle.prover_state.specs.Internal.Holes.{binders_onto};

use instantiate::target_of;
use std::alloc::{AllocError, Global};
use std::marker::Model;
use std::rc::Rc;
use stt_core::{Ty, Types};

/// How many lists are remembered.
const MOST: usize = 64;

/// The variables in scope: their types, outermost first, and the numbers of these types' target types, innermost first, so that no type
/// has to be walked where it is asked which variables fit a hole. Contracts see the types.
#[derive(Drop)]
pub(crate) struct Variables {
    types: Types,
    targets: Vec<u32>,
}

impl Model for Variables {
    ghost use Rattle.std.specs.Prelude.{◌≡◌, List, map, reverse};
    ghost use Rattle.std.specs.Coded.{coded_list};
    ghost use Rattle.stt_core.specs.SimpleType.{SimpleType, target};
    ghost use Rattle.stt_core.specs.Internal.TypeCode.{type_code};

    ghost Value = { List SimpleType };

    ghost coded = { coded_list type_code };

    ghost view = { λ v. v.types };

    ghost invariant = { λ v. v.targets.items ≡ map target (reverse v.types) };
}

/// The numbers of the target types of these types, last one first.
fn targets_of(alloc: Global, types: &Types) -> Result<Vec<u32>, AllocError>
    ensures { IfOk result (λ targets. targets.items ≡ map target (reverse types.now)) }
{
    let mut targets = Vec::new(alloc);
    for i in 0..types.len() {
        match types.get_from_end(i) {
            Some(ty) => targets.push(target_of(ty))?,
            None => unreachable!(),
        }
    }
    Ok(targets)
}

impl Variables {
    /// Variables of these types.
    pub(crate) fn new(alloc: Global, types: Types) -> Result<Variables, AllocError>
        ensures { IfOk result (λ variables. variables ≡ types) }
    {
        let targets = targets_of(alloc, &types)?;
        Ok(Variables { types, targets })
    }

    pub(crate) fn types(&self) -> &Types
        ensures { result.now ≡ self.now }
    {
        &self.types
    }

    pub(crate) fn len(&self) -> usize
        ensures { result ≡ length self.now }
    {
        self.types.len()
    }

    /// The number of the target type of the variable with so many binders between it and its own.
    pub(crate) fn target_at(&self, i: usize) -> u32
        requires { i < length self.now }
        ensures { (a : SimpleType) × ((slice_get (reverse self.now) i ≡ Some a) × (result ≡ target a)) }
    {
        self.targets[i]
    }
}

/// Lists of the variables in scope that were made last, so that a hole with one of them shares it.
#[derive(Drop)]
pub(crate) struct Contexts {
    known: Vec<Rc<Variables>>,
}

/// Whether the two lists are the same.
fn are_same(a: &Types, b: &Types) -> bool
    ensures { result ≡ true → a.now ≡ b.now }
{
    if a.len() != b.len() {
        return false;
    }
    for i in 0..a.len() {
        if !a.at(i).same(b.at(i)) {
            return false;
        }
    }
    true
}

/// Appends the types of a type's binders.
fn push_binders(alloc: Global, types: &mut Types, ty: &Ty) -> Result<(), AllocError>
    ensures { OnOk result (reverse types.new ≡ binders_onto (reverse types.old) (the_type ty.now)) }
{
    match ty {
        Ty::Base(_) => Ok(()),
        Ty::Arrow(argument, outcome) => {
            types.push(argument.try_clone(alloc)?)?;
            push_binders(alloc, types, outcome)?;
            Ok(())
        }
    }
}

impl Contexts {
    pub(crate) fn new(alloc: Global) -> Contexts {
        Contexts {
            known: Vec::new(alloc),
        }
    }

    /// No variables.
    pub(crate) fn none(alloc: Global) -> Result<Rc<Variables>, AllocError>
        ensures { IfOk result (λ none. none.value ≡ []) }
    {
        let none = Variables::new(alloc, Types::new(alloc))?;
        Ok(Rc::new(alloc, none)?)
    }

    /// A shared list of variables of these types.
    fn share(&mut self, alloc: Global, types: Types) -> Result<Rc<Variables>, AllocError>
        ensures { IfOk result (λ shared. shared.value ≡ types) }
    {
        for i in 0..self.known.len() {
            let known = &self.known[i];
            if are_same(known.types(), &types) {
                return Ok(Rc::clone(known)?);
            }
        }
        if self.known.len() >= MOST {
            self.known.clear();
        }
        let shared = Rc::new(alloc, Variables::new(alloc, types)?)?;
        self.known.push(Rc::clone(&shared)?)?;
        Ok(shared)
    }

    /// The variables in scope under the binders of a type.
    pub(crate) fn under(
        &mut self,
        alloc: Global,
        context: &Rc<Variables>,
        ty: &Ty,
    ) -> Result<Rc<Variables>, AllocError>
        ensures { IfOk result (λ inner. reverse inner.value ≡ binders_onto (reverse context.now.value) (the_type ty.now)) }
    {
        match ty {
            Ty::Base(_) => Ok(Rc::clone(context)?),
            Ty::Arrow(_, _) => {
                let mut inner = context.types().try_clone(alloc)?;
                push_binders(alloc, &mut inner, ty)?;
                Ok(self.share(alloc, inner)?)
            }
        }
    }
}
