//! Types.

ghost use Rattle.std.specs.Prelude.{◌≡◌, ◌<◌, ◌++◌, [], ◌∷◌, length, OnOk, OnErr, IfOk, slice_get, reverse, option_map};
ghost use Rattle.stt_core.specs.SimpleType.{arrow, same_type};
ghost use Rattle.stt_core.specs.View.{the_type};

use std::alloc::{AllocError, Global};
use std::marker::Model;
use std::rc::Rc;

/// A simple type, which shares its parts with its copies. Base number 0 is `$o`, number 1 is `$i`, and the base types of a signature
/// follow from number 2 on.
#[derive(Drop)]
pub enum Ty {
    Base(u32),
    Arrow(Rc<Ty>, Rc<Ty>),
}

impl Ty {
    /// The type of functions from the one type to the other.
    pub fn function(alloc: Global, argument: Ty, outcome: Ty) -> Result<Ty, AllocError>
        ensures { IfOk result (λ ty. the_type ty ≡ arrow (the_type argument) (the_type outcome)) }
    {
        Ok(Ty::Arrow(Rc::new(alloc, argument)?, Rc::new(alloc, outcome)?))
    }

    /// A copy of the type, which shares its parts, so that it takes no memory of its own.
    pub fn try_clone(&self, _alloc: Global) -> Result<Ty, AllocError>
        ensures { IfOk result (λ ty. the_type ty ≡ the_type self.now) }
    {
        match self {
            Ty::Base(n) => Ok(Ty::Base(*n)),
            Ty::Arrow(argument, outcome) => {
                Ok(Ty::Arrow(Rc::clone(argument)?, Rc::clone(outcome)?))
            }
        }
    }

    /// Whether the two types are the same.
    pub fn same(&self, other: &Ty) -> bool
        ensures { result ≡ same_type (the_type self.now) (the_type other.now) }
    {
        match (self, other) {
            (Ty::Base(m), Ty::Base(n)) => *m == *n,
            (Ty::Arrow(a, b), Ty::Arrow(c, d)) => a.same(c) && b.same(d),
            _ => false,
        }
    }
}

/// A list of types.
#[derive(Drop)]
pub struct Types {
    items: Vec<Ty>,
}

impl Model for Types {
    ghost use Rattle.std.specs.Prelude.{List, map};
    ghost use Rattle.stt_core.specs.SimpleType.{SimpleType};
    ghost use Rattle.stt_core.specs.Internal.TypeCode.{type_code};
    ghost use Rattle.std.specs.Coded.{coded_list};
    ghost use Rattle.stt_core.specs.View.{the_type};

    ghost Value = { List SimpleType };

    ghost coded = { coded_list type_code };

    ghost view = { λ a. map the_type a.items.items };
}

impl Types {
    pub fn new(alloc: Global) -> Types
        ensures { result ≡ [] }
    {
        Types {
            items: Vec::new(alloc),
        }
    }

    pub fn push(&mut self, ty: Ty) -> Result<(), AllocError>
        ensures ok { OnOk result (self.new ≡ self.old ++ the_type ty ∷ []) }
        ensures err { OnErr result (self.new ≡ self.old) }
    {
        self.items.push(ty)?;
        Ok(())
    }

    /// Adds a type before those of the list.
    pub fn push_front(&mut self, ty: Ty) -> Result<(), AllocError>
        ensures ok { OnOk result (self.new ≡ the_type ty ∷ self.old) }
        ensures err { OnErr result (self.new ≡ self.old) }
    {
        self.items.insert(0, ty)?;
        Ok(())
    }

    pub fn len(&self) -> usize
        ensures { result ≡ length self.now }
    {
        self.items.len()
    }

    /// The type at a place, which counts from 0.
    pub fn get(&self, i: usize) -> Option<&Ty>
        ensures { option_map (λ ty. the_type ty.now) result ≡ slice_get self.now i }
    {
        self.items.get(i)
    }

    /// The type at a place of the list.
    pub fn at(&self, i: usize) -> &Ty
        requires { i < length self.now }
        ensures { slice_get self.now i ≡ Some (the_type result.now) }
    {
        &self.items[i]
    }

    /// The type at a place that counts from 0 at the end of the list.
    pub fn get_from_end(&self, k: usize) -> Option<&Ty>
        ensures { option_map (λ ty. the_type ty.now) result ≡ slice_get (reverse self.now) k }
    {
        if k < self.items.len() {
            Some(&self.items[self.items.len() - 1 - k])
        } else {
            None
        }
    }
}
