//! Signatures: the names that a problem declares.

ghost use Rattle.std.specs.Prelude.{◌≡◌, ◌<◌, ◌+◌, ◌-◌, ◌^◌, ◌++◌, [], ◌∷◌, length, OnOk, OnErr, IfOk, Some, slice_get, option_map, position};
ghost use Rattle.std.specs.Str.{bytes_eq};
ghost use Rattle.stt_core.specs.View.{the_type};
ghost use Rattle.stt_core.specs.Signature.{symbol_named};
ghost use Rattle.stt_core.specs.ConstView.{typed_name};

use crate::ty::Ty;
use std::alloc::{AllocError, Global};
use std::marker::Model;

/// The names of a signature's own base types. The one at place 0 is base type number 2.
#[derive(Drop)]
pub struct Names {
    items: Vec<Vec<u8>>,
    alloc: Global,
}

impl Model for Names {
    ghost use Rattle.std.specs.Prelude.{List, ℕ, map};

    ghost Value = { List (List ℕ) };

    ghost view = { λ a. map (λ name. name.items) a.items.items };
}

fn place_of_name(names: &[Vec<u8>], name: &[u8]) -> Option<usize>
    ensures { result ≡ position (λ n. bytes_eq n.items name.now) names.now }
{
    names.iter().position(|n| n.as_slice() == name)
}

impl Names {
    pub fn new(alloc: Global) -> Names
        ensures { result ≡ [] }
    {
        Names {
            items: Vec::new(alloc),
            alloc,
        }
    }

    pub fn push(&mut self, name: &[u8]) -> Result<(), AllocError>
        ensures ok { OnOk result (self.new ≡ self.old ++ name.now ∷ []) }
        ensures err { OnErr result (self.new ≡ self.old) }
    {
        let name = name.to_vec(self.alloc)?;
        self.items.push(name)?;
        Ok(())
    }

    pub fn len(&self) -> usize
        ensures { result ≡ length self.now }
    {
        self.items.len()
    }

    fn place_of(&self, name: &[u8]) -> Option<usize>
        ensures { result ≡ position (λ base. bytes_eq base name.now) self.now }
    {
        place_of_name(&self.items, name)
    }

    /// The name at a place of the list.
    pub fn at(&self, i: usize) -> &[u8]
        requires { i < length self.now }
        ensures { slice_get self.now i ≡ Some result.now }
    {
        self.items[i].as_slice()
    }
}

/// A name with its type.
#[derive(Drop)]
struct Const {
    name: Vec<u8>,
    ty: Ty,
}

/// The constants of a signature, in order of declaration.
#[derive(Drop)]
pub struct Consts {
    items: Vec<Const>,
    alloc: Global,
}

impl Model for Consts {
    ghost use Rattle.std.specs.Prelude.{List, ℕ, map};
    ghost use Rattle.std.specs.Coded.{coded_list};
    ghost use Rattle.stt_core.specs.TypedName.{TypedName};
    ghost use Rattle.stt_core.specs.Internal.ProblemCode.{typed_name_code};

    ghost Value = { List TypedName };

    ghost coded = { coded_list typed_name_code };

    ghost use Rattle.stt_core.specs.ConstView.{typed_name};

    ghost view = { λ a. map typed_name a.items.items };
}

fn place_of_const(consts: &[Const], name: &[u8]) -> Option<usize>
    ensures { result ≡ position (λ c. bytes_eq c.name.items name.now) consts.now }
{
    consts.iter().position(|c| c.name.as_slice() == name)
}

impl Consts {
    pub fn new(alloc: Global) -> Consts
        ensures { result ≡ [] }
    {
        Consts {
            items: Vec::new(alloc),
            alloc,
        }
    }

    pub fn push(&mut self, name: &[u8], ty: Ty) -> Result<(), AllocError>
        ensures ok { OnOk result (self.new ≡ self.old ++ record { name = name.now; type = the_type ty } ∷ []) }
        ensures err { OnErr result (self.new ≡ self.old) }
    {
        let name = name.to_vec(self.alloc)?;
        self.items.push(Const { name, ty })?;
        Ok(())
    }

    pub fn len(&self) -> usize
        ensures { result ≡ length self.now }
    {
        self.items.len()
    }

    fn place_of(&self, name: &[u8]) -> Option<usize>
        ensures { result ≡ position (λ c. bytes_eq c.name name.now) self.now }
    {
        place_of_const(&self.items, name)
    }

    fn at(&self, i: usize) -> &Const
        requires { i < length self.now }
        ensures { slice_get self.now i ≡ Some (typed_name result.now) }
    {
        &self.items[i]
    }

    /// The name of the constant at a place of the list.
    pub fn name_at(&self, i: usize) -> &[u8]
        requires { i < length self.now }
        ensures { option_map (λ c. c.name) (slice_get self.now i) ≡ Some result.now }
    {
        self.items[i].name.as_slice()
    }

    /// The type of the constant at a place, which counts from 0.
    pub fn type_of(&self, i: usize) -> Option<&Ty>
        ensures { option_map (λ ty. the_type ty.now) result ≡ option_map (λ c. c.type) (slice_get self.now i) }
    {
        self.items.get(i).map(|c| &c.ty)
    }
}

/// What a problem declares.
#[derive(Drop)]
pub struct Signature {
    pub bases: Names,
    pub consts: Consts,
}

/// What a name stands for: a base type by its number, which is at least 2, or a constant by its place.
#[derive(Clone, Copy, PartialEq, Eq)]
pub enum Symbol {
    Base(u32),
    Const(u32),
}

impl Signature {
    pub fn new(alloc: Global) -> Signature
        ensures bases { result.bases ≡ [] }
        ensures consts { result.consts ≡ [] }
    {
        Signature {
            bases: Names::new(alloc),
            consts: Consts::new(alloc),
        }
    }

    /// What a name is declared as, or none where it isn't. The search walks the lists.
    pub fn find(&self, name: &[u8]) -> Option<Symbol>
        requires bases { length self.now.bases < 2 ^ 32 - 2 }
        requires consts { length self.now.consts < 2 ^ 32 }
        ensures { result ≡ symbol_named self.now.bases self.now.consts name.now }
    {
        match self.bases.place_of(name) {
            Some(i) => Some(Symbol::Base(i as u32 + 2)),
            None => self.consts.place_of(name).map(|i| Symbol::Const(i as u32)),
        }
    }
}

impl Names {
    /// A copy of the list.
    pub fn try_clone(&self, alloc: Global) -> Result<Names, AllocError>
        ensures { IfOk result (λ names. names ≡ self.now) }
    {
        let mut names = Names::new(alloc);
        for i in 0..self.len() {
            names.push(self.at(i))?;
        }
        Ok(names)
    }
}

impl Consts {
    /// A copy of the list.
    pub fn try_clone(&self, alloc: Global) -> Result<Consts, AllocError>
        ensures { IfOk result (λ consts. consts ≡ self.now) }
    {
        let mut consts = Consts::new(alloc);
        for i in 0..self.len() {
            let constant = self.at(i);
            let ty = constant.ty.try_clone(alloc)?;
            consts.push(constant.name.as_slice(), ty)?;
        }
        Ok(consts)
    }
}

impl Signature {
    /// A copy of the signature.
    pub fn try_clone(&self, alloc: Global) -> Result<Signature, AllocError>
        ensures bases { IfOk result (λ sig. sig.bases ≡ self.now.bases) }
        ensures consts { IfOk result (λ sig. sig.consts ≡ self.now.consts) }
    {
        Ok(Signature {
            bases: self.bases.try_clone(alloc)?,
            consts: self.consts.try_clone(alloc)?,
        })
    }
}
