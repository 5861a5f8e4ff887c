//! Lists of types that keep equal types once.

ghost use Rattle.std.specs.Prelude.{◌≡◌, ◌++◌, [], ◌∷◌, slice_get, option_map, IfOk, OnOk};
ghost use Rattle.stt_core.specs.View.{the_type};
ghost use Rattle.type_check.specs.Internal.Fingerprint.{fingerprint};

use std::alloc::{AllocError, Global};
use std::collections::HashMap;
use std::marker::Model;
use std::rc::Rc;
use stt_core::Ty;

/// A list of types. Equal types are kept once, so that the types of many constants, which are mostly the same few, take little memory.
#[derive(Drop)]
pub(crate) struct TypeList {
    items: Vec<Rc<Ty>>,
    /// The last type that was added, for each fingerprint.
    kept: HashMap<u64, Rc<Ty>>,
    alloc: Global,
}

impl Model for TypeList {
    ghost use Rattle.std.specs.Prelude.{List, map};
    ghost use Rattle.std.specs.Coded.{coded_list};
    ghost use Rattle.stt_core.specs.SimpleType.{SimpleType};
    ghost use Rattle.stt_core.specs.Internal.TypeCode.{type_code};
    ghost use Rattle.stt_core.specs.View.{the_type};

    ghost Value = { List SimpleType };

    ghost coded = { coded_list type_code };

    ghost view = { λ l. map (λ ty. the_type ty.value) l.items.items };
}

/// A number of 64 bits, which few types share.
fn fingerprint(ty: &Ty) -> u64
    ensures { result ≡ fingerprint (the_type ty.now) }
{
    match ty {
        Ty::Base(n) => u64::from(*n),
        Ty::Arrow(argument, outcome) => fingerprint(argument)
            .wrapping_mul(1_000_003)
            .wrapping_add(fingerprint(outcome))
            .wrapping_mul(31),
    }
}

impl TypeList {
    pub(crate) fn new(alloc: Global) -> Self
        ensures { result ≡ [] }
    {
        TypeList {
            items: Vec::new(alloc),
            kept: HashMap::new(alloc),
            alloc,
        }
    }

    /// The type at a place, which counts from 0.
    pub(crate) fn get(&self, i: usize) -> Option<&Ty>
        ensures { option_map (λ ty. the_type ty.now) result ≡ slice_get self.now i }
    {
        self.items.get(i).map(|ty| &**ty)
    }

    /// The type as it is kept, or will be from now on.
    fn share(&mut self, ty: Ty) -> Result<Rc<Ty>, AllocError>
        ensures kept { IfOk result (λ shared. the_type shared.value ≡ the_type ty) }
        ensures same { self.new ≡ self.old }
    {
        let fingerprint = fingerprint(&ty);
        if let Some(kept) = self.kept.get(&fingerprint)
            && kept.same(&ty)
        {
            return Ok(Rc::clone(kept)?);
        }
        let shared = Rc::new(self.alloc, ty)?;
        self.kept.insert(fingerprint, Rc::clone(&shared)?)?;
        Ok(shared)
    }

    /// Adds a type, and answers a copy of it.
    pub(crate) fn push(&mut self, ty: Ty) -> Result<Ty, AllocError>
        ensures added { OnOk result (self.new ≡ self.old ++ the_type ty ∷ []) }
        ensures copy { IfOk result (λ copy. the_type copy ≡ the_type ty) }
    {
        let shared = self.share(ty)?;
        let copy = shared.try_clone(self.alloc)?;
        self.items.push(shared)?;
        Ok(copy)
    }
}
