//! What is declared so far, with its names in a map.

ghost use Rattle.std.specs.Prelude.{◌≡◌, ◌<◌, ◌^◌, ◌-◌, ◌++◌, [], ◌∷◌, length, IfOk, None, option_map};
ghost use Rattle.type_check.specs.Terms.{constant_named, constant_at};
ghost use Rattle.type_check.specs.Internal.TypedView.{the_typed};
ghost use Rattle.stt_core.specs.Signature.{symbol_named};
ghost use Rattle.stt_core.specs.View.{the_type};

use crate::type_list::TypeList;
use crate::typed::{TypeOf, Typed};
use outside::Bytes;
use std::alloc::{AllocError, Global};
use std::collections::HashMap;
use std::marker::Model;
use stt_core::{Signature, Symbol, Term, Ty};

/// What is declared: a signature, what each of its names stands for, and the types of its constants, which the reading of terms finds here
/// since the signature has each beside its name.
#[derive(Drop)]
pub(crate) struct Declared {
    signature: Signature,
    symbols: HashMap<Bytes, Symbol>,
    types: TypeList,
    alloc: Global,
}

impl Model for Declared {
    ghost use Rattle.std.specs.Prelude.{◌≡◌, List, ℕ, map};
    ghost use Rattle.std.specs.HashMap.{get_by};
    ghost use Rattle.std.specs.Str.{bytes_eq};
    ghost use Rattle.stt_core.specs.Signature.{symbol_named};
    ghost use Rattle.stt_core.specs.Declarations.{Declarations};
    ghost use Rattle.stt_core.specs.Internal.ProblemCode.{declarations_code};

    ghost Value = { Declarations };

    ghost coded = { declarations_code };

    ghost view = { λ d. record { bases = d.signature.bases; consts = d.signature.consts } };

    ghost invariant = { λ d. ((name : List ℕ) → get_by (λ key. bytes_eq name key) d.symbols ≡ symbol_named d.signature.bases d.signature.consts name)
        × (d.types ≡ map (λ c. c.type) d.signature.consts) };
}

impl Declared {
    pub(crate) fn new(alloc: Global) -> Self
        ensures bases { result.bases ≡ [] }
        ensures consts { result.consts ≡ [] }
    {
        Declared {
            signature: Signature::new(alloc),
            symbols: HashMap::new(alloc),
            types: TypeList::new(alloc),
            alloc,
        }
    }

    /// What a name stands for.
    pub(crate) fn find(&self, name: &Bytes) -> Option<Symbol>
        ensures { result ≡ symbol_named self.now.bases self.now.consts name.now }
    {
        self.symbols.get(name).copied()
    }

    /// The constant of that name.
    pub(crate) fn constant(&self, name: &Bytes) -> Option<Typed<'_>>
        ensures { option_map the_typed result ≡ constant_named self.now.consts (symbol_named self.now.bases self.now.consts name.now) }
    {
        match self.find(name) {
            Some(Symbol::Const(k)) => self.const_at(k),
            Some(Symbol::Base(_)) | None => None,
        }
    }

    /// The constant at that place of the signature.
    fn const_at(&self, k: u32) -> Option<Typed<'_>>
        ensures { option_map the_typed result ≡ constant_at self.now.consts k }
    {
        self.types.get(k as usize).map(|ty| Typed {
            term: Term::Name(k),
            ty: TypeOf::Kept(ty),
        })
    }

    /// The signature alone.
    pub(crate) fn into_signature(self) -> Signature
        ensures bases { result.bases ≡ self.bases }
        ensures consts { result.consts ≡ self.consts }
    {
        self.signature
    }

    /// Declares a base type.
    pub(crate) fn with_base(self, name: &Bytes) -> Result<Declared, AllocError>
        requires new { symbol_named self.bases self.consts name.now ≡ None }
        requires room { length self.bases < 2 ^ 32 - 2 }
        ensures bases { IfOk result (λ d. d.bases ≡ self.bases ++ name.now ∷ []) }
        ensures consts { IfOk result (λ d. d.consts ≡ self.consts) }
    {
        let Declared {
            mut signature,
            mut symbols,
            types,
            alloc,
        } = self;
        let symbol = Symbol::Base(signature.bases.len() as u32 + 2);
        let name = name.as_slice();
        symbols.insert(Bytes::from_slice(alloc, name)?, symbol)?;
        signature.bases.push(name)?;
        Ok(Declared {
            signature,
            symbols,
            types,
            alloc,
        })
    }

    /// Declares a constant.
    pub(crate) fn with_const(self, name: &Bytes, ty: Ty) -> Result<Declared, AllocError>
        requires new { symbol_named self.bases self.consts name.now ≡ None }
        requires room { length self.consts < 2 ^ 32 }
        ensures bases { IfOk result (λ d. d.bases ≡ self.bases) }
        ensures consts { IfOk result (λ d. d.consts ≡ self.consts ++ record { name = name.now; type = the_type ty } ∷ []) }
    {
        let Declared {
            mut signature,
            mut symbols,
            mut types,
            alloc,
        } = self;
        let symbol = Symbol::Const(signature.consts.len() as u32);
        let name = name.as_slice();
        symbols.insert(Bytes::from_slice(alloc, name)?, symbol)?;
        let ty = types.push(ty)?;
        signature.consts.push(name, ty)?;
        Ok(Declared {
            signature,
            symbols,
            types,
            alloc,
        })
    }
}
