//! Types, and the variables of a binder.
ghost use Rattle.std.specs.Prelude.{◌≡◌, [], ◌∷◌, ◌++◌, OnOk, OnErr};

use outside::Bytes;
use std::alloc::{AllocError, Global};
use std::marker::Model;

/// A type. Each `at` is the byte place of the node's own token.
#[derive(Drop)]
pub enum SurfaceTy {
    /// `$o`, or `$oType`.
    Form {
        at: u32,
    },
    /// `$i`, or `$iType`.
    Indiv {
        at: u32,
    },
    Named {
        at: u32,
        name: Bytes,
    },
    Arrow {
        at: u32,
        from: Box<SurfaceTy>,
        to: Box<SurfaceTy>,
    },
}

impl SurfaceTy {
    ghost use Rattle.std.specs.Prelude.{IfOk};
    ghost use Rattle.thf_grammar.specs.Trees.{arrow};
    ghost use Rattle.thf_grammar.specs.View.{the_surface_type};

    /// The arrow from one type to another.
    pub fn arrow(alloc: Global, at: u32, from: SurfaceTy, to: SurfaceTy) -> Result<Self, AllocError>
        ensures { IfOk result (λ ty. the_surface_type ty ≡ arrow at (the_surface_type from) (the_surface_type to)) }
    {
        Ok(SurfaceTy::Arrow {
            at,
            from: Box::new(alloc, from)?,
            to: Box::new(alloc, to)?,
        })
    }
}

/// A variable of a binder. One without a type has `Indiv` at its own place.
#[derive(Drop)]
pub struct SurfaceVar {
    pub at: u32,
    pub name: Bytes,
    pub ty: SurfaceTy,
}

/// The variables of a binder, in their order.
#[derive(Drop)]
pub struct SurfaceVars {
    items: Vec<SurfaceVar>,
}

impl Model for SurfaceVars {
    ghost use Rattle.std.specs.Prelude.{List};
    ghost use Rattle.std.specs.Coded.{codes};
    ghost use Rattle.thf_grammar.specs.contracts.types.SurfaceTy as ty;
    ghost use Rattle.thf_grammar.specs.declared.types.SurfaceVar.{SurfaceVar};

    ghost Value = { List SurfaceVar };

    ghost coded = { Prim.hlevel (codes, ty.the_row.coded) };

    ghost view = { λ vars. vars.items.items };
}

impl SurfaceVars {
    pub fn new(alloc: Global) -> Self
        ensures { result ≡ [] }
    {
        SurfaceVars {
            items: Vec::new(alloc),
        }
    }

    /// Most binders have one variable, so that room for one is taken at first.
    pub fn push(&mut self, var: SurfaceVar) -> Result<(), AllocError>
        ensures ok { OnOk result (self.new ≡ self.old ++ var ∷ []) }
        ensures err { OnErr result (self.new ≡ self.old) }
    {
        if self.items.is_empty() {
            self.items.reserve_exact(1)?;
        }
        self.items.push(var)?;
        Ok(())
    }

    pub fn as_slice(&self) -> &[SurfaceVar]
        ensures { result.now ≡ self.now }
    {
        &self.items
    }
}
