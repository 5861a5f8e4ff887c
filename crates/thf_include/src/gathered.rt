//! Statements with the files that they stand in.

ghost use Rattle.std.specs.Prelude.{◌≡◌, ◌<◌, [], ◌∷◌, ◌++◌, Some, length, slice_get, OnOk, OnErr};

use std::alloc::{AllocError, Global};
use std::marker::Model;
use thf_grammar::Annotated;

/// A statement, and the number of its file: its place among the names of the problem's files, from 0.
#[derive(Drop)]
pub struct Placed {
    pub file: u32,
    pub statement: Annotated,
}

/// The statements of a problem, in their order.
#[derive(Drop)]
pub struct Gathered {
    items: Vec<Placed>,
}

impl Model for Gathered {
    ghost use Rattle.std.specs.Prelude.{List};
    ghost use Rattle.std.specs.Coded.{codes};
    ghost use Rattle.thf_grammar.specs.contracts.formula.Surface as formula;
    ghost use Rattle.thf_grammar.specs.contracts.types.SurfaceTy as ty;
    ghost use Rattle.thf_include.specs.declared.gathered.Placed.{Placed};

    ghost Value = { List Placed };

    ghost coded = { Prim.hlevel (codes, ty.the_row.coded, formula.the_row.coded) };

    ghost view = { λ gathered. gathered.items.items };
}

impl Gathered {
    pub fn new(alloc: Global) -> Self
        ensures { result ≡ [] }
    {
        Gathered {
            items: Vec::new(alloc),
        }
    }

    pub fn push(&mut self, placed: Placed) -> Result<(), AllocError>
        ensures ok { OnOk result (self.new ≡ self.old ++ placed ∷ []) }
        ensures err { OnErr result (self.new ≡ self.old) }
    {
        self.items.push(placed)?;
        Ok(())
    }

    pub fn len(&self) -> usize
        ensures { result ≡ length self.now }
    {
        self.items.len()
    }

    /// The statement at a place, which counts from 0.
    pub fn at(&self, i: usize) -> &Placed
        requires { i < length self.now }
        ensures { slice_get self.now i ≡ Some result.now }
    {
        &self.items[i]
    }

    pub fn as_slice(&self) -> &[Placed]
        ensures { result.now ≡ self.now }
    {
        &self.items
    }

    /// The statements as a list, in their order.
    pub fn into_items(self) -> Vec<Placed>
        ensures { result.items ≡ self }
    {
        self.items
    }
}
