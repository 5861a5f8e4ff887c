//! Statements, and the tree of a file.
ghost use Rattle.std.specs.Prelude.{◌≡◌, [], ◌∷◌, ◌++◌, OnOk, OnErr};

use crate::formula::Surface;
use crate::types::SurfaceTy;
use outside::Bytes;
use std::alloc::{AllocError, Global};
use std::marker::Model;

/// What an annotated formula says. In `Base` and `Typing`, `at` is the byte place of the name.
pub enum Body {
    /// Declares a base type.
    Base { at: u32, name: Bytes },
    /// Declares a constant.
    Typing { at: u32, name: Bytes, ty: SurfaceTy },
    Formula(Surface),
}

// Written out, so that a proof takes a drop as one call.
impl Drop for Body {
    fn drop(self) {
        match self {
            Body::Base { at: _, name: _ }
            | Body::Typing {
                at: _,
                name: _,
                ty: _,
            }
            | Body::Formula(_) => {}
        }
    }
}

/// An annotated formula. Notes are read and not kept.
#[derive(Drop)]
pub struct Annotated {
    pub name: Bytes,
    pub role: Bytes,
    pub role_at: u32,
    pub body: Body,
}

/// A name in the selection of an include.
#[derive(Drop)]
pub struct Selected {
    pub at: u32,
    pub name: Bytes,
}

/// The selected names of an include, in their order.
#[derive(Drop)]
pub struct Selection {
    items: Vec<Selected>,
}

impl Model for Selection {
    ghost use Rattle.std.specs.Prelude.{List};
    ghost use Rattle.thf_grammar.specs.declared.statement.Selected.{Selected};

    ghost Value = { List Selected };

    ghost view = { λ only. only.items.items };
}

impl Selection {
    pub fn new(alloc: Global) -> Self
        ensures { result ≡ [] }
    {
        Selection {
            items: Vec::new(alloc),
        }
    }

    pub fn push(&mut self, selected: Selected) -> Result<(), AllocError>
        ensures ok { OnOk result (self.new ≡ self.old ++ selected ∷ []) }
        ensures err { OnErr result (self.new ≡ self.old) }
    {
        self.items.push(selected)?;
        Ok(())
    }

    pub fn as_slice(&self) -> &[Selected]
        ensures { result.now ≡ self.now }
    {
        &self.items
    }
}

/// A statement. In `Include`, `at` is the byte place of the file's name.
#[derive(Drop)]
pub enum Statement {
    Annotated(Annotated),
    Include {
        at: u32,
        file: Bytes,
        only: Option<Selection>,
    },
}

/// The statements of a file, in their order.
#[derive(Drop)]
pub struct FileTree {
    items: Vec<Statement>,
}

impl Model for FileTree {
    ghost use Rattle.std.specs.Prelude.{List};
    ghost use Rattle.std.specs.Coded.{codes};
    ghost use Rattle.thf_grammar.specs.contracts.formula.Surface as formula;
    ghost use Rattle.thf_grammar.specs.contracts.types.SurfaceTy as ty;
    ghost use Rattle.thf_grammar.specs.declared.statement.Statement.{Statement};

    ghost Value = { List Statement };

    ghost coded = { Prim.hlevel (codes, ty.the_row.coded, formula.the_row.coded) };

    ghost view = { λ file. file.items.items };
}

impl FileTree {
    pub fn new(alloc: Global) -> Self
        ensures { result ≡ [] }
    {
        FileTree {
            items: Vec::new(alloc),
        }
    }

    pub fn push(&mut self, statement: Statement) -> Result<(), AllocError>
        ensures ok { OnOk result (self.new ≡ self.old ++ statement ∷ []) }
        ensures err { OnErr result (self.new ≡ self.old) }
    {
        self.items.push(statement)?;
        Ok(())
    }

    pub fn as_slice(&self) -> &[Statement]
        ensures { result.now ≡ self.now }
    {
        &self.items
    }

    pub fn into_statements(self) -> Vec<Statement>
        ensures { result.items ≡ self }
    {
        self.items
    }
}
