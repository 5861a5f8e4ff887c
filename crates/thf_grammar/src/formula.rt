//! Formulas.
ghost use Rattle.std.specs.Prelude.{◌≡◌, IfOk};

use crate::connective::{Binder, Conn};
use crate::types::SurfaceVars;
use outside::Bytes;
use std::alloc::{AllocError, Global};

/// A formula or another term. Each `at` is the byte place of the node's own token. Parentheses are no
/// nodes.
#[derive(Drop)]
pub enum Surface {
    Name {
        at: u32,
        name: Bytes,
    },
    Var {
        at: u32,
        name: Bytes,
    },
    /// `$true` or `$false`.
    Truth {
        at: u32,
        value: bool,
    },
    /// A connective in parentheses, at the connective.
    Op {
        at: u32,
        conn: Conn,
    },
    Not {
        at: u32,
        body: Box<Surface>,
    },
    Binary {
        at: u32,
        conn: Conn,
        left: Box<Surface>,
        right: Box<Surface>,
    },
    /// `=`, or `!=` where it isn't positive.
    Equation {
        at: u32,
        positive: bool,
        left: Box<Surface>,
        right: Box<Surface>,
    },
    /// An application, at its `@`.
    Apply {
        at: u32,
        fun: Box<Surface>,
        arg: Box<Surface>,
    },
    /// `!! @ s`, or `?? @ s` where not all are meant, at the `@`.
    Quant {
        at: u32,
        all: bool,
        arg: Box<Surface>,
    },
    /// A binder's formula. The binder stands before the place, beside the variant's tag, which makes formulas smaller.
    Bind {
        binder: Binder,
        at: u32,
        vars: SurfaceVars,
        body: Box<Surface>,
    },
}

impl Surface {
    ghost use Rattle.thf_grammar.specs.Trees as tree;
    ghost use Rattle.thf_grammar.specs.View.{the_formula, the_vars};

    pub fn not(alloc: Global, at: u32, body: Surface) -> Result<Self, AllocError>
        ensures { IfOk result (λ t. the_formula t ≡ tree.negation at (the_formula body)) }
    {
        Ok(Surface::Not {
            at,
            body: Box::new(alloc, body)?,
        })
    }

    pub fn binary(
        alloc: Global,
        at: u32,
        conn: Conn,
        left: Surface,
        right: Surface,
    ) -> Result<Self, AllocError>
        ensures { IfOk result (λ t. the_formula t ≡ tree.binary at conn (the_formula left) (the_formula right)) }
    {
        Ok(Surface::Binary {
            at,
            conn,
            left: Box::new(alloc, left)?,
            right: Box::new(alloc, right)?,
        })
    }

    pub fn equation(
        alloc: Global,
        at: u32,
        positive: bool,
        left: Surface,
        right: Surface,
    ) -> Result<Self, AllocError>
        ensures { IfOk result (λ t. the_formula t ≡ tree.equation at positive (the_formula left) (the_formula right)) }
    {
        Ok(Surface::Equation {
            at,
            positive,
            left: Box::new(alloc, left)?,
            right: Box::new(alloc, right)?,
        })
    }

    pub fn apply(alloc: Global, at: u32, fun: Surface, arg: Surface) -> Result<Self, AllocError>
        ensures { IfOk result (λ t. the_formula t ≡ tree.application at (the_formula fun) (the_formula arg)) }
    {
        Ok(Surface::Apply {
            at,
            fun: Box::new(alloc, fun)?,
            arg: Box::new(alloc, arg)?,
        })
    }

    pub fn quant(alloc: Global, at: u32, all: bool, arg: Surface) -> Result<Self, AllocError>
        ensures { IfOk result (λ t. the_formula t ≡ tree.quantified at all (the_formula arg)) }
    {
        Ok(Surface::Quant {
            at,
            all,
            arg: Box::new(alloc, arg)?,
        })
    }

    pub fn bind(
        alloc: Global,
        at: u32,
        binder: Binder,
        vars: SurfaceVars,
        body: Surface,
    ) -> Result<Self, AllocError>
        ensures { IfOk result (λ t. the_formula t ≡ tree.binding at binder (the_vars vars) (the_formula body)) }
    {
        Ok(Surface::Bind {
            at,
            binder,
            vars,
            body: Box::new(alloc, body)?,
        })
    }
}
