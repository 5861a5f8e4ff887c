//! Clauses.
ghost use Rattle.std.specs.Prelude.{◌≡◌, [], ◌∷◌, ◌++◌, length, IsTrue, ◌↔◌, IfOk, OnOk, OnErr};
ghost use Rattle.std.specs.Slice.Iter.{iter_rest};

use crate::literal::SatLit;
use smallvec::SmallVec;
use std::alloc::{AllocError, Global};
use std::marker::Model;
use std::slice;

// Most clauses of a tableau step have at most this many literals, and then take no allocation.
const INLINE: usize = 4;

/// A clause: the disjunction of its literals, in their order.
#[derive(Drop)]
pub struct Clause {
    literals: SmallVec<SatLit, INLINE>,
}

impl Model for Clause {
    ghost use Rattle.std.specs.Prelude.{List};
    ghost use Rattle.sat_base.specs.declared.literal.SatLit.{SatLit};

    ghost Value = { List SatLit };

    ghost view = { λ clause. clause.literals.items };
}

impl Clause {
    /// The clause with no literal.
    pub fn new(alloc: Global) -> Self
        ensures { result ≡ [] }
    {
        Clause {
            literals: SmallVec::new(alloc),
        }
    }

    /// The clause of these literals.
    pub fn from_slice(alloc: Global, literals: &[SatLit]) -> Result<Self, AllocError>
        ensures { IfOk result (λ clause. clause ≡ literals.now) }
    {
        Ok(Clause {
            literals: SmallVec::from_slice(alloc, literals)?,
        })
    }

    /// Appends a literal.
    pub fn push(&mut self, literal: SatLit) -> Result<(), AllocError>
        ensures ok { OnOk result (self.new ≡ self.old ++ literal ∷ []) }
        ensures err { OnErr result (self.new ≡ self.old) }
    {
        self.literals.push(literal)?;
        Ok(())
    }

    pub fn len(&self) -> usize
        ensures { result ≡ length self.now }
    {
        self.literals.len()
    }

    pub fn is_empty(&self) -> bool
        ensures { IsTrue result ↔ (self.now ≡ []) }
    {
        self.literals.is_empty()
    }

    pub fn as_slice(&self) -> &[SatLit]
        ensures { result.now ≡ self.now }
    {
        self.literals.as_slice()
    }

    pub fn iter(&self) -> slice::Iter<'_, SatLit>
        ensures { iter_rest result ≡ self.now }
    {
        self.as_slice().iter()
    }
}
