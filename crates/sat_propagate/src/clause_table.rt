//! Clauses with their watched literals.
ghost use Rattle.std.specs.Prelude.{◌≡◌, ◌≢◌, ◌<◌, ◌++◌, [], ◌∷◌, IsTrue, false, List, length, take, Some, slice_get, slice_index_or, OnOk, OnErr, IfOk, IfSome, IfNone};
ghost use Rattle.sat_base.specs.declared.literal.SatLit.{SatLit};
ghost use Rattle.sat_propagate.specs.Internal.ClauseTable.{Watched};

use crate::packed::{Packed, narrow};
use sat_base::SatLit;
use std::alloc::{AllocError, Global};
use std::marker::Model;

/// How many of a clause's literals stand with the watched ones.
pub const NEAR: usize = 6;

/// A clause's watched literals, or twice one of it where it watches none, where its literals stand, and the first of them.
#[derive(Clone, Copy)]
pub struct Head {
    pub first: Packed,
    pub second: Packed,
    pub start: u32,
    pub len: u32,
    pub near: [Packed; NEAR],
}

impl Head {
    ghost use Rattle.sat_propagate.specs.Internal.ClauseTable.{with_head};
    ghost use Rattle.sat_propagate.specs.Internal.Propagator.{IsPair, IsBeside};

    /// The second literal where the first is this one, and else the first.
    fn beside(&self, literal: Packed) -> Packed
        ensures { (literals : List SatLit) → IsBeside (with_head literals self.now) literal result }
    {
        if self.first.is(literal) {
            self.second
        } else {
            self.first
        }
    }

    /// Watches a literal in place of another one.
    fn replace(&mut self, from: Packed, to: Packed)
        ensures place { (self.new.start ≡ self.old.start) × (self.new.len ≡ self.old.len) }
        ensures near { self.new.near ≡ self.old.near }
        ensures pair { (literals : List SatLit) (other : SatLit) → IsPair (with_head literals self.old) from other
            → IsPair (with_head literals self.new) to other }
    {
        let kept = if self.first.is(from) {
            self.second
        } else {
            self.first
        };
        self.first = kept;
        self.second = to;
    }
}

/// Clauses by their numbers, with their literals one after the other.
#[derive(Drop)]
pub struct ClauseTable {
    heads: Vec<Head>,
    literals: Vec<Packed>,
}

impl Model for ClauseTable {
    ghost use Rattle.sat_propagate.specs.Internal.ClauseTable.{Clauses, all_headed, IsClauseTable};

    ghost Value = { Clauses };

    ghost view = { λ t. record { items = all_headed t.literals.items t.heads.items } };

    ghost invariant = { λ t. IsClauseTable t.literals.items t.heads.items };
}

impl ClauseTable {
    ghost use Rattle.sat_propagate.specs.Internal.Propagator.{IsPair, Watches, IsBeside, Rewatched, Detaches};

    pub fn new(alloc: Global) -> Self
        ensures { result.items ≡ [] }
    {
        ClauseTable {
            heads: Vec::new(alloc),
            literals: Vec::new(alloc),
        }
    }

    pub fn len(&self) -> usize
        ensures { result ≡ length self.now.items }
    {
        self.heads.len()
    }

    /// The literals of a clause.
    pub fn literals(&self, n: usize) -> &[Packed]
        requires { n < length self.now.items }
        ensures { (watched : Watched) → slice_get self.now.items n ≡ Some watched → result.now ≡ watched.clause }
    {
        let head = &self.heads[n];
        let len = head.len as usize;
        if len <= NEAR {
            return &head.near[..len];
        }
        let start = head.start as usize;
        &self.literals[start..start + len]
    }

    /// The first literals of a clause.
    pub fn near(&self, n: usize) -> &[Packed]
        requires { n < length self.now.items }
        ensures { (watched : Watched) → slice_get self.now.items n ≡ Some watched → result.now ≡ take 6 watched.clause }
    {
        let head = &self.heads[n];
        let len = head.len as usize;
        if len < NEAR {
            &head.near[..len]
        } else {
            &head.near
        }
    }

    /// A watched literal of a clause: the other one, where the clause watches this one. None where it watches none, or there is no
    /// such clause.
    pub fn other(&self, n: usize, literal: Packed) -> Option<Packed>
        ensures some { IfSome result (λ l. (watched : Watched) × (slice_get self.now.items n ≡ Some watched)
            × (watched.first ≢ watched.second) × IsBeside watched literal l) }
        ensures none { IfNone result ((watched : Watched) → slice_get self.now.items n ≡ Some watched → watched.first ≡ watched.second) }
    {
        let head = self.heads.get(n)?;
        let is_detached = head.first.is(head.second);
        if is_detached {
            return None;
        }
        Some(head.beside(literal))
    }

    /// Whether a clause watches a literal.
    pub fn watches(&self, n: usize, literal: Packed) -> bool
        requires { n < length self.now.items }
        ensures yes { IsTrue result → (watched : Watched) → slice_get self.now.items n ≡ Some watched → Watches watched literal }
        ensures no { result ≡ false → (watched : Watched) → slice_get self.now.items n ≡ Some watched → (watched.first ≢ literal)
            × (watched.second ≢ literal) }
    {
        let head = &self.heads[n];
        head.first.is(literal) || head.second.is(literal)
    }

    /// The other watched literal of a clause that watches this one.
    pub fn other_than(&self, n: usize, literal: Packed) -> Packed
        requires { n < length self.now.items }
        ensures { (watched : Watched) → slice_get self.now.items n ≡ Some watched → Watches watched literal
            → IsPair watched literal result }
    {
        let head = &self.heads[n];
        if head.first.is(literal) {
            head.second
        } else {
            head.first
        }
    }

    /// Appends a clause with its watched literals.
    pub fn push(
        &mut self,
        clause: &[SatLit],
        first: Packed,
        second: Packed,
    ) -> Result<(), AllocError>
        ensures ok { OnOk result (self.new.items ≡ self.old.items ++ record { clause = clause.now; first = first; second = second } ∷ []) }
        ensures err { OnErr result (self.new ≡ self.old) }
    {
        let start = narrow(self.literals.len())?;
        let len = narrow(clause.len())?;
        let near = near_of(clause, first)?;
        append(&mut self.literals, clause)?;
        self.heads.push(Head {
            first,
            second,
            start,
            len,
            near,
        })?;
        Ok(())
    }

    /// Takes the last clause away.
    pub fn pop(&mut self)
        ensures { (rest : List Watched) (last : Watched) → self.old.items ≡ rest ++ last ∷ [] → self.new.items ≡ rest }
    {
        let _ = self.heads.pop();
    }

    /// A clause watches a literal in place of another one.
    pub fn replace(&mut self, n: usize, from: Packed, to: Packed)
        requires { n < length self.old.items }
        ensures { (old : Watched) (other : SatLit) → slice_get self.old.items n ≡ Some old → IsPair old from other
            → Rewatched self.old.items self.new.items n from to other }
    {
        let head = &mut self.heads[n];
        head.replace(from, to);
    }

    /// Whether a clause names one literal twice, and so watches none.
    pub fn is_detached(&self, n: usize) -> bool
        ensures yes { IsTrue result → (watched : Watched) × (slice_get self.now.items n ≡ Some watched) × (watched.first ≡ watched.second) }
        ensures no { result ≡ false → (watched : Watched) → slice_get self.now.items n ≡ Some watched → watched.first ≢ watched.second }
    {
        match self.heads.get(n) {
            Some(head) => head.first.is(head.second),
            None => false,
        }
    }

    /// A clause watches none of its literals any more.
    pub fn detach(&mut self, n: usize)
        requires { n < length self.old.items }
        ensures { Detaches self.old.items self.new.items n }
    {
        let head = &mut self.heads[n];
        head.second = head.first;
    }
}

/// Appends a clause's literals to a list.
fn append(literals: &mut Vec<Packed>, clause: &[SatLit]) -> Result<(), AllocError>
    ensures ok { OnOk result (literals.new.items ≡ literals.old.items ++ clause.now) }
    ensures longer { (rest : List SatLit) × (literals.new.items ≡ literals.old.items ++ rest) }
{
    for literal in clause {
        literals.push(Packed::of(*literal)?)?;
    }
    Ok(())
}

/// The first literals of a clause, and another one as often as there is room for more.
fn near_of(clause: &[SatLit], rest: Packed) -> Result<[Packed; NEAR], AllocError>
    ensures { IfOk result (λ near. take (length clause.now) near ≡ take 6 clause.now) }
{
    Ok([
        literal_or(clause, 0, rest)?,
        literal_or(clause, 1, rest)?,
        literal_or(clause, 2, rest)?,
        literal_or(clause, 3, rest)?,
        literal_or(clause, 4, rest)?,
        literal_or(clause, 5, rest)?,
    ])
}

/// A literal of a clause by its place, or another one where there is none.
fn literal_or(clause: &[SatLit], at: usize, rest: Packed) -> Result<Packed, AllocError>
    ensures { IfOk result (λ literal. literal ≡ slice_index_or clause.now at rest) }
{
    match clause.get(at) {
        Some(literal) => Packed::of(*literal),
        None => Ok(rest),
    }
}
