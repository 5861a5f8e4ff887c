//! Clauses as keys: whether two clauses are the same list, and what of them is hashed.
ghost use Rattle.std.specs.Prelude.{◌≡◌, fold, map, IfOk};
ghost use Rattle.std.proofs.Common.{ap};
ghost use Rattle.std.specs.Cmp.{decided, partial_equiv_from_equiv};
ghost use Rattle.sat_laws.specs.Internal.Packing.{packed, unpacked};
ghost use Rattle.search_spec.specs.Clauses.{same_clause};
ghost use Rattle.search_spec.specs.Numbered.{numbers};
ghost use Rattle.tableau_clauses.specs.Internal.Keys.{joined, clause_number, clause_writes, clause_decides};

use sat_base::{Clause, SatLit, Var};
use smallvec::SmallVec;
use std::alloc::{AllocError, Global};
use std::hash::{Hash, Hasher};
use std::marker::Model;

// Most clauses have at most this many literals, and then their keys take no allocation.
const INLINE: usize = 4;

// Variables from this number on have no literal in four bytes.
const VARIABLES: usize = 1 << 31;

/// A clause by which its number is found: each literal as a number, which is twice that of its variable, and one more where it is positive.
#[derive(Drop)]
pub(crate) struct Key {
    codes: SmallVec<u32, INLINE>,
}

impl Model for Key {
    ghost use Rattle.std.specs.Prelude.{List, map};
    ghost use Rattle.sat_base.specs.declared.literal.SatLit.{SatLit};
    ghost use Rattle.sat_laws.specs.Internal.Packing.{unpacked};

    ghost Value = { List SatLit };

    ghost view = { λ key. map unpacked key.codes.items };
}

/// A literal as a number. There is none for variables from 2^31 on.
fn code_of(literal: SatLit) -> Result<u32, AllocError>
    ensures { IfOk result (λ code. code ≡ packed literal) }
{
    if literal.var.0 >= VARIABLES {
        return Err(AllocError);
    }
    let sign = if literal.positive { 1 } else { 0 };
    Ok(literal.var.0 as u32 * 2 + sign)
}

/// The literal of a number.
fn literal_of(code: u32) -> SatLit
    ensures { result ≡ unpacked code }
{
    SatLit {
        var: Var((code / 2) as usize),
        positive: code % 2 == 1,
    }
}

/// The clause of these numbers.
#[tactic(auto, using(crate::proofs::KeyLaws::decoded_more))]
fn clause_of(alloc: Global, codes: &[u32]) -> Result<Clause, AllocError>
    ensures { IfOk result (λ clause. clause ≡ map unpacked codes.now) }
{
    let mut clause = Clause::new(alloc);
    for code in codes {
        clause.push(literal_of(*code))?;
    }
    Ok(clause)
}

// The odd number next to 2^64 over the golden ratio.
const FACTOR: u64 = 11_400_714_819_323_198_485;

/// A number of 64 bits from one and the next literal's number.
fn joined(number: u64, code: u32) -> u64
    ensures { result ≡ joined number code }
{
    number
        .wrapping_mul(FACTOR)
        .wrapping_add(u64::from(code))
        .wrapping_add(1)
}

/// A number of 64 bits for some numbers.
fn number_of(codes: &[u32]) -> u64
    ensures { result ≡ fold joined 0 codes.now }
{
    let mut number = 0;
    for i in 0..codes.len() {
        number = joined(number, codes[i]);
    }
    number
}

impl Key {
    /// The key of a clause.
    #[tactic(auto, using(crate::proofs::KeyLaws::coded_more))]
    pub(crate) fn of(alloc: Global, clause: &Clause) -> Result<Key, AllocError>
        ensures { IfOk result (λ key. key ≡ clause.now) }
    {
        let mut codes = SmallVec::new(alloc);
        for literal in clause.as_slice() {
            codes.push(code_of(*literal)?)?;
        }
        Ok(Key { codes })
    }

    /// A number of 64 bits for the clause.
    fn number(&self) -> u64
        ensures { result ≡ clause_number self.now }
    {
        number_of(self.codes.as_slice())
    }

    /// A copy of the clause.
    pub(crate) fn clause(&self, alloc: Global) -> Result<Clause, AllocError>
        ensures { IfOk result (λ clause. clause ≡ self.now) }
    {
        clause_of(alloc, self.codes.as_slice())
    }
}

impl PartialEq for Key {
    ghost eq = { same_clause numbers };

    ghost laws = { partial_equiv_from_equiv (decided (same_clause numbers) clause_decides) };

    fn eq(&self, other: &Key) -> bool {
        self.codes.as_slice() == other.codes.as_slice()
    }
}

impl Eq for Key {
    ghost laws = { decided (same_clause numbers) clause_decides };
}

impl Hash for Key {
    ghost hash_input = { clause_writes };

    ghost respects_eq = { λ a b h. ap clause_writes ((clause_decides a b).0 h) };

    fn hash<H: Hasher>(&self, state: &mut H) {
        state.write_u64(self.number());
    }
}
