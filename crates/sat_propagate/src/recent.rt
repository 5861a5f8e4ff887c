//! The clauses that were learned last.

ghost use Rattle.std.specs.Prelude.{◌≡◌, ◌≢◌, ◌+◌, ◌/◌, ◌<◌, ◌≤◌, ℕ, [], Some, OnOk, false, if◌then◌else◌, length, nat_lt, slice_get, slice_index_or};
ghost use Rattle.std.specs.List.{Contains};
ghost use Rattle.std.specs.Int.Bits.{bit_and};
ghost use Rattle.sat_propagate.specs.Internal.Recent.{signature, AppendsCovered, HasBits};

use crate::packed::Packed;
use std::alloc::{AllocError, Global};

// So many signatures are tested at once.
const BLOCK: usize = 8;

// How many blocks of clauses are kept.
const MOST: usize = 125;

// By this number the numbers of literals are spread over the bits of a signature.
const SPREAD: usize = 0x9E37_79B1;

/// The bits that some clauses don't have.
#[derive(Clone, Copy)]
struct Block {
    absent: [u64; BLOCK],
}

impl Block {
    // A block without clauses: what has all bits absent is never found.
    const EMPTY: Block = Block {
        absent: [u64::MAX; BLOCK],
    };

    /// Whether some clause of the block has all of these bits. Where a number is 0, and only there, the one before it has a
    /// bit at the top that the number lacks.
    fn has(&self, bits: u64) -> bool
        ensures { result ≡ false → (i : ℕ) → i < 8 → bit_and bits (slice_index_or self.now.absent i 0) ≢ 0 }
    {
        let mut tops = 0;
        for absent in &self.absent {
            let lacking = bits & *absent;
            tops |= lacking.wrapping_sub(1) & !lacking;
        }
        tops >> 63 == 1
    }
}

/// The clauses that were learned last, by their numbers. Each literal has one of 64 bits, and a clause the bits of its literals: where one
/// clause is a part of another one, so are its bits. Kept are the bits that a clause doesn't have. Nothing rests on what is found.
#[derive(Drop)]
pub struct Recent {
    blocks: Vec<Block>,
    clauses: Vec<usize>,
    next: usize,
}

impl Recent {
    pub fn new(alloc: Global) -> Self
        ensures blocks { result.blocks.items ≡ [] }
        ensures clauses { result.clauses.items ≡ [] }
        ensures next { result.next ≡ 0 }
    {
        Recent {
            blocks: Vec::new(alloc),
            clauses: Vec::new(alloc),
            next: 0,
        }
    }

    /// Appends those of the clauses to a list that a new one may be a part of, and keeps this one too.
    #[tactic(auto, using(crate::proofs::RecentLaws::appends_none, crate::proofs::RecentLaws::appends_more))]
    pub fn find_covered(
        &mut self,
        new: usize,
        literals: &[Packed],
        found: &mut Vec<usize>,
    ) -> Result<(), AllocError>
        ensures found { AppendsCovered self.old.blocks.items self.old.clauses.items (signature literals.now)
            found.old.items found.new.items }
        ensures all { OnOk result
            ((n : ℕ) → HasBits self.old.blocks.items self.old.clauses.items (signature literals.now) n → Contains found.new.items n) }
        ensures kept { OnOk result (HasBits self.new.blocks.items self.new.clauses.items (signature literals.now) new) }
        ensures next { OnOk result (self.new.next ≡ (if nat_lt self.old.next 999 then self.old.next + 1 else 0)) }
    {
        let bits = bits_of(literals);
        for at in 0..self.blocks.len() {
            if self.blocks[at].has(bits) {
                self.find_in_block(at, bits, found)?;
            }
        }
        self.keep(new, bits)
    }

    /// Appends the clauses of a block that have all of these bits to a list.
    #[tactic(auto, using(crate::proofs::RecentLaws::appends_none))]
    fn find_in_block(&self, at: usize, bits: u64, found: &mut Vec<usize>) -> Result<(), AllocError>
        ensures found { AppendsCovered self.now.blocks.items self.now.clauses.items bits found.old.items found.new.items }
        ensures all { OnOk result ((n : ℕ) (h : HasBits self.now.blocks.items self.now.clauses.items bits n) → h.place / 8 ≡ at
            → Contains found.new.items n) }
    {
        let clauses = self.clauses.as_slice();
        let Some(block) = self.blocks.get(at) else {
            return Ok(());
        };
        let Some(start) = at.checked_mul(BLOCK) else {
            return Ok(());
        };
        for i in 0..BLOCK {
            if bits & block.absent[i] != 0 {
                continue;
            }
            if let Some(clause) = clauses.get(start + i) {
                found.push(*clause)?;
            }
        }
        Ok(())
    }

    /// Keeps a clause with its bits, in the place of the oldest one where there is no room.
    fn keep(&mut self, clause: usize, bits: u64) -> Result<(), AllocError>
        ensures kept { OnOk result (HasBits self.new.blocks.items self.new.clauses.items bits clause) }
        ensures next { OnOk result (self.new.next ≡ (if nat_lt self.old.next 999 then self.old.next + 1 else 0)) }
    {
        let place = self.next.min(self.clauses.len());
        let at = place / BLOCK;
        self.make_blocks(at)?;
        store(&mut self.clauses, place, clause)?;
        let block = &mut self.blocks[at];
        block.absent[place % BLOCK] = !bits;
        self.next = if self.next < MOST * BLOCK - 1 {
            self.next + 1
        } else {
            0
        };
        Ok(())
    }

    /// Makes blocks up to a number, where there are fewer.
    fn make_blocks(&mut self, at: usize) -> Result<(), AllocError>
        ensures made { OnOk result (at < length self.new.blocks.items) }
        ensures clauses { self.new.clauses ≡ self.old.clauses }
        ensures next { self.new.next ≡ self.old.next }
    {
        while self.blocks.len() <= at {
            self.blocks.push(Block::EMPTY)?;
        }
        Ok(())
    }
}

/// Puts a number at a place of a list, or at its end.
fn store(numbers: &mut Vec<usize>, place: usize, number: usize) -> Result<(), AllocError>
    requires { place ≤ length numbers.old.items }
    ensures { OnOk result (slice_get numbers.new.items place ≡ Some number) }
{
    if place < numbers.len() {
        numbers[place] = number;
        return Ok(());
    }
    numbers.push(number)?;
    Ok(())
}

/// The bits of some literals.
fn bits_of(literals: &[Packed]) -> u64
    ensures { result ≡ signature literals.now }
{
    let mut bits = 0;
    for literal in literals {
        let spread = literal.number().wrapping_mul(SPREAD) >> 26;
        bits |= 1u64 << (spread % 64);
    }
    bits
}
