//! Lists without repeats.
ghost use Rattle.std.specs.Prelude.{◌≡◌, ◌<◌, ◌++◌, [], ◌∷◌, not, false, ℕ, nat_eq, if◌then◌else◌, length, slice_index_or, IfOk, OnOk, OnErr};
ghost use Rattle.std.specs.List.{list_any};
ghost use Rattle.tableau_calculus.specs.Kinds.{has, added};
ghost use Rattle.search_spec.specs.Numbered.{numbers};

use sat_base::SatLit;
use sat_propagate::Packed;
use std::alloc::{AllocError, Global};
use std::marker::Model;
use term_bank::Id;

/// Literals, each there once, in the order in which they came. By a literal's number it is marked whether it is there.
#[derive(Drop)]
pub struct LitSet {
    literals: Vec<Packed>,
    marks: Vec<bool>,
}

impl Model for LitSet {
    ghost use Rattle.std.specs.Prelude.{List};
    ghost use Rattle.sat_base.specs.declared.literal.SatLit.{SatLit};
    ghost use Rattle.prover_state.specs.Internal.Marks.{AreMarks};

    ghost Value = { List SatLit };

    ghost view = { λ set. set.literals.items };

    ghost invariant = { λ set. AreMarks set.literals.items set.marks.items };
}

impl LitSet {
    pub fn new(alloc: Global) -> LitSet
        ensures { result ≡ [] }
    {
        LitSet {
            literals: Vec::new(alloc),
            marks: Vec::new(alloc),
        }
    }

    /// Adds a literal, and tells whether it is new.
    pub fn insert(&mut self, lit: SatLit) -> Result<bool, AllocError>
        ensures new { IfOk result (λ is_new. is_new ≡ not (has numbers self.old lit)) }
        ensures list { OnOk result (self.new ≡ added numbers self.old (lit ∷ [])) }
        ensures err { OnErr result (self.new ≡ self.old) }
    {
        let literal = Packed::of(lit)?;
        let number = literal.number();
        reach(&mut self.marks, number)?;
        if self.marks[number] {
            return Ok(false);
        }
        self.literals.push(literal)?;
        self.marks[number] = true;
        Ok(true)
    }
}

/// Terms by number, each there once, in the order in which they came. By its number it is marked whether a term is there.
#[derive(Drop)]
pub struct IdSet {
    ids: Vec<Id>,
    marks: Vec<bool>,
}

impl Model for IdSet {
    ghost use Rattle.std.specs.Prelude.{List, ℕ};
    ghost use Rattle.prover_state.specs.Internal.Marks.{AreNumberMarks};

    ghost Value = { List ℕ };

    ghost view = { λ set. set.ids.items };

    ghost invariant = { λ set. AreNumberMarks set.ids.items set.marks.items };
}

impl IdSet {
    pub fn new(alloc: Global) -> IdSet
        ensures { result ≡ [] }
    {
        IdSet {
            ids: Vec::new(alloc),
            marks: Vec::new(alloc),
        }
    }

    pub fn contains(&self, id: Id) -> bool
        ensures { result ≡ list_any (nat_eq id) self.now }
    {
        match self.marks.get(id as usize) {
            Some(is_there) => *is_there,
            None => false,
        }
    }

    /// Adds a term, and tells whether it is new.
    pub fn insert(&mut self, id: Id) -> Result<bool, AllocError>
        ensures new { IfOk result (λ is_new. is_new ≡ not (list_any (nat_eq id) self.old)) }
        ensures list { OnOk result (self.new ≡ (if list_any (nat_eq id) self.old then self.old else self.old ++ id ∷ [])) }
        ensures err { OnErr result (self.new ≡ self.old) }
    {
        let number = id as usize;
        reach(&mut self.marks, number)?;
        if self.marks[number] {
            return Ok(false);
        }
        self.ids.push(id)?;
        self.marks[number] = true;
        Ok(true)
    }
}

/// Makes marks up to a number, of which nothing is marked.
fn reach(marks: &mut Vec<bool>, number: usize) -> Result<(), AllocError>
    ensures reached { OnOk result (number < length marks.new.items) }
    ensures same { (n : ℕ) → slice_index_or marks.new.items n false ≡ slice_index_or marks.old.items n false }
{
    while marks.len() <= number {
        marks.push(false)?;
    }
    Ok(())
}
