//! Literals and branches.

ghost use Rattle.std.specs.Prelude.{◌≡◌, ◌<◌, ◌++◌, [], ◌∷◌, length, OnOk, OnErr, slice_get, option_copied, Some, false, IfOk, IsTrue, ◌↔◌, Contains};
ghost use Rattle.tableau_calculus.specs.Literals.{Literal, is_negated, opposite};
ghost use Rattle.tableau_calculus.specs.Accepted.{Within, IsClosedBranch};

use std::alloc::{AllocError, Global};
use std::marker::Model;
use std::rc::Rc;
use stt_core::{Nf, same_nf};

/// A formula with a sign. Its head isn't negation, which the sign stands for.
#[derive(Drop)]
pub struct Lit {
    pub positive: bool,
    pub atom: Nf,
}

impl Model for Lit {
    ghost use Rattle.std.specs.Prelude.{◌≡◌, false};
    ghost use Rattle.tableau_calculus.specs.Literals.{Literal, is_negated};
    ghost use Rattle.tableau_calculus.specs.Internal.Codes.{literal_code};

    ghost Value = { Literal };

    ghost coded = { literal_code };

    ghost view = { λ l. record { positive = l.positive; atom = l.atom } };

    ghost invariant = { λ l. is_negated l.atom ≡ false };
}

impl Lit {
    /// A copy of the literal.
    pub fn try_clone(&self, alloc: Global) -> Result<Lit, AllocError>
        ensures { IfOk result (λ l. l ≡ self.now) }
    {
        let atom = self.atom.try_clone(alloc)?;
        Ok(Lit {
            positive: self.positive,
            atom,
        })
    }

    /// The literal's negation.
    pub fn opposite(self) -> Lit
        ensures { result ≡ opposite self }
    {
        let Lit { positive, atom } = self;
        Lit {
            positive: !positive,
            atom,
        }
    }

    /// Whether the two literals are the same.
    pub fn same(&self, other: &Lit) -> bool
        ensures { IsTrue result ↔ self.now ≡ other.now }
    {
        self.positive == other.positive && same_nf(&self.atom, &other.atom)
    }

    /// Whether the other literal is the negation of this one.
    pub fn is_opposite(&self, other: &Lit) -> bool
        ensures { IsTrue result ↔ other.now ≡ opposite self.now }
    {
        self.positive != other.positive && same_nf(&self.atom, &other.atom)
    }
}

/// A list of literals, as a branch of a tableau, which is read as a set. Lists share their literals.
#[derive(Drop)]
pub struct Lits {
    items: Vec<Rc<Lit>>,
    alloc: Global,
}

impl Model for Lits {
    ghost use Rattle.std.specs.Prelude.{List, map};
    ghost use Rattle.std.specs.Coded.{coded_list};
    ghost use Rattle.tableau_calculus.specs.Literals.{Literal};
    ghost use Rattle.tableau_calculus.specs.Internal.Codes.{literal_code};

    ghost Value = { List Literal };

    ghost coded = { coded_list literal_code };

    ghost view = { λ a. map (λ l. l.value) a.items.items };
}

impl Lits {
    pub fn new(alloc: Global) -> Lits
        ensures { result ≡ [] }
    {
        Lits {
            items: Vec::new(alloc),
            alloc,
        }
    }

    pub fn push(&mut self, lit: Lit) -> Result<(), AllocError>
        ensures ok { OnOk result (self.new ≡ self.old ++ lit ∷ []) }
        ensures err { OnErr result (self.new ≡ self.old) }
    {
        let shared = Rc::new(self.alloc, lit)?;
        self.items.push(shared)?;
        Ok(())
    }

    /// Appends the literal at a place of another list, which shares it from then on.
    pub fn share(&mut self, other: &Lits, i: usize) -> Result<(), AllocError>
        requires { i < length other.now }
        ensures ok { OnOk result ((lit : Literal) → slice_get other.now i ≡ Some lit → self.new ≡ self.old ++ lit ∷ []) }
        ensures err { OnErr result (self.new ≡ self.old) }
    {
        let shared = Rc::clone(&other.items[i])?;
        self.items.push(shared)?;
        Ok(())
    }

    pub fn len(&self) -> usize
        ensures { result ≡ length self.now }
    {
        self.items.len()
    }

    /// The literal at a place, which counts from 0.
    pub fn get(&self, i: usize) -> Option<&Lit>
        ensures { option_copied result ≡ slice_get self.now i }
    {
        match self.items.get(i) {
            Some(lit) => Some(&**lit),
            None => None,
        }
    }

    /// A list of the same literals, which both lists share.
    pub fn try_clone(&self, alloc: Global) -> Result<Lits, AllocError>
        ensures { IfOk result (λ ls. ls ≡ self.now) }
    {
        let mut lits = Lits::new(alloc);
        for i in 0..self.len() {
            let _lit = self.at(i);
            lits.share(self, i)?;
        }
        Ok(lits)
    }

    /// Whether the list has the literal.
    pub fn contains(&self, lit: &Lit) -> bool
        ensures { IsTrue result ↔ Contains self.now lit.now }
    {
        for i in 0..self.len() {
            if self.at(i).same(lit) {
                return true;
            }
        }
        false
    }

    /// Whether the list has the literal's negation.
    pub fn contains_opposite(&self, lit: &Lit) -> bool
        ensures { IsTrue result ↔ Contains self.now (opposite lit.now) }
    {
        for i in 0..self.len() {
            if lit.is_opposite(self.at(i)) {
                return true;
            }
        }
        false
    }

    /// Whether each literal of the list is one of the other list.
    pub fn is_within(&self, other: &Lits) -> bool
        ensures { IsTrue result ↔ Within self.now other.now }
    {
        for i in 0..self.len() {
            if !other.contains(self.at(i)) {
                return false;
            }
        }
        true
    }

    /// Whether the list has a literal and its negation.
    pub fn is_closed(&self) -> bool
        ensures { IsTrue result ↔ IsClosedBranch self.now }
    {
        for i in 0..self.len() {
            if self.contains_opposite(self.at(i)) {
                return true;
            }
        }
        false
    }

    /// The literal at a place of the list.
    pub fn at(&self, i: usize) -> &Lit
        requires { i < length self.now }
        ensures { slice_get self.now i ≡ Some result.now }
    {
        &self.items[i]
    }
}
