//! Literals whose atoms are shared.

ghost use Rattle.std.specs.Prelude.{◌≡◌, ◌<◌, ◌++◌, [], ◌∷◌, length, OnOk, OnErr, slice_get, Some};
ghost use Rattle.tableau_calculus.specs.Literals.{Literal};

use crate::term::SharedTerm;
use std::alloc::{AllocError, Global};
use std::marker::Model;
use std::rc::Rc;

/// A formula with a sign. Its head isn't negation, which the sign stands for.
#[derive(Drop)]
pub struct SharedLit {
    pub positive: bool,
    pub atom: Rc<SharedTerm>,
}

impl Model for SharedLit {
    ghost use Rattle.std.specs.Prelude.{◌≡◌, false};
    ghost use Rattle.tableau_calculus.specs.Literals.{Literal, is_negated};
    ghost use Rattle.tableau_calculus.specs.Internal.Codes.{literal_code};

    ghost Value = { Literal };

    ghost coded = { literal_code };

    ghost view = { λ l. record { positive = l.positive; atom = l.atom.value } };

    ghost invariant = { λ l. is_negated l.atom.value ≡ false };
}

/// A list of literals, as the branch of a line. Lists share their literals.
#[derive(Drop)]
pub struct SharedLits {
    items: Vec<Rc<SharedLit>>,
    alloc: Global,
}

impl Model for SharedLits {
    ghost use Rattle.std.specs.Prelude.{List, map};
    ghost use Rattle.std.specs.Coded.{coded_list};
    ghost use Rattle.tableau_calculus.specs.Literals.{Literal};
    ghost use Rattle.tableau_calculus.specs.Internal.Codes.{literal_code};

    ghost Value = { List Literal };

    ghost coded = { coded_list literal_code };

    ghost view = { λ a. map (λ l. l.value) a.items.items };
}

impl SharedLits {
    pub fn new(alloc: Global) -> SharedLits
        ensures { result ≡ [] }
    {
        SharedLits {
            items: Vec::new(alloc),
            alloc,
        }
    }

    /// Takes room for so many literals and no more, where the list is to have just these.
    pub fn reserve_exact(&mut self, count: usize) -> Result<(), AllocError>
        ensures { self.new ≡ self.old }
    {
        self.items.reserve_exact(count)?;
        Ok(())
    }

    pub fn push(&mut self, lit: SharedLit) -> Result<(), AllocError>
        ensures ok { OnOk result (self.new ≡ self.old ++ lit ∷ []) }
        ensures err { OnErr result (self.new ≡ self.old) }
    {
        let shared = Rc::new(self.alloc, lit)?;
        self.items.push(shared)?;
        Ok(())
    }

    /// Appends the literal at a place of another list, which shares it from then on.
    pub fn share(&mut self, other: &SharedLits, i: usize) -> Result<(), AllocError>
        requires { i < length other.now }
        ensures ok { OnOk result ((lit : Literal) → slice_get other.now i ≡ Some lit → self.new ≡ self.old ++ lit ∷ []) }
        ensures err { OnErr result (self.new ≡ self.old) }
    {
        let shared = Rc::clone(&other.items[i])?;
        self.items.push(shared)?;
        Ok(())
    }

    pub fn len(&self) -> usize
        ensures { result ≡ length self.now }
    {
        self.items.len()
    }

    /// The literal at a place of the list.
    pub fn at(&self, i: usize) -> &SharedLit
        requires { i < length self.now }
        ensures { slice_get self.now i ≡ Some result.now }
    {
        &self.items[i]
    }
}
