//! The alternatives of a rule.

ghost use Rattle.std.specs.Prelude.{◌≡◌, ◌<◌, ◌++◌, [], ◌∷◌, length, OnOk, OnErr, IfOk, slice_get};

use std::alloc::{AllocError, Global};
use std::marker::Model;
use tableau_calculus::{Lit, Lits};

/// The alternatives of a rule, each of which is a list of literals.
#[derive(Drop)]
pub struct Alternatives {
    items: Vec<Lits>,
}

impl Model for Alternatives {
    ghost use Rattle.std.specs.Prelude.{List};
    ghost use Rattle.std.specs.Coded.{coded_list};
    ghost use Rattle.tableau_calculus.specs.Literals.{Literal};
    ghost use Rattle.tableau_calculus.specs.Internal.Codes.{literal_code};

    ghost Value = { List (List Literal) };

    ghost coded = { coded_list (coded_list literal_code) };

    ghost view = { λ a. a.items.items };
}

impl Alternatives {
    pub fn new(alloc: Global) -> Alternatives
        ensures { result ≡ [] }
    {
        Alternatives {
            items: Vec::new(alloc),
        }
    }

    pub fn push(&mut self, alternative: Lits) -> Result<(), AllocError>
        ensures ok { OnOk result (self.new ≡ self.old ++ alternative ∷ []) }
        ensures err { OnErr result (self.new ≡ self.old) }
    {
        self.items.push(alternative)?;
        Ok(())
    }

    pub fn len(&self) -> usize
        ensures { result ≡ length self.now }
    {
        self.items.len()
    }

    /// The alternative at a place of the list.
    pub fn at(&self, i: usize) -> &Lits
        requires { i < length self.now }
        ensures { slice_get self.now i ≡ Some result.now }
    {
        &self.items[i]
    }
}

/// A list of one literal.
pub fn alone(alloc: Global, lit: Lit) -> Result<Lits, AllocError>
    ensures { IfOk result (λ ls. ls ≡ lit ∷ []) }
{
    let mut lits = Lits::new(alloc);
    lits.push(lit)?;
    Ok(lits)
}

/// One alternative of one literal.
pub fn one(alloc: Global, lit: Lit) -> Result<Alternatives, AllocError>
    ensures { IfOk result (λ a. a ≡ (lit ∷ []) ∷ []) }
{
    let mut alternatives = Alternatives::new(alloc);
    alternatives.push(alone(alloc, lit)?)?;
    Ok(alternatives)
}

/// Two alternatives of one literal each.
pub fn either(alloc: Global, left: Lit, right: Lit) -> Result<Alternatives, AllocError>
    ensures { IfOk result (λ a. a ≡ (left ∷ []) ∷ (right ∷ []) ∷ []) }
{
    let mut alternatives = Alternatives::new(alloc);
    alternatives.push(alone(alloc, left)?)?;
    alternatives.push(alone(alloc, right)?)?;
    Ok(alternatives)
}

/// Three alternatives of one literal each.
pub fn any_of_three(
    alloc: Global,
    first: Lit,
    second: Lit,
    third: Lit,
) -> Result<Alternatives, AllocError>
    ensures { IfOk result (λ a. a ≡ (first ∷ []) ∷ (second ∷ []) ∷ (third ∷ []) ∷ []) }
{
    let mut alternatives = either(alloc, first, second)?;
    alternatives.push(alone(alloc, third)?)?;
    Ok(alternatives)
}

/// One alternative of two literals.
pub fn both(alloc: Global, left: Lit, right: Lit) -> Result<Alternatives, AllocError>
    ensures { IfOk result (λ a. a ≡ (left ∷ right ∷ []) ∷ []) }
{
    let mut lits = alone(alloc, left)?;
    lits.push(right)?;
    let mut alternatives = Alternatives::new(alloc);
    alternatives.push(lits)?;
    Ok(alternatives)
}

/// Two alternatives of two literals each.
pub fn either_both(
    alloc: Global,
    first: (Lit, Lit),
    second: (Lit, Lit),
) -> Result<Alternatives, AllocError>
    ensures { IfOk result (λ a. a ≡ (first.0 ∷ first.1 ∷ []) ∷ (second.0 ∷ second.1 ∷ []) ∷ []) }
{
    let mut alternatives = both(alloc, first.0, first.1)?;
    let mut lits = alone(alloc, second.0)?;
    lits.push(second.1)?;
    alternatives.push(lits)?;
    Ok(alternatives)
}
