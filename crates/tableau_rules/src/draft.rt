//! Drafts of alternatives: lists of signed formulas, which have no numbers yet.
ghost use Rattle.std.specs.Prelude.{◌≡◌, ◌<◌, [], ◌∷◌, ◌++◌, length, Some, IfOk, OnOk, OnErr, slice_get, true, false};

use std::alloc::{AllocError, Global};
use std::marker::Model;
use term_bank::Id;

/// A principal of a rule: an atom with its sign.
#[derive(Clone, Copy)]
pub(crate) struct Principal {
    pub atom: Id,
    pub positive: bool,
}

/// The literal of a formula, or its negation.
#[derive(Clone, Copy)]
pub(crate) struct Signed {
    pub formula: Id,
    pub positive: bool,
}

pub(crate) fn holds(formula: Id) -> Signed
    ensures { result ≡ record { formula = formula; positive = true } }
{
    Signed {
        formula,
        positive: true,
    }
}

pub(crate) fn fails(formula: Id) -> Signed
    ensures { result ≡ record { formula = formula; positive = false } }
{
    Signed {
        formula,
        positive: false,
    }
}

/// An alternative.
#[derive(Drop)]
pub(crate) struct Draft {
    items: Vec<Signed>,
}

impl Model for Draft {
    ghost use Rattle.std.specs.Prelude.{List};
    ghost use Rattle.tableau_rules.specs.declared.draft.Signed.{Signed};

    ghost Value = { List Signed };

    ghost view = { λ draft. draft.items.items };
}

impl Draft {
    pub fn new(alloc: Global) -> Draft
        ensures { result ≡ [] }
    {
        Draft {
            items: Vec::new(alloc),
        }
    }

    pub fn push(&mut self, signed: Signed) -> Result<(), AllocError>
        ensures ok { OnOk result (self.new ≡ self.old ++ signed ∷ []) }
        ensures err { OnErr result (self.new ≡ self.old) }
    {
        self.items.push(signed)?;
        Ok(())
    }

    pub fn len(&self) -> usize
        ensures { result ≡ length self.now }
    {
        self.items.len()
    }

    pub fn at(&self, i: usize) -> Signed
        requires { i < length self.now }
        ensures { slice_get self.now i ≡ Some result }
    {
        self.items[i]
    }
}

/// The alternatives of an instance.
#[derive(Drop)]
pub(crate) struct Drafts {
    items: Vec<Draft>,
}

impl Model for Drafts {
    ghost use Rattle.std.specs.Prelude.{List};
    ghost use Rattle.tableau_rules.specs.declared.draft.Signed.{Signed};

    ghost Value = { List (List Signed) };

    ghost view = { λ drafts. drafts.items.items };
}

impl Drafts {
    pub fn new(alloc: Global) -> Drafts
        ensures { result ≡ [] }
    {
        Drafts {
            items: Vec::new(alloc),
        }
    }

    pub fn push(&mut self, draft: Draft) -> Result<(), AllocError>
        ensures ok { OnOk result (self.new ≡ self.old ++ draft ∷ []) }
        ensures err { OnErr result (self.new ≡ self.old) }
    {
        self.items.push(draft)?;
        Ok(())
    }

    pub fn len(&self) -> usize
        ensures { result ≡ length self.now }
    {
        self.items.len()
    }

    pub fn at(&self, i: usize) -> &Draft
        requires { i < length self.now }
        ensures { slice_get self.now i ≡ Some result.now }
    {
        &self.items[i]
    }
}

/// A list of one signed formula.
pub(crate) fn alone(alloc: Global, signed: Signed) -> Result<Draft, AllocError>
    ensures { IfOk result (λ d. d ≡ signed ∷ []) }
{
    let mut draft = Draft::new(alloc);
    draft.push(signed)?;
    Ok(draft)
}

/// One alternative of one signed formula.
pub(crate) fn one(alloc: Global, signed: Signed) -> Result<Drafts, AllocError>
    ensures { IfOk result (λ d. d ≡ (signed ∷ []) ∷ []) }
{
    let mut drafts = Drafts::new(alloc);
    drafts.push(alone(alloc, signed)?)?;
    Ok(drafts)
}

/// Two alternatives of one signed formula each.
pub(crate) fn either(alloc: Global, left: Signed, right: Signed) -> Result<Drafts, AllocError>
    ensures { IfOk result (λ d. d ≡ (left ∷ []) ∷ (right ∷ []) ∷ []) }
{
    let mut drafts = Drafts::new(alloc);
    drafts.push(alone(alloc, left)?)?;
    drafts.push(alone(alloc, right)?)?;
    Ok(drafts)
}

/// Three alternatives of one signed formula each.
pub(crate) fn any_of_three(
    alloc: Global,
    first: Signed,
    second: Signed,
    third: Signed,
) -> Result<Drafts, AllocError>
    ensures { IfOk result (λ d. d ≡ (first ∷ []) ∷ (second ∷ []) ∷ (third ∷ []) ∷ []) }
{
    let mut drafts = either(alloc, first, second)?;
    drafts.push(alone(alloc, third)?)?;
    Ok(drafts)
}

/// One alternative of two signed formulas.
pub(crate) fn both(alloc: Global, left: Signed, right: Signed) -> Result<Drafts, AllocError>
    ensures { IfOk result (λ d. d ≡ (left ∷ right ∷ []) ∷ []) }
{
    let mut draft = alone(alloc, left)?;
    draft.push(right)?;
    let mut drafts = Drafts::new(alloc);
    drafts.push(draft)?;
    Ok(drafts)
}

/// Two alternatives of two signed formulas each.
pub(crate) fn either_both(
    alloc: Global,
    first: (Signed, Signed),
    second: (Signed, Signed),
) -> Result<Drafts, AllocError>
    ensures { IfOk result (λ d. d ≡ (first.0 ∷ first.1 ∷ []) ∷ (second.0 ∷ second.1 ∷ []) ∷ []) }
{
    let mut drafts = both(alloc, first.0, first.1)?;
    let mut draft = alone(alloc, second.0)?;
    draft.push(second.1)?;
    drafts.push(draft)?;
    Ok(drafts)
}
