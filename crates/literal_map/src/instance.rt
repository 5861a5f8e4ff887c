//! Rules with what they take, by numbers, and their instances.
ghost use Rattle.std.specs.Prelude.{◌≡◌, ◌<◌, [], ◌∷◌, ◌++◌, length, Some, OnOk, OnErr, slice_get};

use sat_base::SatLit;
use std::alloc::{AllocError, Global};
use std::marker::Model;
use tableau_calculus::RuleUse;
use term_bank::Id;

/// A rule with its principals in their order, the term that it takes, or the literal of a cut.
pub type BankUse = RuleUse<SatLit, Id, SatLit>;

/// A list of literals.
#[derive(Drop)]
pub struct LitList {
    items: Vec<SatLit>,
}

impl Model for LitList {
    ghost use Rattle.std.specs.Prelude.{List};
    ghost use Rattle.sat_base.specs.declared.literal.SatLit.{SatLit};

    ghost Value = { List SatLit };

    ghost view = { λ list. list.items.items };
}

impl LitList {
    pub fn new(alloc: Global) -> LitList
        ensures { result ≡ [] }
    {
        LitList {
            items: Vec::new(alloc),
        }
    }

    pub fn push(&mut self, lit: SatLit) -> Result<(), AllocError>
        ensures ok { OnOk result (self.new ≡ self.old ++ lit ∷ []) }
        ensures err { OnErr result (self.new ≡ self.old) }
    {
        self.items.push(lit)?;
        Ok(())
    }

    pub fn len(&self) -> usize
        ensures { result ≡ length self.now }
    {
        self.items.len()
    }

    pub fn as_slice(&self) -> &[SatLit]
        ensures { result.now ≡ self.now }
    {
        self.items.as_slice()
    }

    /// The literal at a place of the list.
    pub fn at(&self, i: usize) -> SatLit
        requires { i < length self.now }
        ensures { slice_get self.now i ≡ Some result }
    {
        self.items[i]
    }
}

/// A list of lists of literals.
#[derive(Drop)]
pub struct LitLists {
    items: Vec<LitList>,
}

impl Model for LitLists {
    ghost use Rattle.std.specs.Prelude.{List};
    ghost use Rattle.sat_base.specs.declared.literal.SatLit.{SatLit};

    ghost Value = { List (List SatLit) };

    ghost view = { λ list. list.items.items };
}

impl LitLists {
    pub fn new(alloc: Global) -> LitLists
        ensures { result ≡ [] }
    {
        LitLists {
            items: Vec::new(alloc),
        }
    }

    pub fn push(&mut self, list: LitList) -> Result<(), AllocError>
        ensures ok { OnOk result (self.new ≡ self.old ++ list ∷ []) }
        ensures err { OnErr result (self.new ≡ self.old) }
    {
        self.items.push(list)?;
        Ok(())
    }

    pub fn len(&self) -> usize
        ensures { result ≡ length self.now }
    {
        self.items.len()
    }

    pub fn as_slice(&self) -> &[LitList]
        ensures { result.now ≡ self.now }
    {
        self.items.as_slice()
    }

    /// The list at a place of the list.
    pub fn at(&self, i: usize) -> &LitList
        requires { i < length self.now }
        ensures { slice_get self.now i ≡ Some result.now }
    {
        &self.items[i]
    }
}

/// An instance of a rule: its principals and its alternatives.
#[derive(Drop)]
pub struct Instance {
    pub by: BankUse,
    pub principals: LitList,
    pub alternatives: LitLists,
}
