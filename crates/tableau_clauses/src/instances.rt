//! Instances with their literals in one piece.
ghost use Rattle.std.specs.Prelude.{◌≡◌, ◌<◌, ◌+◌, ◌≤◌, List, [], ◌∷◌, ◌++◌, length, drop, Some, slice_get, IfOk, OnOk, OnErr};
ghost use Rattle.sat_base.specs.declared.literal.SatLit.{SatLit};
ghost use Rattle.tableau_clauses.specs.Internal.Spans.{piece_of};

use crate::lists::{PackedLists, narrow};
use literal_map::{BankUse, Instance, LitLists};
use sat_propagate::Packed;
use std::alloc::{AllocError, Global};
use std::marker::Model;
use tableau_calculus::RuleUse;
use term_bank::Id;

type PackedUse = RuleUse<Packed, Id, Packed>;

/// The use of a rule, and where its lists stand: first that of its principals, then its alternatives.
#[derive(Drop)]
pub(crate) struct PackedInstance {
    pub(crate) by: PackedUse,
    pub(crate) start: u32,
    pub(crate) len: u32,
}

/// Instances by their numbers.
#[derive(Drop)]
pub(crate) struct Instances {
    instances: Vec<PackedInstance>,
    lists: PackedLists,
    alloc: Global,
}

impl Model for Instances {
    ghost use Rattle.std.specs.Prelude.{List};
    ghost use Rattle.literal_map.specs.declared.instance.Instance.{Instance};
    ghost use Rattle.tableau_clauses.specs.Internal.Spans.{all_unpacked, HaveLists};

    ghost Value = { List Instance };

    ghost view = { λ t. all_unpacked t.lists t.instances.items };

    ghost invariant = { λ t. HaveLists t.lists t.instances.items };
}

/// The use with its literals in four bytes.
fn packed(by: &BankUse) -> Result<PackedUse, AllocError>
    ensures { IfOk result (λ p. p ≡ by.now) }
{
    match by {
        RuleUse::AtOne(rule, lit) => Ok(RuleUse::AtOne(*rule, Packed::of(*lit)?)),
        RuleUse::AtTwo(rule, first, second) => Ok(RuleUse::AtTwo(
            *rule,
            Packed::of(*first)?,
            Packed::of(*second)?,
        )),
        RuleUse::AllPos(lit, term) => Ok(RuleUse::AllPos(Packed::of(*lit)?, *term)),
        RuleUse::WithPredicate(rule, term) => Ok(RuleUse::WithPredicate(*rule, *term)),
        RuleUse::Cut(lit) => Ok(RuleUse::Cut(Packed::of(*lit)?)),
    }
}

/// The use with its literals.
fn unpacked(by: &PackedUse) -> BankUse
    ensures { result ≡ by.now }
{
    match by {
        RuleUse::AtOne(rule, lit) => RuleUse::AtOne(*rule, lit.literal()),
        RuleUse::AtTwo(rule, first, second) => {
            RuleUse::AtTwo(*rule, first.literal(), second.literal())
        }
        RuleUse::AllPos(lit, term) => RuleUse::AllPos(lit.literal(), *term),
        RuleUse::WithPredicate(rule, term) => RuleUse::WithPredicate(*rule, *term),
        RuleUse::Cut(lit) => RuleUse::Cut(lit.literal()),
    }
}

/// Appends the lists of an instance.
fn append_lists(lists: &mut PackedLists, instance: &Instance) -> Result<(), AllocError>
    ensures ok { OnOk result (lists.new ≡ lists.old ++ instance.now.principals ∷ instance.now.alternatives) }
    ensures longer { (rest : List (List SatLit)) × (lists.new ≡ lists.old ++ rest) }
{
    lists.push(instance.principals.as_slice())?;
    for alternative in instance.alternatives.as_slice() {
        lists.push(alternative.as_slice())?;
    }
    Ok(())
}

#[tactic(auto, using(crate::proofs::SpanLaws::rest_next))]
/// Copies of the lists behind one, where with it there are so many.
fn lists_behind(
    alloc: Global,
    lists: &PackedLists,
    start: u32,
    len: u32,
) -> Result<LitLists, AllocError>
    requires within { start + len ≤ length lists.now }
    requires some { 0 < len }
    ensures { IfOk result (λ found. found ≡ drop 1 (piece_of lists.now start len)) }
{
    let mut found = LitLists::new(alloc);
    for i in 1..len as usize {
        found.push(lists.get(alloc, start as usize + i)?)?;
    }
    Ok(found)
}

impl Instances {
    pub(crate) fn new(alloc: Global) -> Instances
        ensures { result ≡ [] }
    {
        Instances {
            instances: Vec::new(alloc),
            lists: PackedLists::new(alloc),
            alloc,
        }
    }

    pub(crate) fn len(&self) -> usize
        ensures { result ≡ length self.now }
    {
        self.instances.len()
    }

    /// Appends an instance.
    pub(crate) fn push(&mut self, instance: &Instance) -> Result<(), AllocError>
        ensures ok { OnOk result (self.new ≡ self.old ++ instance.now ∷ []) }
        ensures err { OnErr result (self.new ≡ self.old) }
    {
        let by = packed(&instance.by)?;
        let start = narrow(self.lists.len())?;
        append_lists(&mut self.lists, instance)?;
        let len = narrow(self.lists.len())? - start;
        self.instances.push(PackedInstance { by, start, len })?;
        Ok(())
    }

    /// A copy of the instance with this number.
    pub(crate) fn get(&self, k: usize) -> Result<Instance, AllocError>
        requires { k < length self.now }
        ensures { IfOk result (λ i. slice_get self.now k ≡ Some i) }
    {
        let found = &self.instances[k];
        let by = unpacked(&found.by);
        let principals = self.lists.get(self.alloc, found.start as usize)?;
        let alternatives = lists_behind(self.alloc, &self.lists, found.start, found.len)?;
        Ok(Instance {
            by,
            principals,
            alternatives,
        })
    }
}
