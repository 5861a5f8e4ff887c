//! Values that make clauses true, and how few of them are changed when a clause is added.
ghost use Rattle.std.specs.Prelude.{◌≡◌, ◌≢◌, ◌<◌, ◌≤◌, ◌+◌, [], ℕ, List, Bool, IsTrue, true, false, Some, length, slice_get, IfOk, OnOk, OnErr, IfSome, IfNone};
ghost use Rattle.sat_base.specs.declared.literal.Var.{Var};
ghost use Rattle.sat_base.specs.declared.literal.SatLit.{SatLit};
ghost use Rattle.sat_base.specs.Literal.{holds, IsOver};
ghost use Rattle.sat_base.specs.Truth.{AllTrue, assigned, clause_value};
ghost use Rattle.sat_core.specs.Internal.Learner.{AreOver};
ghost use Rattle.sat_core.specs.Internal.Uses.{IsUse};
ghost use Rattle.sat_core.specs.Internal.Keeper.{IsUsedIn, AreUsed, AreTrue, AreTrueBut, IsKeeper};

use crate::uses::Uses;
use sat_base::{ClauseStore, SatLit, Var};
use sat_propagate::Trail;
use std::alloc::{AllocError, Global};

// How many values are changed for one clause before it is left to the search.
const MOST_CHANGES: usize = 64;

/// A value for each variable: so many clauses are in the table of uses, and so many are true.
#[derive(Drop)]
pub struct Keeper {
    alloc: Global,
    pub values: Vec<bool>,
    pub uses: Uses,
    pub listed: usize,
    pub kept: usize,
}

impl Keeper {
    pub fn new(alloc: Global) -> Self
        ensures keeper { IsKeeper result.values.items result.uses result.listed result.kept [] }
        ensures values { result.values.items ≡ [] }
    {
        Keeper {
            alloc,
            values: Vec::new(alloc),
            uses: Uses::new(alloc),
            listed: 0,
            kept: 0,
        }
    }

    /// Tries to make all clauses true, those that are not yet by a few changes each. Whether they are.
    pub fn satisfy(&mut self, clauses: &ClauseStore) -> Result<bool, AllocError>
        requires keeper { IsKeeper self.old.values.items self.old.uses self.old.listed self.old.kept clauses.now }
        requires over { AreOver (length self.old.values.items) clauses.now }
        ensures keeper { IsKeeper self.new.values.items self.new.uses self.new.listed self.new.kept clauses.now }
        ensures made { length self.new.values.items ≡ length self.old.values.items }
        ensures listed { OnOk result (self.new.listed ≡ length clauses.now) }
        ensures satisfied { IfOk result (λ r. r ≡ true → AllTrue (assigned self.new.values.items) clauses.now) }
        ensures kept { IfOk result (λ r. r ≡ true → self.new.kept ≡ length clauses.now) }
        ensures short { IfOk result (λ r. r ≡ false → self.new.kept < length clauses.now) }
        ensures err_values { OnErr result (self.new.values.items ≡ self.old.values.items) }
        ensures err_kept { OnErr result (self.new.kept ≡ self.old.kept) }
    {
        self.list_all(clauses)?;
        let count = clauses.len();
        while self.kept < count {
            let kept = self.kept;
            self.kept = kept_after(&mut self.values, &self.uses, clauses, kept, kept + 1);
            if self.kept <= kept {
                return Ok(false);
            }
        }
        Ok(true)
    }

    fn list_all(&mut self, clauses: &ClauseStore) -> Result<(), AllocError>
        requires keeper { IsKeeper self.old.values.items self.old.uses self.old.listed self.old.kept clauses.now }
        requires over { AreOver (length self.old.values.items) clauses.now }
        ensures keeper { IsKeeper self.new.values.items self.new.uses self.new.listed self.new.kept clauses.now }
        ensures values { self.new.values.items ≡ self.old.values.items }
        ensures kept { self.new.kept ≡ self.old.kept }
        ensures listed { OnOk result (self.new.listed ≡ length clauses.now) }
    {
        while self.listed < clauses.len() {
            let n = self.listed;
            list(&mut self.uses, clauses.get(n).as_slice(), n)?;
            self.listed += 1;
        }
        Ok(())
    }

    /// Takes the values of a search, which make all clauses true.
    pub fn adopt(&mut self, clauses: &ClauseStore, trail: &Trail) -> Result<(), AllocError>
        requires keeper { IsKeeper self.old.values.items self.old.uses self.old.listed self.old.kept clauses.now }
        requires listed { self.old.listed ≡ length clauses.now }
        requires made { length self.old.values.items ≡ length trail.now.phases }
        requires satisfied { AllTrue (assigned trail.now.phases) clauses.now }
        ensures keeper { IsKeeper self.new.values.items self.new.uses self.new.listed self.new.kept clauses.now }
        ensures made { length self.new.values.items ≡ length self.old.values.items }
        ensures values { OnOk result (self.new.values.items ≡ trail.now.phases) }
        ensures kept { OnOk result (self.new.kept ≡ self.old.listed) }
        ensures listed { self.new.listed ≡ self.old.listed }
        ensures uses { self.new.uses ≡ self.old.uses }
        ensures err_values { OnErr result (self.new.values.items ≡ self.old.values.items) }
        ensures err_kept { OnErr result (self.new.kept ≡ self.old.kept) }
    {
        self.values = phases(self.alloc, trail)?;
        self.kept = self.listed;
        Ok(())
    }
}

fn phases(alloc: Global, trail: &Trail) -> Result<Vec<bool>, AllocError>
    ensures { IfOk result (λ values. values.items ≡ trail.now.phases) }
{
    let mut values = Vec::new(alloc);
    for v in 0..trail.variables() {
        values.push(trail.phase(Var(v)))?;
    }
    Ok(values)
}

/// Enters a clause's number for each of its variables.
fn list(uses: &mut Uses, among: &[SatLit], n: usize) -> Result<(), AllocError>
    requires over { IsOver (length uses.old.ends) among.now }
    ensures made { length uses.new.ends ≡ length uses.old.ends }
    ensures before { (v : Var) (k : ℕ) → IsUse uses.old v k → IsUse uses.new v k }
    ensures listed { OnOk result (IsUsedIn uses.new n among.now) }
{
    for literal in among {
        uses.push(literal.var, n)?;
    }
    Ok(())
}

/// How many of the first clauses are true after a few changes, where so many were: one more, if all goes well.
fn kept_after(
    values: &mut [bool],
    uses: &Uses,
    clauses: &ClauseStore,
    kept: usize,
    bound: usize,
) -> usize
    requires over { AreOver (length values.old) clauses.now }
    requires next { bound ≡ kept + 1 }
    requires within { bound ≤ length clauses.now }
    requires used { AreUsed uses.now bound clauses.now }
    requires made { length values.old ≤ length uses.now.ends }
    requires kept { AreTrue values.old kept clauses.now }
    ensures made { length values.new ≡ length values.old }
    ensures within { result ≤ bound }
    ensures kept { AreTrue values.new result clauses.now }
{
    let mut n = kept;
    for round in 0..MOST_CHANGES {
        if is_true(values, clauses.get(n).as_slice()) {
            return bound;
        }
        match change(values, uses, clauses, n, bound, round) {
            Some(next) => n = next,
            None => return n,
        }
    }
    n
}

/// Makes a clause true by a change that makes none of the first clauses false, or else one, if there is such a change.
/// The one that is false then, or else the clause itself.
fn change(
    values: &mut [bool],
    uses: &Uses,
    clauses: &ClauseStore,
    n: usize,
    bound: usize,
    from: usize,
) -> Option<usize>
    requires over { AreOver (length values.old) clauses.now }
    requires inside { n < bound }
    requires within { bound ≤ length clauses.now }
    requires used { AreUsed uses.now bound clauses.now }
    requires made { length values.old ≤ length uses.now.ends }
    requires but { AreTrueBut values.old n bound clauses.now }
    ensures made { length values.new ≡ length values.old }
    ensures some { IfSome result (λ next. (next < bound) × AreTrueBut values.new next bound clauses.now) }
    ensures none { IfNone result (values.new ≡ values.old) }
{
    if let Some(next) = turn_first(values, uses, clauses, n, bound, false, from) {
        return Some(next);
    }
    turn_first(values, uses, clauses, n, bound, true, from)
}

/// Makes the first literal of a clause true for which `turn` can do so, where they are tried in turn from one on.
fn turn_first(
    values: &mut [bool],
    uses: &Uses,
    clauses: &ClauseStore,
    n: usize,
    bound: usize,
    may_break: bool,
    from: usize,
) -> Option<usize>
    requires over { AreOver (length values.old) clauses.now }
    requires inside { n < bound }
    requires within { bound ≤ length clauses.now }
    requires used { AreUsed uses.now bound clauses.now }
    requires made { length values.old ≤ length uses.now.ends }
    requires but { AreTrueBut values.old n bound clauses.now }
    ensures made { length values.new ≡ length values.old }
    ensures some { IfSome result (λ next. (next < bound) × AreTrueBut values.new next bound clauses.now) }
    ensures none { IfNone result (values.new ≡ values.old) }
{
    let literals = clauses.get(n).as_slice();
    for i in 0..literals.len() {
        let literal = literals[from.wrapping_add(i) % literals.len()];
        if let Some(next) = turn(values, uses, clauses, literal, n, bound, may_break) {
            return Some(next);
        }
    }
    None
}

/// Makes one literal of a clause true, if this makes none of the first clauses false, or, where it may, at most one.
fn turn(
    values: &mut [bool],
    uses: &Uses,
    clauses: &ClauseStore,
    literal: SatLit,
    n: usize,
    bound: usize,
    may_break: bool,
) -> Option<usize>
    requires over { AreOver (length values.old) clauses.now }
    requires inside { n < bound }
    requires within { bound ≤ length clauses.now }
    requires used { AreUsed uses.now bound clauses.now }
    requires made { length values.old ≤ length uses.now.ends }
    requires valued { literal.var.0 < length values.old }
    requires member { (clause : List SatLit) → slice_get clauses.now n ≡ Some clause → IsTrue (holds clause literal) }
    requires but { AreTrueBut values.old n bound clauses.now }
    ensures made { length values.new ≡ length values.old }
    ensures some { IfSome result (λ next. (next < bound) × AreTrueBut values.new next bound clauses.now) }
    ensures none { IfNone result (values.new ≡ values.old) }
{
    let before = values[literal.var.0];
    values[literal.var.0] = literal.positive;
    let next = only_false(values, uses, literal.var, clauses, n, bound, may_break);
    if next.is_none() {
        values[literal.var.0] = before;
    }
    next
}

/// Which of the first clauses in which a variable occurs is false, beside number `n`: this one where none is. None where
/// several are, or one that may not be.
fn only_false(
    values: &[bool],
    uses: &Uses,
    var: Var,
    clauses: &ClauseStore,
    n: usize,
    bound: usize,
    may_break: bool,
) -> Option<usize>
    requires over { AreOver (length values.now) clauses.now }
    requires inside { n < bound }
    requires within { bound ≤ length clauses.now }
    requires made { var.0 < length uses.now.ends }
    ensures inside { IfSome result (λ next. next < bound) }
    ensures others { IfSome result (λ next. (k : ℕ) (clause : List SatLit) → IsUse uses.now var k → k < bound → k ≢ next → k ≢ n
        → slice_get clauses.now k ≡ Some clause → IsTrue (clause_value (assigned values.now) clause)) }
{
    let mut found = n;
    let mut place = uses.first(var);
    while let Some(entry) = uses.at(place) {
        let k = entry.clause as usize;
        if k != found && is_false_below(values, clauses, k, bound) {
            if !may_break || found != n {
                return None;
            }
            found = k;
        }
        place = entry.next;
    }
    Some(found)
}

fn is_false_below(values: &[bool], clauses: &ClauseStore, k: usize, bound: usize) -> bool
    requires over { AreOver (length values.now) clauses.now }
    requires within { bound ≤ length clauses.now }
    ensures inside { IsTrue result → k < bound }
    ensures kept { result ≡ false → k < bound → (clause : List SatLit) → slice_get clauses.now k ≡ Some clause
        → IsTrue (clause_value (assigned values.now) clause) }
{
    k < bound && !is_true(values, clauses.get(k).as_slice())
}

/// Whether some literal is true.
fn is_true(values: &[bool], among: &[SatLit]) -> bool
    requires { IsOver (length values.now) among.now }
    ensures { result ≡ clause_value (assigned values.now) among.now }
{
    for literal in among {
        if values[literal.var.0] == literal.positive {
            return true;
        }
    }
    false
}
