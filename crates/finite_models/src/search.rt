//! The search through lists of values, in their order.

ghost use Rattle.std.specs.Prelude.{◌≡◌, ◌<◌, ◌≤◌, ◌^◌, ◌++◌, ◌∷◌, ℕ, List, [], length, slice_index, slice_get, Some, OnOk, OnErr, IsTrue, ◌↔◌, MatchOption, MatchBool, IfOk};
ghost use Rattle.finite_models.specs.Internal.Worth.{worth, the_values};
ghost use Rattle.finite_models.specs.Internal.Search.{IsAllowed, AreAllowed, AreFilled, AreFewValues, AreLeastFrom, PassesAll, AreReady, AllArePassed, FailsWithin, NoListPasses, IsNext, IsFirstPassing, reach_of};

use crate::expr::{Env, Expr, eval};
use std::alloc::{AllocError, Global};
use std::marker::Model;

/// A formula, what it is to be worth, and how many of the first symbols have all that occur in it.
#[derive(Drop)]
pub struct Check {
    pub expr: Expr,
    pub wanted: u32,
    pub reach: usize,
}

/// For each place of a list of values, which numbers may stand there.
#[derive(Drop)]
pub struct Domains {
    items: Vec<Vec<bool>>,
}

impl Model for Domains {
    ghost use Rattle.std.specs.Prelude.{List, Bool, map};

    ghost Value = { List (List Bool) };

    ghost view = { λ a. map (λ d. d.items) a.items.items };
}

impl Domains {
    pub fn new(alloc: Global) -> Domains
        ensures { result ≡ [] }
    {
        Domains {
            items: Vec::new(alloc),
        }
    }

    pub fn push(&mut self, allowed: Vec<bool>) -> Result<(), AllocError>
        ensures ok { OnOk result (self.new ≡ self.old ++ allowed.items ∷ []) }
        ensures err { OnErr result (self.new ≡ self.old) }
    {
        self.items.push(allowed)?;
        Ok(())
    }

    pub fn len(&self) -> usize
        ensures { result ≡ length self.now }
    {
        self.items.len()
    }

    /// Which numbers may stand at a place.
    pub fn at(&self, i: usize) -> &[bool]
        requires { i < length self.now }
        ensures { slice_get self.now i ≡ Some result.now }
    {
        self.items[i].as_slice()
    }
}

/// The least allowed value from `from` on, or the number of values where there is none.
fn next_allowed(allowed: &[bool], from: usize) -> usize
    requires { from ≤ length allowed.now }
    ensures within { result ≤ length allowed.now }
    ensures from { from ≤ result }
    ensures before { (v : ℕ) → from ≤ v → v < result → IsAllowed allowed.now v → ⊥ }
    ensures found { result < length allowed.now → IsAllowed allowed.now result }
{
    for v in from..allowed.len() {
        if allowed[v] {
            return v;
        }
    }
    allowed.len()
}

/// Whether each place has an allowed value.
fn are_filled(domains: &Domains) -> bool
    ensures { IsTrue result ↔ AreFilled domains.now }
{
    for i in 0..domains.len() {
        let allowed = domains.at(i);
        if next_allowed(allowed, 0) == allowed.len() {
            return false;
        }
    }
    true
}

/// Sets the values from a place on to the least allowed ones.
fn reset(domains: &Domains, values: &mut [u32], from: usize)
    requires filled { AreFilled domains.now }
    requires few { AreFewValues domains.now }
    requires count { length values.old ≡ length domains.now }
    ensures count { length values.new ≡ length domains.now }
    ensures front { (j : ℕ) → j < from → slice_index values.new j ≡ slice_index values.old j }
    ensures least { AreLeastFrom from domains.now values.new }
{
    for i in from..values.len() {
        values[i] = next_allowed(domains.at(i), 0) as u32;
    }
}

/// Goes on to the next list of allowed values after all those that are the same as this one up to the reach, or tells that there is none.
fn advance(domains: &Domains, values: &mut [u32], reach: usize) -> bool
    requires few { AreFewValues domains.now }
    requires allowed { AreAllowed domains.now values.old }
    ensures { MatchBool result (IsNext domains.now reach values.old values.new) (AllArePassed domains.now reach values.old) }
{
    let mut i = reach.min(values.len());
    while i > 0 {
        i -= 1;
        let from = values[i] as usize + 1;
        let allowed = domains.at(i);
        let next = next_allowed(allowed, from);
        if next < allowed.len() {
            values[i] = next as u32;
            reset(domains, values, i + 1);
            return true;
        }
    }
    false
}

/// How many of the first symbols have all that occur in an expression.
pub fn reach(expr: &Expr) -> usize
    ensures { result ≡ reach_of expr.now }
{
    match expr {
        Expr::Bound(_) => 0,
        Expr::Symbol(i) => *i as usize + 1,
        Expr::False => 0,
        Expr::Not(e) => reach(e),
        Expr::Imp(a, b) => reach(a).max(reach(b)),
        Expr::All(_, e) => reach(e),
        Expr::Eq(a, b) => reach(a).max(reach(b)),
        Expr::Apply(_, f, x) => reach(f).max(reach(x)),
        Expr::Table(_, _, e) => reach(e),
        Expr::Repeat(_, e) => reach(e),
        Expr::Whole(_, e) => reach(e),
    }
}

/// The reach of the first formula that isn't worth what it is to be, or none where each is.
fn failing(checks: &[Check], values: &[u32]) -> Option<usize>
    requires { AreReady checks.now values.now }
    ensures { MatchOption result (PassesAll checks.now values.now) (FailsWithin checks.now values.now) }
{
    for i in 0..checks.len() {
        let check = &checks[i];
        if eval(&check.expr, values, &Env::Empty) != check.wanted {
            return Some(check.reach);
        }
    }
    None
}

/// Sets the values to the first list of allowed values that passes, or tells that none does.
fn search_on(domains: &Domains, checks: &[Check], values: &mut [u32]) -> bool
    requires few { AreFewValues domains.now }
    requires filled { AreFilled domains.now }
    requires count { length values.old ≡ length domains.now }
    requires ready { (vs : List ℕ) → AreAllowed domains.now vs → AreReady checks.now vs }
    ensures { MatchBool result (IsFirstPassing domains.now checks.now values.new) (NoListPasses domains.now checks.now) }
{
    reset(domains, values, 0);
    loop {
        match failing(checks, values) {
            None => return true,
            Some(reach) => {
                if !advance(domains, values, reach) {
                    return false;
                }
            }
        }
    }
}

/// The first list of allowed values that passes, or none where none does.
fn first_passing(
    alloc: Global,
    domains: &Domains,
    checks: &[Check],
) -> Result<Option<Vec<u32>>, AllocError>
    requires few { AreFewValues domains.now }
    requires ready { (vs : List ℕ) → AreAllowed domains.now vs → AreReady checks.now vs }
    ensures { IfOk result (λ o. MatchOption o (NoListPasses domains.now checks.now) (λ v. IsFirstPassing domains.now checks.now v.items)) }
{
    if !are_filled(domains) {
        return Ok(None);
    }
    let mut values = vec![in alloc; 0u32; domains.len()]?;
    if search_on(domains, checks, &mut values) {
        Ok(Some(values))
    } else {
        Ok(None)
    }
}

/// The same, where the formulas of the least reach are looked at first, so that more lists are passed over.
pub fn first_sorted(
    alloc: Global,
    domains: &Domains,
    checks: Vec<Check>,
) -> Result<Option<Vec<u32>>, AllocError>
    requires few { AreFewValues domains.now }
    requires ready { (vs : List ℕ) → AreAllowed domains.now vs → AreReady checks.items vs }
    ensures { IfOk result (λ o. MatchOption o (NoListPasses domains.now checks.items)
        (λ v. IsFirstPassing domains.now checks.items v.items)) }
{
    let mut sorted = checks;
    sorted.sort_unstable_by_key(|check| check.reach);
    let found = first_passing(alloc, domains, &sorted)?;
    match found {
        None => Ok(None),
        Some(values) => Ok(Some(values)),
    }
}
