//! The branch of a walk, with the instances that are due on it.
ghost use Rattle.std.specs.Prelude.{◌≡◌, ◌<◌, ◌≤◌, ◌++◌, ◌⊎◌, ℕ, false, [], ◌∷◌, length, take, Some, None, slice_get, slice_index_or, Contains, IfOk, OnOk, IfSome, IfNone};
ghost use Rattle.std.specs.List.{All, list_any, position_or_len};
ghost use Rattle.sat_base.specs.declared.literal.SatLit.{SatLit};
ghost use Rattle.sat_base.specs.Literal.{holds};
ghost use Rattle.tableau_calculus.specs.Kinds.{added};
ghost use Rattle.search_spec.specs.Numbered.{numbers};
ghost use Rattle.tableau_clauses.specs.Table.{the_instances};
ghost use Rattle.plain_tableau.specs.Expansion.{has_all, first_clash};
ghost use Rattle.plain_tableau.specs.Internal.Due.{is_due_at, is_due_place, clashes, AreDue, IsInside, AreNotedByVariable, ArePlacesOfUsed, AreLiteralsOver, IsPath};

use crate::due::Due;
use crate::noting::{no_places, note};
use crate::places::Places;
use indexmap::IndexSet;
use literal_map::LitList;
use sat_base::SatLit;
use std::alloc::{AllocError, Global};
use tableau_clauses::StepTable;

/// Whether the branch holds all of the literals.
fn holds_all(branch: &IndexSet<SatLit>, lits: &[SatLit]) -> bool
    ensures { result ≡ has_all numbers branch.now.keys lits.now }
{
    for i in 0..lits.len() {
        if !branch.contains(&lits[i]) {
            return false;
        }
    }
    true
}

/// Whether the branch holds all literals of one of the lists.
fn holds_one(branch: &IndexSet<SatLit>, lists: &[LitList]) -> bool
    ensures { result ≡ list_any (has_all numbers branch.now.keys) lists.now }
{
    for i in 0..lists.len() {
        if holds_all(branch, lists[i].as_slice()) {
            return true;
        }
    }
    false
}

/// Whether the instance with a number is due on the branch.
fn is_due(steps: &StepTable, branch: &IndexSet<SatLit>, k: usize) -> Result<bool, AllocError>
    requires { k < length (the_instances steps.now) }
    ensures { IfOk result (λ b. b ≡ is_due_at steps.now branch.now.keys k) }
{
    let instance = steps.instance(k)?;
    let is_due = holds_all(branch, instance.principals.as_slice())
        && !holds_one(branch, instance.alternatives.as_slice());
    Ok(is_due)
}

/// Puts the places of instances in, or takes them out, by whether these are due on the branch.
fn refresh(
    steps: &StepTable,
    used: &[usize],
    branch: &IndexSet<SatLit>,
    places: &[usize],
    due: &mut Due,
) -> Result<(), AllocError>
    requires within { All (λ k. k < length (the_instances steps.now)) used.now }
    requires places { All (λ u. u < length used.now) places.now }
    ensures right { OnOk result ((u k : ℕ) → slice_get used.now u ≡ Some k → (Contains places.now u) ⊎
        (is_due_place due.old u ≡ is_due_at steps.now branch.now.keys k) → is_due_place due.new u ≡ is_due_at steps.now branch.now.keys k) }
    ensures inside { OnOk result (IsInside used.now due.old → IsInside used.now due.new) }
{
    for i in 0..places.len() {
        let place = places[i];
        let is_due = is_due(steps, branch, used[place])?;
        due.set(place, is_due)?;
    }
    Ok(())
}

/// A branch, the places of the instances that are due on it, and for each variable the places of the instances in which it stands.
#[derive(Drop)]
pub(crate) struct Path {
    literals: IndexSet<SatLit>,
    due: Due,
    noted: Vec<Places>,
}

/// Notes the instances, and which of them are due on no literals.
fn note_all(
    steps: &StepTable,
    used: &[usize],
    branch: &IndexSet<SatLit>,
    noted: &mut Vec<Places>,
    due: &mut Due,
) -> Result<(), AllocError>
    requires within { All (λ k. k < length (the_instances steps.now)) used.now }
    requires over { All (AreLiteralsOver (length noted.old.items) steps.now) used.now }
    requires none { (v : ℕ) → slice_index_or noted.old.items v [] ≡ [] }
    requires nothing { (u : ℕ) → is_due_place due.old u ≡ false }
    ensures count { OnOk result (length noted.new.items ≡ length noted.old.items) }
    ensures noted { OnOk result (AreNotedByVariable steps.now used.now noted.new.items) }
    ensures places { OnOk result (ArePlacesOfUsed used.now noted.new.items) }
    ensures due { OnOk result (AreDue steps.now used.now branch.now.keys due.new) }
    ensures inside { OnOk result (IsInside used.now due.new) }
{
    for u in 0..used.len() {
        let instance = steps.instance(used[u])?;
        note(noted, &instance, u)?;
        let is_due = is_due(steps, branch, used[u])?;
        due.set(u, is_due)?;
    }
    Ok(())
}

impl Path {
    /// No literals, with instances over so many variables.
    pub(crate) fn new(
        alloc: Global,
        count: usize,
        steps: &StepTable,
        used: &[usize],
    ) -> Result<Path, AllocError>
        requires within { All (λ k. k < length (the_instances steps.now)) used.now }
        requires over { All (AreLiteralsOver count steps.now) used.now }
        ensures path { IfOk result (IsPath count steps.now used.now) }
        ensures empty { IfOk result (λ path. path.literals.keys ≡ []) }
    {
        let literals = IndexSet::new(alloc);
        let mut due = Due::new(alloc);
        let mut noted = no_places(alloc, count)?;
        note_all(steps, used, &literals, &mut noted, &mut due)?;
        Ok(Path {
            literals,
            due,
            noted,
        })
    }

    pub(crate) fn as_slice(&self) -> &[SatLit]
        ensures { result.now ≡ self.now.literals.keys }
    {
        self.literals.as_slice()
    }

    pub(crate) fn len(&self) -> usize
        ensures { result ≡ length self.now.literals.keys }
    {
        self.literals.len()
    }

    /// The place of the next instance.
    pub(crate) fn next(&self, steps: &StepTable, used: &[usize], count: usize) -> Option<usize>
        requires path { IsPath count steps.now used.now self.now }
        ensures some { IfSome result
            (λ u. (u < length used.now) × (position_or_len (is_due_at steps.now self.now.literals.keys) used.now ≡ u)) }
        ensures none { IfNone result (position_or_len (is_due_at steps.now self.now.literals.keys) used.now ≡ length used.now) }
    {
        self.due.first()
    }

    /// Whether the branch with these literals holds one of them and its negation.
    pub(crate) fn clashes(&self, lits: &[SatLit]) -> bool
        ensures { result ≡ clashes self.now.literals.keys lits.now }
    {
        for i in 0..lits.len() {
            let opposite = lits[i].negated();
            if self.literals.contains(&opposite) || has(lits, opposite) {
                return true;
            }
        }
        false
    }

    /// The first literal of the branch whose negation it holds too.
    pub(crate) fn first_clash(&self) -> Option<SatLit>
        ensures { result ≡ first_clash numbers self.now.literals.keys }
    {
        let literals = self.literals.as_slice();
        for i in 0..literals.len() {
            if self.literals.contains(&literals[i].negated()) {
                return Some(literals[i]);
            }
        }
        None
    }

    /// Adds a literal, where it isn't there yet.
    pub(crate) fn push(
        &mut self,
        count: usize,
        steps: &StepTable,
        used: &[usize],
        lit: SatLit,
    ) -> Result<(), AllocError>
        requires path { IsPath count steps.now used.now self.old }
        requires within { All (λ k. k < length (the_instances steps.now)) used.now }
        requires over { lit.var.0 < count }
        ensures path { OnOk result (IsPath count steps.now used.now self.new) }
        ensures keys { OnOk result (self.new.literals.keys ≡ added numbers self.old.literals.keys (lit ∷ [])) }
    {
        if self.literals.insert(lit)? {
            let places = self.noted[lit.var.0].as_slice();
            refresh(steps, used, &self.literals, places, &mut self.due)?;
        }
        Ok(())
    }

    /// Takes the last literal away.
    fn pop(&mut self, count: usize, steps: &StepTable, used: &[usize]) -> Result<(), AllocError>
        requires path { IsPath count steps.now used.now self.old }
        requires within { All (λ k. k < length (the_instances steps.now)) used.now }
        requires some { 0 < length self.old.literals.keys }
        ensures path { OnOk result (IsPath count steps.now used.now self.new) }
        ensures keys { OnOk result ((l : SatLit) × (self.old.literals.keys ≡ self.new.literals.keys ++ l ∷ [])) }
    {
        match self.literals.pop() {
            Some(lit) => {
                let places = self.noted[lit.var.0].as_slice();
                Ok(refresh(steps, used, &self.literals, places, &mut self.due)?)
            }
            None => unreachable!(),
        }
    }

    /// Takes the literals behind the first ones away.
    pub(crate) fn truncate(
        &mut self,
        count: usize,
        steps: &StepTable,
        used: &[usize],
        len: usize,
    ) -> Result<(), AllocError>
        requires path { IsPath count steps.now used.now self.old }
        requires within { All (λ k. k < length (the_instances steps.now)) used.now }
        requires len { len ≤ length self.old.literals.keys }
        ensures path { OnOk result (IsPath count steps.now used.now self.new) }
        ensures keys { OnOk result (self.new.literals.keys ≡ take len self.old.literals.keys) }
    {
        for _i in len..self.literals.len() {
            self.pop(count, steps, used)?;
        }
        Ok(())
    }
}

/// Whether the literal is in the list.
fn has(lits: &[SatLit], lit: SatLit) -> bool
    ensures { result ≡ holds lits.now lit }
{
    for i in 0..lits.len() {
        if lits[i] == lit {
            return true;
        }
    }
    false
}
