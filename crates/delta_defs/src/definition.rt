//! Definitions that are taken.

ghost use Rattle.std.specs.Prelude.{◌≡◌, ℕ, nat_eq, ◌<◌, ◌||◌, ◌++◌, [], ◌∷◌, length, OnOk, IfOk, Some, slice_get, option_map, unwrap_or};
ghost use Rattle.std.specs.List.{list_any};
ghost use Rattle.std.specs.Ordering.{nat_cmp};
ghost use Rattle.std.specs.BTreeMap.{get};
ghost use Rattle.std.specs.BTreeSet.{contains};
ghost use Rattle.stt_core.specs.Lambda.{name, constant};
ghost use Rattle.stt_core.specs.View.{the_term};
ghost use Rattle.delta_defs.specs.Definitions.{meant, mentions as occurs_in};
ghost use Rattle.delta_defs.specs.Unfolding.{involves};
ghost use Rattle.delta_defs.specs.Internal.DefinitionView.{the_definition};
ghost use Rattle.delta_defs.specs.Internal.Finding.{first_or};

use std::alloc::{AllocError, Global};
use std::collections::{BTreeMap, BTreeSet};
use std::marker::Model;
use stt_core::Term;

/// A name, by its place in the signature, and the term that it stands for.
#[derive(Drop)]
pub(crate) struct Taken {
    pub(crate) place: u32,
    pub(crate) term: Term,
}

/// A list of definitions, with what finds a name in it: for each defined name the index of its first definition, and the names that are
/// defined or occur in a term of the list.
#[derive(Drop)]
pub(crate) struct Definitions {
    items: Vec<Taken>,
    firsts: BTreeMap<u32, usize>,
    involved: BTreeSet<u32>,
}

impl Model for Definitions {
    ghost use Rattle.std.specs.Prelude.{List, map};
    ghost use Rattle.std.specs.Coded.{coded_list};
    ghost use Rattle.delta_defs.specs.Definitions.{Definition};
    ghost use Rattle.delta_defs.specs.Internal.DefinitionCode.{definition_code};
    ghost use Rattle.delta_defs.specs.Internal.DefinitionView.{the_definition};
    ghost use Rattle.delta_defs.specs.Internal.Finding.{HasFirsts, HasInvolved};

    ghost Value = { List Definition };

    ghost coded = { coded_list definition_code };

    ghost view = { λ a. map the_definition a.items.items };

    ghost invariant = { λ a. HasFirsts a.firsts (map the_definition a.items.items) × HasInvolved a.involved (map the_definition a.items.items) };
}

/// Whether a name occurs in a term.
pub(crate) fn mentions(term: &Term, place: u32) -> bool
    ensures { result ≡ occurs_in (name place) (the_term term.now) }
{
    match term {
        Term::Name(k) => *k == place,
        Term::Lam(_, body) => mentions(body, place),
        Term::App(function, argument) => mentions(function, place) || mentions(argument, place),
        _ => false,
    }
}

/// Adds a name to a set.
fn add_name(names: &mut BTreeSet<u32>, place: u32) -> Result<(), AllocError>
    ensures { OnOk result ((k : ℕ) → contains nat_cmp names.new k ≡ (nat_eq place k || contains nat_cmp names.old k)) }
{
    names.insert(place)?;
    Ok(())
}

/// Adds the names that occur in a term to a set.
fn add_names(names: &mut BTreeSet<u32>, term: &Term) -> Result<(), AllocError>
    ensures { OnOk result
        ((k : ℕ) → contains nat_cmp names.new k ≡ (occurs_in (name k) (the_term term.now) || contains nat_cmp names.old k)) }
{
    match term {
        Term::Name(place) => add_name(names, *place),
        Term::Lam(_, body) => add_names(names, body),
        Term::App(function, argument) => {
            add_names(names, function)?;
            add_names(names, argument)
        }
        _ => Ok(()),
    }
}

/// Notes the index of a name's definition, unless it has an earlier one.
fn note(firsts: &mut BTreeMap<u32, usize>, place: u32, index: usize) -> Result<(), AllocError>
    ensures { OnOk result ((k : ℕ) → get nat_cmp firsts.new k ≡ first_or (get nat_cmp firsts.old k) place index k) }
{
    if !firsts.contains_key(&place) {
        firsts.insert(place, index)?;
    }
    Ok(())
}

/// Notes a name by its number, and adds the name and those of its term to a set.
pub(crate) fn note_names(
    numbers: &mut BTreeMap<u32, usize>,
    names: &mut BTreeSet<u32>,
    place: u32,
    number: usize,
    term: &Term,
) -> Result<(), AllocError>
    ensures numbers { OnOk result ((k : ℕ) → get nat_cmp numbers.new k ≡ first_or (get nat_cmp numbers.old k) place number k) }
    ensures names { OnOk result ((k : ℕ) → contains nat_cmp names.new k
        ≡ (occurs_in (name k) (the_term term.now) || (nat_eq place k || contains nat_cmp names.old k))) }
{
    note(numbers, place, number)?;
    add_name(names, place)?;
    add_names(names, term)?;
    Ok(())
}

impl Definitions {
    pub(crate) fn new(alloc: Global) -> Definitions
        ensures { result ≡ [] }
    {
        Definitions {
            items: Vec::new(alloc),
            firsts: BTreeMap::new(alloc),
            involved: BTreeSet::new(alloc),
        }
    }

    /// The list with a further definition. It takes the time of the definition's term.
    pub(crate) fn with(self, definition: Taken) -> Result<Definitions, AllocError>
        ensures { IfOk result (λ ds. ds ≡ self ++ the_definition definition ∷ []) }
    {
        let index = self.len();
        let Definitions {
            mut items,
            mut firsts,
            mut involved,
        } = self;
        note_names(
            &mut firsts,
            &mut involved,
            definition.place,
            index,
            &definition.term,
        )?;
        items.push(definition)?;
        Ok(Definitions {
            items,
            firsts,
            involved,
        })
    }

    pub(crate) fn len(&self) -> usize
        ensures { result ≡ length self.now }
    {
        self.items.len()
    }

    /// The definition at an index of the list.
    pub(crate) fn at(&self, i: usize) -> &Taken
        requires { i < length self.now }
        ensures { slice_get self.now i ≡ Some (the_definition result.now) }
    {
        &self.items[i]
    }

    /// Whether a name is one of the list's or occurs in one of its terms.
    pub(crate) fn have(&self, place: u32) -> bool
        ensures { result ≡ list_any (involves place) self.now }
    {
        self.involved.contains(&place)
    }

    /// The term that a name stands for, where it isn't left as it is.
    pub(crate) fn term_of(&self, place: u32) -> Option<&Term>
        ensures { unwrap_or (option_map (λ term. the_term term.now) result) (constant (name place)) ≡ meant self.now (name place) }
    {
        match self.firsts.get(&place) {
            Some(i) => Some(&self.at(*i).term),
            None => None,
        }
    }
}
