//! The selections of includes.

ghost use Rattle.std.specs.Prelude.{◌≡◌, ◌++◌, List, ℕ, map, filter, find, option_map, IfOk, OnOk, Some};
ghost use Rattle.std.specs.Str.{bytes_eq};
ghost use Rattle.std.specs.List.{list_any};
ghost use Rattle.thf_grammar.specs.View.{the_selection, the_selected};
ghost use Rattle.thf_include.specs.View.{the_statements};
ghost use Rattle.thf_include.specs.Gathering.{select, is_selected, is_missing};
ghost use Rattle.thf_include.specs.Internal.Selection.{has_name};
ghost use Rattle.thf_include.specs.Internal.Steps.{SelectsAs};

use crate::{GatherRefused, Gathered};
use std::alloc::{AllocError, Global};
use std::collections::BTreeSet;
use thf_grammar::Selection;

/// Keeps the statements with selected names, for an include in the file with this number.
pub fn keep_selected(
    alloc: Global,
    file: u32,
    only: &Selection,
    included: Gathered,
    gathered: &mut Gathered,
) -> Result<(), GatherRefused>
    ensures { SelectsAs (select file (the_selection (Some only.now)) (the_statements included)) (the_statements gathered.old)
        (the_statements gathered.new) result }
{
    match first_missing(alloc, only, &included)? {
        Some(at) => Err(GatherRefused::NoSuchName { file, at }),
        None => Ok(keep(alloc, only, included, gathered)?),
    }
}

/// The place of the first selected name that no statement has.
fn first_missing(
    alloc: Global,
    only: &Selection,
    included: &Gathered,
) -> Result<Option<u32>, AllocError>
    ensures { IfOk result
        (λ at. at ≡ option_map (λ s. s.at) (find (is_missing (the_statements included.now)) (map the_selected only.now))) }
{
    let names = statement_names(alloc, included)?;
    for selected in only.as_slice() {
        if !names.contains(selected.name.as_slice()) {
            return Ok(Some(selected.at));
        }
    }
    Ok(None)
}

/// Adds the statements with selected names.
fn keep(
    alloc: Global,
    only: &Selection,
    included: Gathered,
    gathered: &mut Gathered,
) -> Result<(), AllocError>
    ensures { OnOk result (the_statements gathered.new ≡ the_statements gathered.old ++ filter (is_selected (map the_selected only.now))
        (the_statements included)) }
{
    let names = selected_names(alloc, only)?;
    let mut kept = included.into_items();
    kept.retain(|placed| names.contains(placed.statement.name.as_slice()));
    for placed in kept {
        gathered.push(placed)?;
    }
    Ok(())
}

fn statement_names<'a>(
    alloc: Global,
    gathered: &'a Gathered,
) -> Result<BTreeSet<&'a [u8]>, AllocError>
    ensures { IfOk result (λ names. (name : List ℕ) → has_name names name ≡ list_any (λ p. bytes_eq name p.statement.name) gathered.now) }
{
    let mut names = BTreeSet::new(alloc);
    for placed in gathered.as_slice() {
        names.insert(placed.statement.name.as_slice())?;
    }
    Ok(names)
}

fn selected_names<'a>(alloc: Global, only: &'a Selection) -> Result<BTreeSet<&'a [u8]>, AllocError>
    ensures { IfOk result (λ names. (name : List ℕ) → has_name names name ≡ list_any (λ s. bytes_eq name s.name) only.now) }
{
    let mut names = BTreeSet::new(alloc);
    for selected in only.as_slice() {
        names.insert(selected.name.as_slice())?;
    }
    Ok(names)
}
