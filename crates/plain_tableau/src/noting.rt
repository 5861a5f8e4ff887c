//! In which instances variables stand.
ghost use Rattle.std.specs.Prelude.{◌≡◌, ◌<◌, ◌⊎◌, ℕ, true, [], length, slice_index_or, Some, OnOk, IfOk};
ghost use Rattle.std.specs.List.{All, list_any};
ghost use Rattle.sat_base.specs.declared.literal.Var.{Var};
ghost use Rattle.sat_base.specs.Literal.{mentions_variable, IsOver};
ghost use Rattle.plain_tableau.specs.Internal.Due.{names_variable, without_rule, IsNotedMore};

use crate::places::Places;
use literal_map::{Instance, LitList};
use sat_base::SatLit;
use std::alloc::{AllocError, Global};

/// For each variable a list without places.
pub(crate) fn no_places(alloc: Global, count: usize) -> Result<Vec<Places>, AllocError>
    ensures count { IfOk result (λ noted. length noted.items ≡ count) }
    ensures none { IfOk result (λ noted. (v : ℕ) → slice_index_or noted.items v [] ≡ []) }
{
    let mut noted = Vec::new(alloc);
    for _v in 0..count {
        noted.push(Places::new(alloc))?;
    }
    Ok(noted)
}

/// Lists a place for the variables of literals.
fn note_literals(noted: &mut Vec<Places>, lits: &[SatLit], place: usize) -> Result<(), AllocError>
    requires { IsOver (length noted.old.items) lits.now }
    ensures { OnOk result (IsNotedMore (mentions_variable lits.now) place noted.old.items noted.new.items) }
{
    for i in 0..lits.len() {
        noted[lits[i].var.0].push(place)?;
    }
    Ok(())
}

/// Lists a place for the variables of the literals of lists.
fn note_lists(noted: &mut Vec<Places>, lists: &[LitList], place: usize) -> Result<(), AllocError>
    requires { All (IsOver (length noted.old.items)) lists.now }
    ensures { OnOk result (IsNotedMore (λ v. list_any (λ a. mentions_variable a v) lists.now) place noted.old.items noted.new.items) }
{
    for i in 0..lists.len() {
        note_literals(noted, lists[i].as_slice(), place)?;
    }
    Ok(())
}

/// Lists a place for the variables of an instance.
pub(crate) fn note(
    noted: &mut Vec<Places>,
    instance: &Instance,
    place: usize,
) -> Result<(), AllocError>
    requires principals { IsOver (length noted.old.items) instance.now.principals }
    requires alternatives { All (IsOver (length noted.old.items)) instance.now.alternatives }
    ensures { OnOk result (IsNotedMore (names_variable (without_rule (Some instance.now))) place noted.old.items noted.new.items) }
{
    note_literals(noted, instance.principals.as_slice(), place)?;
    note_lists(noted, instance.alternatives.as_slice(), place)?;
    Ok(())
}
