//! The order of the lines.
ghost use Rattle.std.specs.Prelude.{◌≡◌, ◌<◌, ℕ, false, [], ◌∷◌, length, map, reverse, Some, slice_get, IfOk, OnOk};
ghost use Rattle.rebuild_spec.specs.Lines.{walked};
ghost use Rattle.tableau_rebuild.specs.declared.walk.Task.TheVariants.{Enter, Visit};
ghost use Rattle.tableau_rebuild.specs.Internal.Drafts.{trees, tree_at, AreDrafts};
ghost use Rattle.tableau_rebuild.specs.Internal.Walks.{IsWalkUnderWay, weight};

use crate::draft::Draft;
use std::alloc::{AllocError, Global};

/// What is left to do: to walk from a line, or to list it.
#[derive(Clone, Copy)]
pub(crate) enum Task {
    Visit(usize),
    Enter(usize),
}

/// Lists a line, unless it is there.
fn enter(
    drafts: &[Draft],
    last: usize,
    i: usize,
    listed: &mut Vec<bool>,
    order: &mut Vec<usize>,
    tasks: &[Task],
) -> Result<(), AllocError>
    requires right { AreDrafts drafts.now }
    requires way { IsWalkUnderWay drafts.now last listed.old.items order.old.items (Enter i ∷ reverse tasks.now) }
    ensures { OnOk result (IsWalkUnderWay drafts.now last listed.new.items order.new.items (reverse tasks.now)) }
{
    if !listed[i] {
        order.push(i)?;
        listed[i] = true;
    }
    Ok(())
}

/// Leaves the lines below a line to be walked from, and then the line itself to be listed; or nothing, where it is there.
fn visit(
    drafts: &[Draft],
    last: usize,
    i: usize,
    listed: &[bool],
    order: &[usize],
    tasks: &mut Vec<Task>,
) -> Result<(), AllocError>
    requires right { AreDrafts drafts.now }
    requires last { last < length drafts.now }
    requires way { IsWalkUnderWay drafts.now last listed.now order.now (Visit i ∷ reverse tasks.old.items) }
    ensures way { OnOk result (IsWalkUnderWay drafts.now last listed.now order.now (reverse tasks.new.items)) }
    ensures less { OnOk result (weight (trees drafts.now) (reverse tasks.new.items) < weight (trees drafts.now)
        (Visit i ∷ reverse tasks.old.items)) }
{
    if !listed[i] {
        tasks.push(Task::Enter(i))?;
        match drafts[i] {
            Draft::Clause(_) => {}
            Draft::Close(_, _, _) => {}
            Draft::Cut(_, _, on, off) => {
                tasks.push(Task::Visit(off))?;
                tasks.push(Task::Visit(on))?;
            }
        }
    }
    Ok(())
}

/// No line is listed.
fn no_flags(alloc: Global, drafts: &[Draft]) -> Result<Vec<bool>, AllocError>
    ensures { IfOk result (λ flags. flags.items ≡ map (λ _. false) drafts.now) }
{
    let mut flags = Vec::new(alloc);
    for _draft in drafts {
        flags.push(false)?;
    }
    Ok(flags)
}

/// The lines in the order in which the walk from the last one first ends with them. It has a stack of its own, since lines may stand on
/// each other in a row of any length.
pub(crate) fn walk_from(
    alloc: Global,
    drafts: &[Draft],
    last: usize,
) -> Result<Vec<usize>, AllocError>
    requires right { AreDrafts drafts.now }
    requires last { last < length drafts.now }
    ensures walked { IfOk result (λ order. map (tree_at (trees drafts.now)) order.items ≡ walked [] (tree_at (trees drafts.now) last)) }
    ensures inside { IfOk result (λ order. (k i : ℕ) → slice_get order.items k ≡ Some i → i < length drafts.now) }
{
    let mut listed = no_flags(alloc, drafts)?;
    let mut order = Vec::new(alloc);
    let mut tasks = Vec::new(alloc);
    tasks.push(Task::Visit(last))?;
    while let Some(task) = tasks.pop() {
        match task {
            Task::Visit(i) => visit(drafts, last, i, &listed, &order, &mut tasks)?,
            Task::Enter(i) => enter(drafts, last, i, &mut listed, &mut order, &tasks)?,
        }
    }
    Ok(order)
}
