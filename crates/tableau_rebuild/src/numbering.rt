//! The numbers of the lines.
ghost use Rattle.std.specs.Prelude.{◌≡◌, ◌<◌, ℕ, [], length, map, Some, slice_get, IfOk};
ghost use Rattle.rebuild_spec.specs.Lines.{walked};
ghost use Rattle.tableau_rebuild.specs.Internal.Drafts.{trees, tree_at, AreDrafts};
ghost use Rattle.tableau_rebuild.specs.Internal.Numbers.{AreNumbers};

use crate::draft::Draft;
use std::alloc::{AllocError, Global};

/// For each draft that is listed, its number in the list.
pub(crate) fn number_lines(
    alloc: Global,
    drafts: &[Draft],
    last: usize,
    order: &[usize],
) -> Result<Vec<usize>, AllocError>
    requires right { AreDrafts drafts.now }
    requires last { last < length drafts.now }
    requires walked { map (tree_at (trees drafts.now)) order.now ≡ walked [] (tree_at (trees drafts.now) last) }
    requires inside { (k i : ℕ) → slice_get order.now k ≡ Some i → i < length drafts.now }
    ensures numbers { IfOk result (λ numbers. AreNumbers order.now numbers.items) }
    ensures count { IfOk result (λ numbers. length numbers.items ≡ length drafts.now) }
{
    let mut numbers = Vec::new(alloc);
    for _draft in drafts {
        numbers.push(0)?;
    }
    for k in 0..order.len() {
        numbers[order[k]] = k;
    }
    Ok(numbers)
}
