//! The lines of a refutation.
ghost use Rattle.std.specs.Prelude.{◌≡◌, ◌<◌, ◌≤◌, ◌^◌, ℕ, List, [], length, map, Some, slice_get, IfOk, OnOk, All};
ghost use Rattle.std.specs.List.{AllByRecursion};
ghost use Rattle.stt_core.specs.Lambda.{Lambda};
ghost use Rattle.sat_base.specs.Literal.{IsOver};
ghost use Rattle.literal_map.specs.Atoms.{IsAtom};
ghost use Rattle.witness_names.specs.Rows.{rows_of, AreRows};
ghost use Rattle.rebuild_spec.specs.NeededRows.{rows_for_lines};
ghost use Rattle.rebuild_spec.specs.Lines.{walked, line_of as line_in};
ghost use Rattle.rebuild_spec.specs.Trees.{branch};
ghost use Rattle.small_rebuilt.specs.Small.{HasNumbers};
ghost use Rattle.tableau_rebuild.specs.declared.draft.Draft.{Draft};
ghost use Rattle.tableau_rebuild.specs.Tables.{atoms_at};
ghost use Rattle.tableau_rebuild.specs.Internal.Drafts.{trees, tree_at, AreDrafts};
ghost use Rattle.tableau_rebuild.specs.Internal.Numbers.{AreNumbers};
ghost use Rattle.tableau_rebuild.specs.Pools.{IsMadePool};
ghost use Rattle.tableau_rebuild.specs.Internal.LineParts.{IsMakeable};
ghost use Rattle.tableau_rebuild.specs.Internal.Written.{the_tree};

use crate::branch::{BranchResolver, branch_of};
use crate::draft::Draft;
use crate::in_range::line_in_range;
use crate::line::line_of;
use crate::needed::rows_for_line;
use crate::packed_branch::PackedBranch;
use crate::pool::Pool;
use literal_map::LitTable;
use refute_share::SharedLines;
use std::alloc::{AllocError, Global};
use tableau_clauses::StepTable;
use term_bank::Bank;
use witness_names::Witnesses;

/// Lines, and how many rows of the witness table they need.
#[derive(Drop)]
pub(crate) struct Written {
    pub(crate) lines: SharedLines,
    pub(crate) rows: usize,
}

/// What is written so far: lines, and the branches of these. The resolver and the pool serve the lines to come.
#[derive(Drop)]
struct Writing {
    written: Written,
    branches: Vec<PackedBranch>,
    resolver: BranchResolver,
    pool: Pool,
}

impl Writing {
    /// No line.
    fn new(alloc: Global) -> Writing
        ensures lines { result.written.lines ≡ [] }
        ensures rows { result.written.rows ≡ 0 }
        ensures branches { result.branches.items ≡ [] }
        ensures empty { result.resolver.resolver ≡ [] }
        ensures made { (terms : List Lambda) (atoms : List ℕ) → IsMadePool terms atoms result.pool }
    {
        Writing {
            written: Written {
                lines: SharedLines::new(alloc),
                rows: 0,
            },
            branches: Vec::new(alloc),
            resolver: BranchResolver::new(alloc),
            pool: Pool::new(alloc),
        }
    }

    /// Writes the lines of the drafts in this order, of which each has its number.
    fn write(
        &mut self,
        alloc: Global,
        bank: &Bank,
        atoms: &LitTable,
        steps: &StepTable,
        witnesses: &Witnesses,
        drafts: &[Draft],
        last: usize,
        order: &[usize],
        numbers: &[usize],
    ) -> Result<(), AllocError>
        requires lines { self.old.written.lines ≡ [] }
        requires none { self.old.written.rows ≡ 0 }
        requires branches { self.old.branches.items ≡ [] }
        requires empty { self.old.resolver.resolver ≡ [] }
        requires made { IsMadePool bank.now.terms atoms.now self.old.pool }
        requires atoms { All (IsAtom bank.now) atoms.now }
        requires rows { AreRows bank.now witnesses.now }
        requires right { AreDrafts drafts.now }
        requires last { last < length drafts.now }
        requires walked { map (tree_at (trees drafts.now)) order.now ≡ walked [] (tree_at (trees drafts.now) last) }
        requires inside { (k i : ℕ) → slice_get order.now k ≡ Some i → i < length drafts.now }
        requires numbers { AreNumbers order.now numbers.now }
        requires makeable { (k i : ℕ) (d : Draft) → slice_get order.now k ≡ Some i → slice_get drafts.now i ≡ Some d
            → IsMakeable bank.now atoms.now steps.now numbers.now d }
        requires numbered { (k i : ℕ) → slice_get order.now k ≡ Some i → IsOver (length atoms.now)
            (branch (the_tree bank.now.terms atoms.now steps.now drafts.now i)) }
        ensures lines { OnOk result
            (self.new.written.lines ≡ map (λ i. line_in (atoms_at bank.now.terms atoms.now)
            (map (the_tree bank.now.terms atoms.now steps.now drafts.now) order.now)
            (the_tree bank.now.terms atoms.now steps.now drafts.now i)) order.now) }
        ensures in_range { OnOk result (AllByRecursion HasNumbers self.new.written.lines) }
        ensures count { OnOk result (length self.new.written.lines ≤ 2 ^ 64) }
        ensures rows { OnOk result (self.new.written.rows ≡ rows_for_lines (rows_of bank.now.terms witnesses.now) self.new.written.lines) }
    {
        for k in 0..order.len() {
            let draft = drafts[order[k]];
            let branch = branch_of(
                alloc,
                steps,
                draft,
                numbers,
                &self.branches,
                &mut self.resolver,
            )?;
            let line = line_of(
                alloc,
                bank,
                atoms,
                steps,
                draft,
                branch.as_slice(),
                numbers,
                &mut self.pool,
            )?;
            let rows = rows_for_line(bank, atoms, witnesses, steps, draft, branch.as_slice())?;
            self.written.rows = self.written.rows.max(rows);
            line_in_range(&line);
            self.written.lines.push(line)?;
            let packed = PackedBranch::of(alloc, branch.as_slice())?;
            self.branches.push(packed)?;
        }
        Ok(())
    }
}

/// The lines of the drafts in this order, of which each has its number.
pub(crate) fn write_lines(
    alloc: Global,
    bank: &Bank,
    atoms: &LitTable,
    steps: &StepTable,
    witnesses: &Witnesses,
    drafts: &[Draft],
    last: usize,
    order: &[usize],
    numbers: &[usize],
) -> Result<Written, AllocError>
    requires atoms { All (IsAtom bank.now) atoms.now }
    requires rows { AreRows bank.now witnesses.now }
    requires right { AreDrafts drafts.now }
    requires last { last < length drafts.now }
    requires walked { map (tree_at (trees drafts.now)) order.now ≡ walked [] (tree_at (trees drafts.now) last) }
    requires inside { (k i : ℕ) → slice_get order.now k ≡ Some i → i < length drafts.now }
    requires numbers { AreNumbers order.now numbers.now }
    requires makeable { (k i : ℕ) (d : Draft) → slice_get order.now k ≡ Some i → slice_get drafts.now i ≡ Some d
        → IsMakeable bank.now atoms.now steps.now numbers.now d }
    requires numbered { (k i : ℕ) → slice_get order.now k ≡ Some i → IsOver (length atoms.now)
        (branch (the_tree bank.now.terms atoms.now steps.now drafts.now i)) }
    ensures lines { IfOk result
        (λ written. written.lines ≡ map (λ i. line_in (atoms_at bank.now.terms atoms.now)
        (map (the_tree bank.now.terms atoms.now steps.now drafts.now) order.now) (the_tree bank.now.terms atoms.now steps.now drafts.now i))
        order.now) }
    ensures in_range { IfOk result (λ written. AllByRecursion HasNumbers written.lines) }
    ensures count { IfOk result (λ written. length written.lines ≤ 2 ^ 64) }
    ensures rows { IfOk result (λ written. written.rows ≡ rows_for_lines (rows_of bank.now.terms witnesses.now) written.lines) }
{
    let mut writing = Writing::new(alloc);
    writing.write(
        alloc, bank, atoms, steps, witnesses, drafts, last, order, numbers,
    )?;
    Ok(writing.written)
}
