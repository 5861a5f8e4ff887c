//! The lines of nodes.
ghost use Rattle.std.specs.Prelude.{◌≡◌, ◌<◌, ◌++◌, ℕ, List, max, [], ◌∷◌, length, take, IfOk, OnOk, All};
ghost use Rattle.std.specs.List.{AllByRecursion};
ghost use Rattle.stt_core.specs.Lambda.{Lambda};
ghost use Rattle.sat_base.specs.Literal.{IsOver};
ghost use Rattle.search_spec.specs.Numbered.{numbers};
ghost use Rattle.literal_map.specs.Atoms.{IsAtom};
ghost use Rattle.witness_names.specs.Rows.{rows_of, AreRows};
ghost use Rattle.rebuild_spec.specs.Input.{literals_of};
ghost use Rattle.rebuild_spec.specs.NeededRows.{rows_for_lines};
ghost use Rattle.small_rebuilt.specs.Small.{HasNumbers, AreNumbersInRange};
ghost use Rattle.tableau_rebuild.specs.Tables.{atoms_at, the_instance};
ghost use Rattle.tableau_rebuild.specs.Conditions.{IsGoodUse};
ghost use Rattle.tableau_rebuild.specs.Pools.{IsMadePool};
ghost use Rattle.plain_tableau.specs.Expansion.{closing};
ghost use Rattle.plain_tableau.specs.Lines.{node_line};
ghost use Rattle.plain_tableau.specs.Tables.{expanded};
ghost use Rattle.plain_tableau.specs.Internal.Writing.{IsWriting};

use literal_map::{Instance, LitTable};
use refute_share::{SharedLine, SharedLines, SharedLits, SharedRefutation};
use sat_base::SatLit;
use std::alloc::{AllocError, Global};
use tableau_calculus::{Children, RuleUse, TwoPlaces};
use tableau_rebuild::{
    Pool, line_in_range, lits_of, places_of, position, rows_for_branch, rows_for_instance, rule_of,
    write_rows,
};
use term_bank::Bank;
use witness_names::Witnesses;

/// Lines, how many rows of the witness table they need, and the literals that they share.
#[derive(Drop)]
pub(crate) struct Writing {
    lines: SharedLines,
    rows: usize,
    pool: Pool,
}

/// The line of an instance on a branch, with its children.
fn line_with(
    alloc: Global,
    bank: &Bank,
    atoms: &LitTable,
    instance: &Instance,
    branch: &[SatLit],
    children: Children,
    pool: &mut Pool,
) -> Result<SharedLine, AllocError>
    requires atoms { All (IsAtom bank.now) atoms.now }
    requires numbered { IsOver (length atoms.now) branch.now }
    requires good { IsGoodUse bank.now atoms.now instance.now.by }
    requires made { IsMadePool bank.now.terms atoms.now pool.old }
    ensures made { OnOk result (IsMadePool bank.now.terms atoms.now pool.new) }
    ensures line { IfOk result (λ line. line ≡ node_line (atoms_at bank.now.terms atoms.now)
        (expanded (the_instance bank.now.terms atoms.now instance.now)) branch.now children) }
{
    let literals = lits_of(alloc, bank, atoms, branch, pool)?;
    let places = places_of(alloc, branch, &instance.principals)?;
    let rule = rule_of(bank, atoms, &instance.by, &places, pool)?;
    Ok(SharedLine {
        branch: literals,
        rule,
        children,
    })
}

/// The line on which a literal and its negation close a branch.
fn closing_line(
    alloc: Global,
    bank: &Bank,
    atoms: &LitTable,
    lit: SatLit,
    branch: &[SatLit],
    pool: &mut Pool,
) -> Result<SharedLine, AllocError>
    requires atoms { All (IsAtom bank.now) atoms.now }
    requires numbered { IsOver (length atoms.now) branch.now }
    requires made { IsMadePool bank.now.terms atoms.now pool.old }
    ensures made { OnOk result (IsMadePool bank.now.terms atoms.now pool.new) }
    ensures line { IfOk result (λ line. line ≡ node_line (atoms_at bank.now.terms atoms.now) (closing numbers lit) branch.now []) }
{
    let literals = lits_of(alloc, bank, atoms, branch, pool)?;
    let rule = RuleUse::AtTwo(
        TwoPlaces::Close,
        position(branch, lit),
        position(branch, lit.negated()),
    );
    Ok(SharedLine {
        branch: literals,
        rule,
        children: Children::new(alloc),
    })
}

impl Writing {
    /// No line.
    pub(crate) fn new(alloc: Global) -> Writing
        ensures lines { result.lines ≡ [] }
        ensures rows { result.rows ≡ 0 }
        ensures made { (terms : List Lambda) (atoms : List ℕ) → IsMadePool terms atoms result.pool }
    {
        Writing {
            lines: SharedLines::new(alloc),
            rows: 0,
            pool: Pool::new(alloc),
        }
    }

    /// Writes a line that needs so many rows. The answer is its number.
    fn push(&mut self, line: SharedLine, rows: usize) -> Result<usize, AllocError>
        requires in_range { AllByRecursion HasNumbers self.old.lines }
        ensures lines { OnOk result (self.new.lines ≡ self.old.lines ++ line ∷ []) }
        ensures in_range { OnOk result (AllByRecursion HasNumbers self.new.lines) }
        ensures rows { OnOk result (self.new.rows ≡ max self.old.rows rows) }
        ensures number { IfOk result (λ n. n ≡ length self.old.lines) }
        ensures pool { self.new.pool ≡ self.old.pool }
    {
        line_in_range(&line);
        let number = self.lines.len();
        self.lines.push(line)?;
        self.rows = self.rows.max(rows);
        Ok(number)
    }

    /// Writes the line of an instance on a branch, with its children. The answer is its number.
    pub(crate) fn write(
        &mut self,
        alloc: Global,
        bank: &Bank,
        atoms: &LitTable,
        witnesses: &Witnesses,
        instance: &Instance,
        branch: &[SatLit],
        children: Children,
    ) -> Result<usize, AllocError>
        requires atoms { All (IsAtom bank.now) atoms.now }
        requires rows { AreRows bank.now witnesses.now }
        requires numbered { IsOver (length atoms.now) branch.now }
        requires good { IsGoodUse bank.now atoms.now instance.now.by }
        requires writing { IsWriting bank.now atoms.now witnesses.now self.old }
        ensures writing { OnOk result (IsWriting bank.now atoms.now witnesses.now self.new) }
        ensures lines { OnOk result (self.new.lines ≡ self.old.lines ++ node_line (atoms_at bank.now.terms atoms.now)
            (expanded (the_instance bank.now.terms atoms.now instance.now)) branch.now children ∷ []) }
        ensures number { IfOk result (λ n. n ≡ length self.old.lines) }
    {
        let line = line_with(
            alloc,
            bank,
            atoms,
            instance,
            branch,
            children,
            &mut self.pool,
        )?;
        let by_branch = rows_for_branch(bank, atoms, branch);
        let by_rule = rows_for_instance(bank, atoms, witnesses, instance, branch);
        Ok(self.push(line, by_branch.max(by_rule))?)
    }

    /// Writes the line on which a literal and its negation close a branch.
    pub(crate) fn write_closing(
        &mut self,
        alloc: Global,
        bank: &Bank,
        atoms: &LitTable,
        witnesses: &Witnesses,
        lit: SatLit,
        branch: &[SatLit],
    ) -> Result<(), AllocError>
        requires atoms { All (IsAtom bank.now) atoms.now }
        requires numbered { IsOver (length atoms.now) branch.now }
        requires writing { IsWriting bank.now atoms.now witnesses.now self.old }
        ensures writing { OnOk result (IsWriting bank.now atoms.now witnesses.now self.new) }
        ensures lines { OnOk result (self.new.lines ≡ self.old.lines ++ node_line (atoms_at bank.now.terms atoms.now) (closing numbers lit)
            branch.now [] ∷ []) }
    {
        let line = closing_line(alloc, bank, atoms, lit, branch, &mut self.pool)?;
        let rows = rows_for_branch(bank, atoms, branch);
        self.push(line, rows)?;
        Ok(())
    }

    /// The literals of a branch.
    pub(crate) fn literals(
        &mut self,
        alloc: Global,
        bank: &Bank,
        atoms: &LitTable,
        witnesses: &Witnesses,
        branch: &[SatLit],
    ) -> Result<SharedLits, AllocError>
        requires atoms { All (IsAtom bank.now) atoms.now }
        requires numbered { IsOver (length atoms.now) branch.now }
        requires writing { IsWriting bank.now atoms.now witnesses.now self.old }
        ensures { IfOk result (λ ls. ls ≡ literals_of (atoms_at bank.now.terms atoms.now) branch.now) }
    {
        Ok(lits_of(alloc, bank, atoms, branch, &mut self.pool)?)
    }

    /// The refutation of the lines.
    pub(crate) fn finish(
        self,
        alloc: Global,
        bank: &Bank,
        atoms: &LitTable,
        witnesses: &Witnesses,
    ) -> Result<SharedRefutation, AllocError>
        requires rows { AreRows bank.now witnesses.now }
        requires writing { IsWriting bank.now atoms.now witnesses.now self }
        ensures lines { IfOk result (λ refutation. refutation.lines ≡ self.lines) }
        ensures rows { IfOk result
            (λ refutation. refutation.witnesses ≡ take (rows_for_lines (rows_of bank.now.terms witnesses.now) refutation.lines)
            (rows_of bank.now.terms witnesses.now)) }
        ensures in_range { IfOk result AreNumbersInRange }
    {
        let _atoms = atoms.len();
        let _count = self.lines.len();
        let rows = write_rows(alloc, bank, witnesses, self.rows)?;
        Ok(SharedRefutation {
            witnesses: rows,
            lines: self.lines,
        })
    }
}
