//! The walk over the branches of a tree, depth first.
ghost use Rattle.std.specs.Prelude.{◌≡◌, ◌<◌, ◌≤◌, ◌+◌, ℕ, List, true, false, [], length, reverse, take, Some, slice_get, IfOk, OnOk, All};
ghost use Rattle.std.specs.List.{position_or_len};
ghost use Rattle.sat_base.specs.Literal.{IsOver};
ghost use Rattle.term_bank.specs.Content.{Content};
ghost use Rattle.tableau_calculus.specs.Kinds.{added};
ghost use Rattle.search_spec.specs.Numbered.{numbers};
ghost use Rattle.literal_map.specs.Atoms.{IsAtom};
ghost use Rattle.witness_names.specs.Rows.{rows_of, AreRows};
ghost use Rattle.tableau_clauses.specs.Table.{the_instances};
ghost use Rattle.rebuild_spec.specs.Input.{literals_of};
ghost use Rattle.rebuild_spec.specs.NeededRows.{rows_for_lines};
ghost use Rattle.small_rebuilt.specs.Small.{AreNumbersInRange};
ghost use Rattle.tableau_rebuild.specs.Tables.{atoms_at};
ghost use Rattle.plain_tableau.specs.Tables.{the_used, IsUsable};
ghost use Rattle.plain_tableau.specs.Internal.Due.{is_due_at, IsPath};
ghost use Rattle.plain_tableau.specs.Internal.Writing.{IsWriting};
ghost use Rattle.plain_tableau.specs.Internal.Walking.{IsFull, IsAhead, IsBack, WalkStands, WalkGoesOn, ComesTo};

use crate::path::Path;
use crate::writing::Writing;
use literal_map::LitTable;
use refute_share::{SharedLits, SharedRefutation};
use sat_base::SatLit;
use std::alloc::{AllocError, Global};
use tableau_calculus::{Child, Children};
use tableau_clauses::StepTable;
use term_bank::Bank;
use witness_names::Witnesses;

/// A node that isn't written yet: the place of its instance, how many literals its branch has, and its first children.
#[derive(Drop)]
pub(crate) struct Frame {
    place: usize,
    len: usize,
    children: Children,
}

/// A walk: the branch, the nodes on the way to it, the outermost first, and what is written.
#[derive(Drop)]
pub(crate) struct Walk {
    pub(crate) path: Path,
    frames: Vec<Frame>,
    pub(crate) writing: Writing,
}

/// What a walk comes to: a tree with so many nodes, an open branch, or that there would be more nodes than may be.
#[derive(Clone, Copy)]
pub(crate) enum Grown {
    Whole(u32),
    Open,
    Over,
}

impl Walk {
    /// At the start of a branch.
    pub(crate) fn new(alloc: Global, path: Path) -> Walk
        ensures path { result.path ≡ path }
        ensures none { result.frames.items ≡ [] }
        ensures lines { result.writing.lines ≡ [] }
        ensures writing { (bank : Content) (atoms witnesses : List ℕ) → IsWriting bank atoms witnesses result.writing }
    {
        Walk {
            path,
            frames: Vec::new(alloc),
            writing: Writing::new(alloc),
        }
    }

    /// Writes the line of a node all of whose children are there, and goes back to the node before.
    fn finish(
        &mut self,
        alloc: Global,
        bank: &Bank,
        atoms: &LitTable,
        steps: &StepTable,
        witnesses: &Witnesses,
        used: &[usize],
        start: &[SatLit],
        nodes: u32,
        made: u32,
        frame: Frame,
    ) -> Result<(), AllocError>
        requires rows { AreRows bank.now witnesses.now }
        requires atoms { All (IsAtom bank.now) atoms.now }
        requires used { All (IsUsable bank.now atoms.now (rows_of bank.now.terms witnesses.now) steps.now) used.now }
        requires path { IsPath (length atoms.now) steps.now used.now self.old.path }
        requires writing { IsWriting bank.now atoms.now witnesses.now self.old.writing }
        requires back { IsBack (the_used bank.now.terms atoms.now steps.now used.now) nodes start.now (atoms_at bank.now.terms atoms.now)
            made (reverse self.old.frames.items) frame self.old.path.literals.keys self.old.writing.lines }
        requires full { IsFull (the_used bank.now.terms atoms.now steps.now used.now) frame }
        ensures path { OnOk result (IsPath (length atoms.now) steps.now used.now self.new.path) }
        ensures writing { OnOk result (IsWriting bank.now atoms.now witnesses.now self.new.writing) }
        ensures frames { OnOk result (length self.new.frames.items ≡ length self.old.frames.items) }
        ensures stands { OnOk result (WalkStands (the_used bank.now.terms atoms.now steps.now used.now) nodes start.now
            (atoms_at bank.now.terms atoms.now) made (reverse self.new.frames.items) self.new.path.literals.keys self.new.writing.lines) }
    {
        let place = frame.place;
        let Frame { children, .. } = frame;
        let number = {
            let instance = steps.instance(used[place])?;
            self.writing.write(
                alloc,
                bank,
                atoms,
                witnesses,
                &instance,
                self.path.as_slice(),
                children,
            )?
        };
        match self.frames.pop() {
            None => Ok(()),
            Some(mut parent) => {
                parent.children.push(Child::Line(number))?;
                self.path.truncate(atoms.len(), steps, used, parent.len)?;
                self.frames.push(parent)?;
                Ok(())
            }
        }
    }

    /// Adds the literals of an alternative.
    fn enter(
        &mut self,
        atoms: &LitTable,
        steps: &StepTable,
        used: &[usize],
        lits: &[SatLit],
    ) -> Result<(), AllocError>
        requires within { All (λ k. k < length (the_instances steps.now)) used.now }
        requires path { IsPath (length atoms.now) steps.now used.now self.old.path }
        requires over { IsOver (length atoms.now) lits.now }
        ensures path { OnOk result (IsPath (length atoms.now) steps.now used.now self.new.path) }
        ensures keys { OnOk result (self.new.path.literals.keys ≡ added numbers self.old.path.literals.keys lits.now) }
        ensures frames { self.new.frames ≡ self.old.frames }
        ensures writing { self.new.writing ≡ self.old.writing }
    {
        for i in 0..lits.len() {
            self.path.push(atoms.len(), steps, used, lits[i])?;
        }
        Ok(())
    }

    /// Goes on with the alternatives of a node that are left, to the first one with which its branch isn't closed. Whether there is one.
    fn go_on(
        &mut self,
        alloc: Global,
        bank: &Bank,
        atoms: &LitTable,
        steps: &StepTable,
        witnesses: &Witnesses,
        used: &[usize],
        start: &[SatLit],
        nodes: u32,
        made: u32,
        mut frame: Frame,
    ) -> Result<bool, AllocError>
        requires rows { AreRows bank.now witnesses.now }
        requires atoms { All (IsAtom bank.now) atoms.now }
        requires used { All (IsUsable bank.now atoms.now (rows_of bank.now.terms witnesses.now) steps.now) used.now }
        requires path { IsPath (length atoms.now) steps.now used.now self.old.path }
        requires writing { IsWriting bank.now atoms.now witnesses.now self.old.writing }
        requires back { IsBack (the_used bank.now.terms atoms.now steps.now used.now) nodes start.now (atoms_at bank.now.terms atoms.now)
            made (reverse self.old.frames.items) frame self.old.path.literals.keys self.old.writing.lines }
        ensures path { OnOk result (IsPath (length atoms.now) steps.now used.now self.new.path) }
        ensures writing { OnOk result (IsWriting bank.now atoms.now witnesses.now self.new.writing) }
        ensures frames { IfOk result (λ b. b ≡ false → length self.new.frames.items ≡ length self.old.frames.items) }
        ensures ahead { IfOk result (λ b. b ≡ true → IsAhead (the_used bank.now.terms atoms.now steps.now used.now) nodes start.now
            (atoms_at bank.now.terms atoms.now) made (reverse self.new.frames.items) self.new.path.literals.keys self.new.writing.lines) }
        ensures stands { IfOk result (λ b. b ≡ false → WalkStands (the_used bank.now.terms atoms.now steps.now used.now) nodes start.now
            (atoms_at bank.now.terms atoms.now) made (reverse self.new.frames.items) self.new.path.literals.keys self.new.writing.lines) }
    {
        let instance = steps.instance(used[frame.place])?;
        for k in frame.children.len()..instance.alternatives.len() {
            let lits = instance.alternatives.at(k).as_slice();
            if !self.path.clashes(lits) {
                self.frames.push(frame)?;
                self.enter(atoms, steps, used, lits)?;
                return Ok(true);
            }
            frame.children.push(Child::Closed)?;
        }
        self.finish(
            alloc, bank, atoms, steps, witnesses, used, start, nodes, made, frame,
        )?;
        Ok(false)
    }

    /// Goes on to the next branch that isn't closed. Whether there is one.
    fn advance(
        &mut self,
        alloc: Global,
        bank: &Bank,
        atoms: &LitTable,
        steps: &StepTable,
        witnesses: &Witnesses,
        used: &[usize],
        start: &[SatLit],
        nodes: u32,
        made: u32,
    ) -> Result<bool, AllocError>
        requires rows { AreRows bank.now witnesses.now }
        requires atoms { All (IsAtom bank.now) atoms.now }
        requires used { All (IsUsable bank.now atoms.now (rows_of bank.now.terms witnesses.now) steps.now) used.now }
        requires path { IsPath (length atoms.now) steps.now used.now self.old.path }
        requires writing { IsWriting bank.now atoms.now witnesses.now self.old.writing }
        requires stands { WalkStands (the_used bank.now.terms atoms.now steps.now used.now) nodes start.now
            (atoms_at bank.now.terms atoms.now) made (reverse self.old.frames.items) self.old.path.literals.keys self.old.writing.lines }
        ensures path { OnOk result (IsPath (length atoms.now) steps.now used.now self.new.path) }
        ensures writing { OnOk result (IsWriting bank.now atoms.now witnesses.now self.new.writing) }
        ensures goes_on { IfOk result (WalkGoesOn (the_used bank.now.terms atoms.now steps.now used.now) nodes start.now
            (atoms_at bank.now.terms atoms.now) made (reverse self.new.frames.items) self.new.path.literals.keys self.new.writing.lines) }
    {
        while let Some(frame) = self.frames.pop() {
            if self.go_on(
                alloc, bank, atoms, steps, witnesses, used, start, nodes, made, frame,
            )? {
                return Ok(true);
            }
        }
        Ok(false)
    }

    /// Makes a node of the instance at a place, and goes on to the next branch that isn't closed. Whether there is one.
    fn make(
        &mut self,
        alloc: Global,
        bank: &Bank,
        atoms: &LitTable,
        steps: &StepTable,
        witnesses: &Witnesses,
        used: &[usize],
        start: &[SatLit],
        nodes: u32,
        made: u32,
        place: usize,
    ) -> Result<bool, AllocError>
        requires rows { AreRows bank.now witnesses.now }
        requires atoms { All (IsAtom bank.now) atoms.now }
        requires used { All (IsUsable bank.now atoms.now (rows_of bank.now.terms witnesses.now) steps.now) used.now }
        requires path { IsPath (length atoms.now) steps.now used.now self.old.path }
        requires writing { IsWriting bank.now atoms.now witnesses.now self.old.writing }
        requires fewer { made < nodes }
        requires within { place < length used.now }
        requires next { position_or_len (is_due_at steps.now self.old.path.literals.keys) used.now ≡ place }
        requires ahead { IsAhead (the_used bank.now.terms atoms.now steps.now used.now) nodes start.now (atoms_at bank.now.terms atoms.now)
            made (reverse self.old.frames.items) self.old.path.literals.keys self.old.writing.lines }
        ensures path { OnOk result (IsPath (length atoms.now) steps.now used.now self.new.path) }
        ensures writing { OnOk result (IsWriting bank.now atoms.now witnesses.now self.new.writing) }
        ensures goes_on { IfOk result (WalkGoesOn (the_used bank.now.terms atoms.now steps.now used.now) nodes start.now
            (atoms_at bank.now.terms atoms.now) (made + 1) (reverse self.new.frames.items) self.new.path.literals.keys
            self.new.writing.lines) }
    {
        let frame = Frame {
            place,
            len: self.path.len(),
            children: Children::new(alloc),
        };
        self.frames.push(frame)?;
        self.advance(
            alloc,
            bank,
            atoms,
            steps,
            witnesses,
            used,
            start,
            nodes,
            made + 1,
        )
    }

    /// Walks from an open start to the end.
    pub(crate) fn grow(
        &mut self,
        alloc: Global,
        bank: &Bank,
        atoms: &LitTable,
        steps: &StepTable,
        witnesses: &Witnesses,
        used: &[usize],
        start: &[SatLit],
        nodes: u32,
    ) -> Result<Grown, AllocError>
        requires rows { AreRows bank.now witnesses.now }
        requires atoms { All (IsAtom bank.now) atoms.now }
        requires used { All (IsUsable bank.now atoms.now (rows_of bank.now.terms witnesses.now) steps.now) used.now }
        requires path { IsPath (length atoms.now) steps.now used.now self.old.path }
        requires writing { IsWriting bank.now atoms.now witnesses.now self.old.writing }
        requires ahead { IsAhead (the_used bank.now.terms atoms.now steps.now used.now) nodes start.now (atoms_at bank.now.terms atoms.now)
            0 (reverse self.old.frames.items) self.old.path.literals.keys self.old.writing.lines }
        ensures path { OnOk result (IsPath (length atoms.now) steps.now used.now self.new.path) }
        ensures writing { OnOk result (IsWriting bank.now atoms.now witnesses.now self.new.writing) }
        ensures comes { IfOk result (ComesTo (the_used bank.now.terms atoms.now steps.now used.now) nodes start.now
            (atoms_at bank.now.terms atoms.now) self.new.path.literals.keys self.new.writing.lines) }
    {
        for made in 0..nodes {
            match self.path.next(steps, used, atoms.len()) {
                None => return Ok(Grown::Open),
                Some(place) => {
                    if !self.make(
                        alloc, bank, atoms, steps, witnesses, used, start, nodes, made, place,
                    )? {
                        return Ok(Grown::Whole(made + 1));
                    }
                }
            }
        }
        match self.path.next(steps, used, atoms.len()) {
            None => Ok(Grown::Open),
            Some(_) => Ok(Grown::Over),
        }
    }

    /// The refutation of the lines that are written.
    pub(crate) fn into_refutation(
        self,
        alloc: Global,
        bank: &Bank,
        atoms: &LitTable,
        witnesses: &Witnesses,
    ) -> Result<SharedRefutation, AllocError>
        requires rows { AreRows bank.now witnesses.now }
        requires writing { IsWriting bank.now atoms.now witnesses.now self.writing }
        ensures lines { IfOk result (λ refutation. refutation.lines ≡ self.writing.lines) }
        ensures rows { IfOk result
            (λ refutation. refutation.witnesses ≡ take (rows_for_lines (rows_of bank.now.terms witnesses.now) refutation.lines)
            (rows_of bank.now.terms witnesses.now)) }
        ensures in_range { IfOk result AreNumbersInRange }
    {
        let Walk { writing, .. } = self;
        writing.finish(alloc, bank, atoms, witnesses)
    }

    /// The literals of the branch.
    pub(crate) fn branch(
        &mut self,
        alloc: Global,
        bank: &Bank,
        atoms: &LitTable,
        witnesses: &Witnesses,
    ) -> Result<SharedLits, AllocError>
        requires atoms { All (IsAtom bank.now) atoms.now }
        requires numbered { IsOver (length atoms.now) self.old.path.literals.keys }
        requires writing { IsWriting bank.now atoms.now witnesses.now self.old.writing }
        ensures { IfOk result (λ ls. ls ≡ literals_of (atoms_at bank.now.terms atoms.now) self.old.path.literals.keys) }
    {
        self.writing
            .literals(alloc, bank, atoms, witnesses, self.path.as_slice())
    }
}
