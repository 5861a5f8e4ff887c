//! Refutations of trees, in which nothing is shared.

ghost use Rattle.std.specs.Prelude.{◌≡◌, IfOk};
ghost use Rattle.refute_share.specs.RuleView.{the_rule_use};

use crate::lit::{SharedLit, SharedLits};
use crate::refutation::{
    SharedLine, SharedLines, SharedRefutation, SharedRow, SharedRows, SharedRule,
};
use crate::term::SharedTerm;
use std::alloc::{AllocError, Global};
use stt_core::{Nf, Nfs};
use tableau_calculus::{
    Children, Line, Lines, Lit, Lits, PlainRule, Refutation, Rows, RuleUse, WitnessRow,
};

impl SharedTerm {
    /// The term as a tree.
    pub fn to_plain(&self, alloc: Global) -> Result<Nf, AllocError>
        ensures { IfOk result (λ nf. nf ≡ self.now) }
    {
        let mut args = Nfs::new(alloc);
        for i in 0..self.args.len() {
            let argument = self.args.at(i).to_plain(alloc)?;
            args.push(argument)?;
        }
        Ok(Nf {
            binders: self.binders.try_clone(alloc)?,
            head: self.head.try_clone(alloc)?,
            args,
        })
    }
}

impl SharedLit {
    fn to_plain(&self, alloc: Global) -> Result<Lit, AllocError>
        ensures { IfOk result (λ l. l ≡ self.now) }
    {
        let atom = self.atom.to_plain(alloc)?;
        Ok(Lit {
            positive: self.positive,
            atom,
        })
    }
}

impl SharedLits {
    /// The list, each of whose literals is a tree.
    pub fn to_plain(&self, alloc: Global) -> Result<Lits, AllocError>
        ensures { IfOk result (λ ls. ls ≡ self.now) }
    {
        let mut lits = Lits::new(alloc);
        for i in 0..self.len() {
            lits.push(self.at(i).to_plain(alloc)?)?;
        }
        Ok(lits)
    }
}

/// The rule of trees.
fn plain_rule(alloc: Global, rule: &SharedRule) -> Result<PlainRule, AllocError>
    ensures { IfOk result (λ use'. use' ≡ the_rule_use rule.now) }
{
    match rule {
        RuleUse::AtOne(kind, i) => Ok(RuleUse::AtOne(*kind, *i)),
        RuleUse::AtTwo(kind, i, j) => Ok(RuleUse::AtTwo(*kind, *i, *j)),
        RuleUse::AllPos(i, term) => Ok(RuleUse::AllPos(*i, term.to_plain(alloc)?)),
        RuleUse::WithPredicate(kind, f) => Ok(RuleUse::WithPredicate(*kind, f.to_plain(alloc)?)),
        RuleUse::Cut(lit) => Ok(RuleUse::Cut(lit.to_plain(alloc)?)),
    }
}

/// A copy of the children.
fn copied(alloc: Global, children: &Children) -> Result<Children, AllocError>
    ensures { IfOk result (λ copy. copy ≡ children.now) }
{
    let mut copy = Children::new(alloc);
    for i in 0..children.len() {
        copy.push(children.at(i))?;
    }
    Ok(copy)
}

impl SharedLine {
    fn to_plain(&self, alloc: Global) -> Result<Line, AllocError>
        ensures { IfOk result (λ line. line ≡ self.now) }
    {
        Ok(Line {
            branch: self.branch.to_plain(alloc)?,
            rule: plain_rule(alloc, &self.rule)?,
            children: copied(alloc, &self.children)?,
        })
    }
}

impl SharedLines {
    fn to_plain(&self, alloc: Global) -> Result<Lines, AllocError>
        ensures { IfOk result (λ lines. lines ≡ self.now) }
    {
        let mut lines = Lines::new(alloc);
        for i in 0..self.len() {
            lines.push(self.at(i).to_plain(alloc)?)?;
        }
        Ok(lines)
    }
}

impl SharedRow {
    fn to_plain(&self, alloc: Global) -> Result<WitnessRow, AllocError>
        ensures { IfOk result (λ row. row ≡ self.now) }
    {
        Ok(WitnessRow {
            ty: self.ty.try_clone(alloc)?,
            predicate: self.predicate.to_plain(alloc)?,
        })
    }
}

impl SharedRows {
    fn to_plain(&self, alloc: Global) -> Result<Rows, AllocError>
        ensures { IfOk result (λ rows. rows ≡ self.now) }
    {
        let mut rows = Rows::new(alloc);
        for i in 0..self.len() {
            rows.push(self.at(i).to_plain(alloc)?)?;
        }
        Ok(rows)
    }
}

impl SharedRefutation {
    /// The refutation of trees. It takes as much memory as its text, times some fifty.
    pub fn to_plain(&self, alloc: Global) -> Result<Refutation, AllocError>
        ensures { IfOk result (λ refutation. refutation ≡ self.now) }
    {
        Ok(Refutation {
            witnesses: self.witnesses.to_plain(alloc)?,
            lines: self.lines.to_plain(alloc)?,
        })
    }
}
