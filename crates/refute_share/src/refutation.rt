//! Refutations whose terms are shared.

ghost use Rattle.std.specs.Prelude.{◌≡◌, ◌<◌, ◌++◌, [], ◌∷◌, length, OnOk, OnErr, slice_get, Some, ◌^◌};

use crate::lit::{SharedLit, SharedLits};
use crate::term::SharedTerm;
use std::alloc::{AllocError, Global};
use std::marker::Model;
use std::rc::Rc;
use stt_core::Ty;
use tableau_calculus::{Children, RuleUse};

/// A rule with what its instance takes. A place counts from 0.
pub type SharedRule = RuleUse<usize, Rc<SharedTerm>, SharedLit>;

/// A line of a refutation: a branch, and the rule that closes it with the children.
#[derive(Drop)]
pub struct SharedLine {
    pub branch: SharedLits,
    pub rule: SharedRule,
    pub children: Children,
}

impl Model for SharedLine {
    ghost use Rattle.std.specs.Coded.{codes};
    ghost use Rattle.stt_core.specs.Internal.LambdaCode.{lambda_code};
    ghost use Rattle.tableau_calculus.specs.declared.refutation.Line.{Line};
    ghost use Rattle.tableau_calculus.specs.Internal.Codes.{literal_code};

    ghost Value = { Line };

    ghost coded = { Prim.hlevel (codes, lambda_code, literal_code) };

    ghost use Rattle.refute_share.specs.RuleView.{the_rule_use};

    ghost view = { λ l. record { branch = l.branch; rule = the_rule_use l.rule; children = l.children } };
}

/// The lines of a refutation. The last one closes the start.
#[derive(Drop)]
pub struct SharedLines {
    items: Vec<SharedLine>,
}

impl Model for SharedLines {
    ghost use Rattle.std.specs.Prelude.{List};
    ghost use Rattle.tableau_calculus.specs.declared.refutation.Line.{Line};
    ghost use Rattle.std.specs.Coded.{codes};
    ghost use Rattle.stt_core.specs.Internal.LambdaCode.{lambda_code};
    ghost use Rattle.tableau_calculus.specs.Internal.Codes.{literal_code};

    ghost Value = { List Line };

    ghost coded = { Prim.hlevel (codes, lambda_code, literal_code) };

    ghost view = { λ a. a.items.items };
}

impl SharedLines {
    pub fn new(alloc: Global) -> SharedLines
        ensures { result ≡ [] }
    {
        SharedLines {
            items: Vec::new(alloc),
        }
    }

    pub fn push(&mut self, line: SharedLine) -> Result<(), AllocError>
        ensures ok { OnOk result (self.new ≡ self.old ++ line ∷ []) }
        ensures err { OnErr result (self.new ≡ self.old) }
    {
        self.items.push(line)?;
        Ok(())
    }

    pub fn len(&self) -> usize
        ensures len { result ≡ length self.now }
        ensures small { result < 2 ^ 63 }
    {
        self.items.len()
    }

    /// The line at a place of the list.
    pub fn at(&self, i: usize) -> &SharedLine
        requires { i < length self.now }
        ensures { slice_get self.now i ≡ Some result.now }
    {
        &self.items[i]
    }
}

/// A row of a witness table: the witness has this type, and stands for a value at which the predicate doesn't hold, where there is one.
#[derive(Drop)]
pub struct SharedRow {
    pub ty: Ty,
    pub predicate: Rc<SharedTerm>,
}

impl Model for SharedRow {
    ghost use Rattle.stt_core.specs.View.{the_type};
    ghost use Rattle.tableau_calculus.specs.Witnesses.{Row};
    ghost use Rattle.tableau_calculus.specs.Internal.Codes.{row_code};

    ghost Value = { Row };

    ghost coded = { row_code };

    ghost view = { λ r. record { type = the_type r.ty; predicate = r.predicate.value } };
}

/// The rows of a witness table. Witness number k is that of row k.
#[derive(Drop)]
pub struct SharedRows {
    items: Vec<SharedRow>,
}

impl Model for SharedRows {
    ghost use Rattle.std.specs.Prelude.{List};
    ghost use Rattle.std.specs.Coded.{coded_list};
    ghost use Rattle.tableau_calculus.specs.Witnesses.{Row};
    ghost use Rattle.tableau_calculus.specs.Internal.Codes.{row_code};

    ghost Value = { List Row };

    ghost coded = { coded_list row_code };

    ghost view = { λ a. a.items.items };
}

impl SharedRows {
    pub fn new(alloc: Global) -> SharedRows
        ensures { result ≡ [] }
    {
        SharedRows {
            items: Vec::new(alloc),
        }
    }

    pub fn push(&mut self, row: SharedRow) -> Result<(), AllocError>
        ensures ok { OnOk result (self.new ≡ self.old ++ row ∷ []) }
        ensures err { OnErr result (self.new ≡ self.old) }
    {
        self.items.push(row)?;
        Ok(())
    }

    pub fn len(&self) -> usize
        ensures len { result ≡ length self.now }
        ensures small { result < 2 ^ 63 }
    {
        self.items.len()
    }

    /// The row at a place of the list.
    pub fn at(&self, i: usize) -> &SharedRow
        requires { i < length self.now }
        ensures { slice_get self.now i ≡ Some result.now }
    {
        &self.items[i]
    }
}

/// A refutation: a witness table, and lines, of which each names only earlier ones. Contracts see it as the refutation of trees that it
/// stands for.
#[derive(Drop)]
pub struct SharedRefutation {
    pub witnesses: SharedRows,
    pub lines: SharedLines,
}

impl Model for SharedRefutation {
    ghost use Rattle.std.specs.Coded.{codes};
    ghost use Rattle.stt_core.specs.Internal.LambdaCode.{lambda_code};
    ghost use Rattle.tableau_calculus.specs.declared.refutation.Refutation.{Refutation};
    ghost use Rattle.tableau_calculus.specs.Internal.Codes.{literal_code, row_code};

    ghost Value = { Refutation };

    ghost coded = { Prim.hlevel (codes, lambda_code, literal_code, row_code) };

    ghost view = { λ r. record { witnesses = r.witnesses; lines = r.lines } };
}
