//! Refutations: witness rows, and lines each of which closes a branch by a rule.

ghost use Rattle.std.specs.Prelude.{◌≡◌, ◌<◌, ◌++◌, [], ◌∷◌, length, OnOk, OnErr, slice_get, option_copied, ◌^◌};

use crate::lit::{Lit, Lits};
use crate::rule_use::RuleUse;
use std::alloc::{AllocError, Global};
use std::marker::Model;
use stt_core::{Nf, Ty};
use thiserror::Error;

/// What closes a branch with an alternative: a literal and its negation in it, or an earlier line by its number.
#[derive(Clone, Copy, PartialEq, Eq)]
pub enum Child {
    Closed,
    Line(usize),
}

/// The children of a line, one for each alternative.
#[derive(Drop)]
pub struct Children {
    items: Vec<Child>,
}

impl Model for Children {
    ghost use Rattle.std.specs.Prelude.{List};
    ghost use Rattle.tableau_calculus.specs.declared.refutation.Child.{Child};

    ghost Value = { List Child };

    ghost view = { λ a. a.items.items };
}

impl Children {
    pub fn new(alloc: Global) -> Children
        ensures { result ≡ [] }
    {
        Children {
            items: Vec::new(alloc),
        }
    }

    pub fn push(&mut self, child: Child) -> Result<(), AllocError>
        ensures ok { OnOk result (self.new ≡ self.old ++ child ∷ []) }
        ensures err { OnErr result (self.new ≡ self.old) }
    {
        self.items.push(child)?;
        Ok(())
    }

    pub fn len(&self) -> usize
        ensures { result ≡ length self.now }
    {
        self.items.len()
    }

    /// The child at a place of the list.
    pub fn at(&self, i: usize) -> Child
        requires { i < length self.now }
        ensures { slice_get self.now i ≡ Some result }
    {
        self.items[i]
    }
}

/// A rule's use in a line: principals by their places in the branch, canonical terms, literals.
pub type PlainRule = RuleUse<usize, Nf, Lit>;

/// A line of a refutation: a branch, and the rule that closes it with the children.
#[derive(Drop)]
pub struct Line {
    pub branch: Lits,
    pub rule: PlainRule,
    pub children: Children,
}

/// The lines of a refutation. The last one closes the start.
#[derive(Drop)]
pub struct Lines {
    items: Vec<Line>,
}

impl Model for Lines {
    ghost use Rattle.std.specs.Prelude.{List};
    ghost use Rattle.tableau_calculus.specs.declared.refutation.Line.{Line};
    ghost use Rattle.std.specs.Coded.{codes};
    ghost use Rattle.stt_core.specs.Internal.LambdaCode.{lambda_code};
    ghost use Rattle.tableau_calculus.specs.Internal.Codes.{literal_code};

    ghost Value = { List Line };

    ghost coded = { Prim.hlevel (codes, lambda_code, literal_code) };

    ghost view = { λ a. a.items.items };
}

impl Lines {
    pub fn new(alloc: Global) -> Lines
        ensures { result ≡ [] }
    {
        Lines {
            items: Vec::new(alloc),
        }
    }

    pub fn push(&mut self, line: Line) -> Result<(), AllocError>
        ensures ok { OnOk result (self.new ≡ self.old ++ line ∷ []) }
        ensures err { OnErr result (self.new ≡ self.old) }
    {
        self.items.push(line)?;
        Ok(())
    }

    pub fn len(&self) -> usize
        ensures len { result ≡ length self.now }
        ensures small { result < 2 ^ 63 }
    {
        self.items.len()
    }

    /// The line at a place, which counts from 0.
    pub fn get(&self, i: usize) -> Option<&Line>
        ensures { option_copied result ≡ slice_get self.now i }
    {
        self.items.get(i)
    }

    /// The line at a place of the list.
    pub fn at(&self, i: usize) -> &Line
        requires { i < length self.now }
        ensures { slice_get self.now i ≡ Some result.now }
    {
        &self.items[i]
    }
}

/// A row of a witness table: the witness has this type, and stands for a value at which the predicate doesn't hold, where there is one.
#[derive(Drop)]
pub struct WitnessRow {
    pub ty: Ty,
    pub predicate: Nf,
}

impl Model for WitnessRow {
    ghost use Rattle.stt_core.specs.View.{the_type};
    ghost use Rattle.tableau_calculus.specs.Witnesses.{Row};
    ghost use Rattle.tableau_calculus.specs.Internal.Codes.{row_code};

    ghost Value = { Row };

    ghost coded = { row_code };

    ghost view = { λ r. record { type = the_type r.ty; predicate = r.predicate } };
}

/// The rows of a witness table. Witness number k is that of row k.
#[derive(Drop)]
pub struct Rows {
    items: Vec<WitnessRow>,
}

impl Model for Rows {
    ghost use Rattle.std.specs.Prelude.{List};
    ghost use Rattle.std.specs.Coded.{coded_list};
    ghost use Rattle.tableau_calculus.specs.Witnesses.{Row};
    ghost use Rattle.tableau_calculus.specs.Internal.Codes.{row_code};

    ghost Value = { List Row };

    ghost coded = { coded_list row_code };

    ghost view = { λ a. a.items.items };
}

impl Rows {
    pub fn new(alloc: Global) -> Rows
        ensures { result ≡ [] }
    {
        Rows {
            items: Vec::new(alloc),
        }
    }

    pub fn push(&mut self, row: WitnessRow) -> Result<(), AllocError>
        ensures ok { OnOk result (self.new ≡ self.old ++ row ∷ []) }
        ensures err { OnErr result (self.new ≡ self.old) }
    {
        self.items.push(row)?;
        Ok(())
    }

    pub fn len(&self) -> usize
        ensures len { result ≡ length self.now }
        ensures small { result < 2 ^ 63 }
    {
        self.items.len()
    }

    /// The row at a place of the list.
    pub fn at(&self, i: usize) -> &WitnessRow
        requires { i < length self.now }
        ensures { slice_get self.now i ≡ Some result.now }
    {
        &self.items[i]
    }
}

/// A refutation: a witness table, and lines, of which each names only earlier ones.
#[derive(Drop)]
pub struct Refutation {
    pub witnesses: Rows,
    pub lines: Lines,
}

/// Why a refutation, or its text, isn't accepted.
#[derive(Clone, Copy, Debug, PartialEq, Eq, Error)]
pub enum Why {
    /// A line of the text isn't of the format.
    #[error("a wrong form")]
    Form,
    /// The text has no start line.
    #[error("no start line")]
    Start,
    /// The text has no end line.
    #[error("no end line")]
    End,
    /// A term isn't closed, or isn't canonical of the type that is wanted there.
    #[error("a term that isn't of the wanted type")]
    Typing,
    /// A row has the predicate of an earlier row.
    #[error("a second row with this predicate")]
    Twice,
    /// A line's rule is a cut, where none is allowed.
    #[error("a cut")]
    Cut,
    /// A line's rule doesn't fit what stands at its places in the branch, or a place isn't in the branch.
    #[error("a rule that doesn't fit")]
    Principal,
    /// A line hasn't one child for each alternative, or a child doesn't close the branch with its alternative.
    #[error("a child that doesn't close its alternative")]
    Child,
    /// A literal of the last line's branch isn't in the start, or there is no line.
    #[error("a last line that isn't about the start")]
    Last,
    /// The text names other definitions than those that are taken from the problem.
    #[error("a definition that isn't the one taken there")]
    Defs,
}
