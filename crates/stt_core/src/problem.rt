//! Problems.

ghost use Rattle.std.specs.Prelude.{◌≡◌, ◌<◌, ◌++◌, [], ◌∷◌, length, OnOk, OnErr, option_map, slice_get};
ghost use Rattle.stt_core.specs.View.{the_term};

use crate::flags::Flags;
use crate::signature::Signature;
use crate::term::Term;
use std::alloc::{AllocError, Global};
use std::marker::Model;

/// A list of terms.
#[derive(Drop)]
pub struct Terms {
    items: Vec<Term>,
}

impl Model for Terms {
    ghost use Rattle.std.specs.Prelude.{List, map};
    ghost use Rattle.std.specs.Coded.{coded_list};
    ghost use Rattle.stt_core.specs.Lambda.{Lambda};
    ghost use Rattle.stt_core.specs.Internal.LambdaCode.{lambda_code};
    ghost use Rattle.stt_core.specs.View.{the_term};

    ghost Value = { List Lambda };

    ghost coded = { coded_list lambda_code };

    ghost view = { λ a. map the_term a.items.items };
}

impl Terms {
    pub fn new(alloc: Global) -> Terms
        ensures { result ≡ [] }
    {
        Terms {
            items: Vec::new(alloc),
        }
    }

    pub fn push(&mut self, term: Term) -> Result<(), AllocError>
        ensures ok { OnOk result (self.new ≡ self.old ++ the_term term ∷ []) }
        ensures err { OnErr result (self.new ≡ self.old) }
    {
        self.items.push(term)?;
        Ok(())
    }

    pub fn len(&self) -> usize
        ensures { result ≡ length self.now }
    {
        self.items.len()
    }

    pub fn get(&self, i: usize) -> Option<&Term>
        ensures { option_map (λ t. the_term t.now) result ≡ slice_get self.now i }
    {
        self.items.get(i)
    }

    /// The term at a place of the list.
    pub fn at(&self, i: usize) -> &Term
        requires { i < length self.now }
        ensures { slice_get self.now i ≡ Some (the_term result.now) }
    {
        &self.items[i]
    }
}

/// A problem: the formulas that it assumes, in order, a mark for each of them that tells whether it is stated as a definition, and its
/// conjecture, where it has one. Contracts see it as plain data.
#[derive(Drop)]
pub struct Problem {
    pub signature: Signature,
    pub assumed: Terms,
    pub marked: Flags,
    pub conjecture: Option<Term>,
}

impl Model for Problem {
    ghost use Rattle.std.specs.Prelude.{option_map};
    ghost use Rattle.stt_core.specs.PlainProblem.{PlainProblem};
    ghost use Rattle.stt_core.specs.Internal.ProblemCode.{problem_code};
    ghost use Rattle.stt_core.specs.View.{the_term};

    ghost Value = { PlainProblem };

    ghost coded = { problem_code };

    ghost view = { λ p. record { declared = record { bases = p.signature.bases; consts = p.signature.consts }; assumed = p.assumed; marked = p.marked; conjecture = option_map the_term p.conjecture } };
}
