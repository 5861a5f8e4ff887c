//! Resolution chains.
ghost use Rattle.std.specs.Prelude.{◌≡◌, [], ◌∷◌, ◌++◌, length, IsTrue, ◌↔◌, OnOk, OnErr};

use sat_base::Var;
use std::alloc::{AllocError, Global};
use std::marker::Model;

/// What a step of a chain resolves with: a clause of a store or an earlier result of a log, by its number.
#[derive(Clone, Copy, PartialEq, Eq)]
pub enum Premise {
    Clause(usize),
    Result(usize),
}

/// Resolution on a variable, of what a chain has so far with a premise.
#[derive(Clone, Copy, PartialEq, Eq)]
pub struct ChainStep {
    pub var: Var,
    pub premise: Premise,
}

/// The steps of a chain, in their order.
#[derive(Drop)]
pub struct ChainSteps {
    steps: Vec<ChainStep>,
}

/// A premise to start with, and the steps from there.
#[derive(Drop)]
pub struct Chain {
    pub first: Premise,
    pub steps: ChainSteps,
}

impl Model for ChainSteps {
    ghost use Rattle.std.specs.Prelude.{List};
    ghost use Rattle.sat_log.specs.declared.chain.ChainStep.{ChainStep};

    ghost Value = { List ChainStep };

    ghost view = { λ steps. steps.steps.items };
}

impl ChainSteps {
    pub fn new(alloc: Global) -> Self
        ensures { result ≡ [] }
    {
        ChainSteps {
            steps: Vec::new(alloc),
        }
    }

    /// Appends a step.
    pub fn push(&mut self, step: ChainStep) -> Result<(), AllocError>
        ensures ok { OnOk result (self.new ≡ self.old ++ step ∷ []) }
        ensures err { OnErr result (self.new ≡ self.old) }
    {
        self.steps.push(step)?;
        Ok(())
    }

    pub fn len(&self) -> usize
        ensures { result ≡ length self.now }
    {
        self.steps.len()
    }

    pub fn is_empty(&self) -> bool
        ensures { IsTrue result ↔ (self.now ≡ []) }
    {
        self.steps.is_empty()
    }

    pub fn as_slice(&self) -> &[ChainStep]
        ensures { result.now ≡ self.now }
    {
        self.steps.as_slice()
    }
}
