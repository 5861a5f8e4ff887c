//! Literals by sign.
ghost use Rattle.std.specs.Prelude.{◌≡◌, [], ◌∷◌, ◌++◌, IfOk, OnOk, OnErr};
ghost use Rattle.mating_rules.specs.Noted.{of_sign};
ghost use Rattle.mating_rules.specs.Internal.Groups.{with_signed, lone_literal};

use sat_base::SatLit;
use std::alloc::{AllocError, Global};
use std::marker::Model;

/// Literals, the positive ones and the negative ones, each in the order in which they were noted.
#[derive(Drop)]
pub(crate) struct SignedLits {
    positive: Vec<SatLit>,
    negative: Vec<SatLit>,
}

impl Model for SignedLits {
    ghost use Rattle.mating_rules.specs.Noted.{Signed};
    ghost use Rattle.mating_rules.specs.Internal.NotesCode.{signed_code};

    ghost Value = { Signed };

    ghost coded = { signed_code };

    ghost view = { λ a. record { positive = a.positive.items; negative = a.negative.items } };
}

impl SignedLits {
    /// The list of one literal.
    pub(crate) fn of(alloc: Global, lit: SatLit) -> Result<SignedLits, AllocError>
        ensures { IfOk result (λ lits. lits ≡ lone_literal lit) }
    {
        let mut lits = SignedLits {
            positive: Vec::new(alloc),
            negative: Vec::new(alloc),
        };
        lits.push(lit)?;
        Ok(lits)
    }

    pub(crate) fn of_sign(&self, positive: bool) -> &[SatLit]
        ensures { result.now ≡ of_sign positive self.now }
    {
        if positive {
            self.positive.as_slice()
        } else {
            self.negative.as_slice()
        }
    }

    pub(crate) fn push(&mut self, lit: SatLit) -> Result<(), AllocError>
        ensures ok { OnOk result (self.new ≡ with_signed lit self.old) }
        ensures err { OnErr result (self.new ≡ self.old) }
    {
        if lit.positive {
            self.positive.push(lit)?;
        } else {
            self.negative.push(lit)?;
        }
        Ok(())
    }
}
