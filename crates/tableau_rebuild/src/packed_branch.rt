//! Branches in four bytes a literal.
ghost use Rattle.std.specs.Prelude.{◌≡◌, IfOk, OnOk};

use sat_base::SatLit;
use sat_propagate::Packed;
use std::alloc::{AllocError, Global};
use std::marker::Model;

/// A branch in four bytes a literal, with no more room than it needs.
#[derive(Drop)]
pub(crate) struct PackedBranch {
    literals: Vec<Packed>,
}

impl Model for PackedBranch {
    ghost use Rattle.std.specs.Prelude.{List};
    ghost use Rattle.sat_base.specs.declared.literal.SatLit.{SatLit};

    ghost Value = { List SatLit };

    ghost view = { λ b. b.literals.items };
}

impl PackedBranch {
    /// The branch of these literals. There is no room for variables from 2^31 on.
    pub(crate) fn of(alloc: Global, literals: &[SatLit]) -> Result<PackedBranch, AllocError>
        ensures { IfOk result (λ branch. branch ≡ literals.now) }
    {
        let mut packed = Vec::with_capacity(alloc, literals.len())?;
        for literal in literals {
            packed.push(Packed::of(*literal)?)?;
        }
        Ok(PackedBranch { literals: packed })
    }

    /// Writes the literals over those of a list.
    pub(crate) fn unpack_to(&self, literals: &mut Vec<SatLit>) -> Result<(), AllocError>
        ensures { OnOk result (literals.new.items ≡ self.now) }
    {
        literals.clear();
        for packed in &self.literals {
            literals.push(packed.literal())?;
        }
        Ok(())
    }
}
