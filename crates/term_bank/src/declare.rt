//! What is declared: the signature, and the types of the witnesses.

ghost use Rattle.std.specs.Prelude.{◌≡◌, ◌<◌, ◌-◌, ◌^◌, [], ◌∷◌, ◌++◌, length, true, OnOk, OnErr};
ghost use Rattle.stt_core.specs.SimpleType.{is_declared};
ghost use Rattle.stt_core.specs.Typing.{IsScope};
ghost use Rattle.stt_core.specs.View.{the_type};
ghost use Rattle.term_bank.specs.Content.{content_scope};

use crate::bank::Bank;
use std::alloc::AllocError;
use stt_core::{Signature, Ty};

impl Bank {
    /// The signature that the bank was made over.
    pub fn sig(&self) -> &Signature
        ensures bases { result.now.bases ≡ self.now.bases }
        ensures consts { result.now.consts ≡ self.now.consts }
        ensures declared { IsScope (content_scope self.now) }
    {
        &self.sig
    }

    /// How many witnesses have a type.
    pub fn witness_types(&self) -> u32
        ensures { result ≡ length self.now.witnesses }
    {
        self.wits.len() as u32
    }

    /// Gives the next witness its type.
    pub fn add_witness(&mut self, ty: &Ty) -> Result<(), AllocError>
        requires declared { is_declared (length self.old.bases) (the_type ty.now) ≡ true }
        requires few { length self.old.witnesses < 2 ^ 32 - 1 }
        ensures ok { OnOk result
            (self.new ≡ record {
              bases = self.old.bases;
              consts = self.old.consts;
              witnesses = self.old.witnesses ++ the_type ty.now ∷ [];
              terms = self.old.terms;
            }) }
        ensures err { OnErr result (self.new ≡ self.old) }
    {
        let ty = ty.try_clone(self.alloc)?;
        self.wits.push(ty)?;
        Ok(())
    }
}
