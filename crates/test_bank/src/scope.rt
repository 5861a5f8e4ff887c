//! What the terms are over: `c` of type `i`, `g` of type `i > i`, `f` of type `i > i > i` and `k` of type `(i > i) > i`.

ghost use Rattle.std.specs.Prelude.{◌≡◌, IfOk};
ghost use Rattle.stt_core.specs.SimpleType.{base, arrow};
ghost use Rattle.stt_core.specs.View.{the_type};
ghost use Rattle.test_bank.specs.Individuals.{NamesIndividuals, HasNoWitness};

use std::alloc::{AllocError, Global};
use stt_core::{Signature, Ty};
use term_bank::Bank;

/// The places of the constants.
pub const C: u32 = 0;

pub const G: u32 = 1;

pub const F: u32 = 2;

pub const K: u32 = 3;

/// `i > i`
pub fn endo(alloc: Global) -> Result<Ty, AllocError>
    ensures { IfOk result (λ ty. the_type ty ≡ arrow (base 1) (base 1)) }
{
    Ty::function(alloc, Ty::Base(1), Ty::Base(1))
}

/// A bank without terms over the constants.
pub fn empty_bank(alloc: Global) -> Result<Bank, AllocError>
    ensures names { IfOk result NamesIndividuals }
    ensures witnesses { IfOk result HasNoWitness }
{
    let mut sig = Signature::new(alloc);
    sig.consts.push(b"c", Ty::Base(1))?;
    sig.consts.push(b"g", endo(alloc)?)?;
    sig.consts
        .push(b"f", Ty::function(alloc, Ty::Base(1), endo(alloc)?)?)?;
    sig.consts
        .push(b"k", Ty::function(alloc, endo(alloc)?, Ty::Base(1))?)?;
    Ok(Bank::new(alloc, sig))
}
