//! The constants.

ghost use Rattle.std.specs.Prelude.{◌≡◌, [], ℕ, map, length, IfOk, OnOk};
ghost use Rattle.stt_core.specs.SimpleType.{base, arrow};
ghost use Rattle.stt_core.specs.Typing.{AreDeclared};
ghost use Rattle.stt_core.specs.View.{the_type};

use std::alloc::{AllocError, Global};
use stt_core::{Consts, Signature, Ty};

/// The letters of the constants, in the order of the signature.
pub const CONSTANTS: &[u8] = b"cedgpqrh";

/// `i > a`
fn from_individual(alloc: Global, outcome: Ty) -> Result<Ty, AllocError>
    ensures { IfOk result (λ ty. the_type ty ≡ arrow (base 1) (the_type outcome)) }
{
    Ty::function(alloc, Ty::Base(1), outcome)
}

/// `i > i > a`
fn from_two(alloc: Global, outcome: Ty) -> Result<Ty, AllocError>
    ensures { IfOk result (λ ty. the_type ty ≡ arrow (base 1) (arrow (base 1) (the_type outcome))) }
{
    from_individual(alloc, from_individual(alloc, outcome)?)
}

/// Declares the constants with their types.
fn declare(alloc: Global, consts: &mut Consts) -> Result<(), AllocError>
    requires { consts.old ≡ [] }
    ensures { OnOk result ((bases : ℕ) → AreDeclared bases (map (λ c. c.type) consts.new)) }
{
    consts.push(b"c", Ty::Base(1))?;
    consts.push(b"e", Ty::Base(1))?;
    consts.push(b"d", from_individual(alloc, Ty::Base(1))?)?;
    consts.push(b"g", from_two(alloc, Ty::Base(1))?)?;
    consts.push(b"p", Ty::Base(0))?;
    consts.push(b"q", Ty::Base(0))?;
    consts.push(b"r", from_individual(alloc, Ty::Base(0))?)?;
    consts.push(b"h", from_two(alloc, Ty::Base(0))?)?;
    Ok(())
}

/// The constants with their types.
pub fn signature(alloc: Global) -> Result<Signature, AllocError>
    ensures { IfOk result (λ sig. AreDeclared (length sig.bases) (map (λ c. c.type) sig.consts)) }
{
    let mut sig = Signature::new(alloc);
    declare(alloc, &mut sig.consts)?;
    Ok(sig)
}
