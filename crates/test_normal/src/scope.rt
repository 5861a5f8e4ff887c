//! What the terms are over.

ghost use Rattle.std.specs.Prelude.{◌≡◌, [], ◌∷◌, map, IfOk, OnOk};
ghost use Rattle.stt_core.specs.SimpleType.{base, arrow};
ghost use Rattle.stt_core.specs.Typing.{IsScope};
ghost use Rattle.stt_core.specs.View.{the_type};
ghost use Rattle.stt_core.specs.ScopeView.{the_scope};

use std::alloc::{AllocError, Global};
use stt_core::{Consts, Signature, Ty, Types};

/// `i > i`
fn endo(alloc: Global) -> Result<Ty, AllocError>
    ensures { IfOk result (λ ty. the_type ty ≡ arrow (base 1) (base 1)) }
{
    Ty::function(alloc, Ty::Base(1), Ty::Base(1))
}

/// The type of the witness.
pub fn witness_types(alloc: Global) -> Result<Types, AllocError>
    ensures { IfOk result (λ types. types ≡ base 1 ∷ []) }
{
    let mut types = Types::new(alloc);
    types.push(Ty::Base(1))?;
    Ok(types)
}

/// The types of the free variables, that of `0` last.
pub fn variable_types(alloc: Global) -> Result<Types, AllocError>
    ensures { IfOk result (λ types. types ≡ base 1 ∷ arrow (base 1) (base 1) ∷ []) }
{
    let mut types = Types::new(alloc);
    types.push(Ty::Base(1))?;
    types.push(endo(alloc)?)?;
    Ok(types)
}

fn declare(alloc: Global, consts: &mut Consts) -> Result<(), AllocError>
    requires { consts.old ≡ [] }
    ensures { OnOk result (map (λ c. c.type) consts.new ≡ base 1 ∷ arrow (base 1) (base 1) ∷ arrow (arrow (base 1) (base 1)) (base 1)
        ∷ arrow (base 1) (arrow (base 1) (base 1)) ∷ []) }
{
    consts.push(b"c", Ty::Base(1))?;
    consts.push(b"d", endo(alloc)?)?;
    consts.push(b"f", Ty::function(alloc, endo(alloc)?, Ty::Base(1))?)?;
    consts.push(b"g", Ty::function(alloc, Ty::Base(1), endo(alloc)?)?)?;
    Ok(())
}

/// The constants.
pub fn signature(alloc: Global) -> Result<Signature, AllocError>
    ensures { IfOk result (λ sig. IsScope (the_scope sig (base 1 ∷ []))) }
{
    let mut sig = Signature::new(alloc);
    declare(alloc, &mut sig.consts)?;
    Ok(sig)
}
