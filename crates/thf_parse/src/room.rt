//! How many more things may be open at once.
ghost use Rattle.std.specs.Prelude.{◌≡◌, suc, IfErr, IfOk, OnErr};
ghost use Rattle.thf_parse.specs.declared.refusal.Refusal.TheVariants.{TooDeep};

use crate::refusal::Refusal;

/// The room within one more thing that is open.
pub fn deeper(room: u32) -> Result<u32, Refusal>
    ensures counted { IfOk result (λ inner. room ≡ suc inner) }
    ensures full { OnErr result (room ≡ 0) }
    ensures told { IfErr result (λ refusal. refusal ≡ TooDeep) }
{
    if room == 0 {
        return Err(Refusal::TooDeep);
    }
    Ok(room - 1)
}
