//! Why there is no instance.

use std::alloc::AllocError;
use thiserror::Error;

/// Why a rule gives no instance: it has none with these principals and this term, or memory ran out.
#[derive(Clone, Copy, Debug, PartialEq, Eq, Error)]
pub enum RuleRefused {
    #[error("the rule has no instance with these principals and this term")]
    NotThisRule,
    #[error("no memory is left")]
    Memory,
}

impl From<AllocError> for RuleRefused {
    ghost use Rattle.std.specs.Prelude.{◌≡◌};
    ghost use Rattle.tableau_rules.specs.declared.refusal.RuleRefused.TheVariants.{Memory};

    ghost from_gives = { λ _ e. e ≡ Memory };

    fn from(_: AllocError) -> RuleRefused {
        RuleRefused::Memory
    }
}
