//! Heads as keys: whether two heads are the same, and what of them is hashed.
ghost use Rattle.std.specs.Prelude.{◌≡◌, IfOk};
ghost use Rattle.std.proofs.Common.{ap};
ghost use Rattle.std.specs.Cmp.{decided, partial_equiv_from_equiv};
ghost use Rattle.stt_core.specs.SameTerm.{same_term};
ghost use Rattle.stt_core.specs.View.{the_head};
ghost use Rattle.term_bank.specs.Internal.ShapeHash.{head_writes};
ghost use Rattle.mating_rules.specs.Internal.Keys.{term_decides};

use std::alloc::{AllocError, Global};
use std::hash::{Hash, Hasher};
use std::marker::Model;
use stt_core::Head;
use term_bank::hash_head;

/// A head by which literals are found.
#[derive(Drop)]
pub(crate) struct Key {
    head: Head,
}

impl Model for Key {
    ghost use Rattle.stt_core.specs.Lambda.{Lambda};
    ghost use Rattle.stt_core.specs.Internal.LambdaCode.{lambda_code};
    ghost use Rattle.stt_core.specs.View.{the_head};

    ghost Value = { Lambda };

    ghost coded = { lambda_code };

    ghost view = { λ key. the_head key.head };
}

impl Key {
    pub(crate) fn new(alloc: Global, head: &Head) -> Result<Key, AllocError>
        ensures { IfOk result (λ key. key ≡ the_head head.now) }
    {
        Ok(Key {
            head: head.try_clone(alloc)?,
        })
    }
}

impl PartialEq for Key {
    ghost eq = { same_term };

    ghost laws = { partial_equiv_from_equiv (decided same_term term_decides) };

    fn eq(&self, other: &Key) -> bool {
        self.head.same(&other.head)
    }
}

impl Eq for Key {
    ghost laws = { decided same_term term_decides };
}

impl Hash for Key {
    ghost hash_input = { head_writes };

    ghost respects_eq = { λ a b h. ap head_writes ((term_decides a b).0 h) };

    fn hash<H: Hasher>(&self, state: &mut H) {
        hash_head(&self.head, state);
    }
}
