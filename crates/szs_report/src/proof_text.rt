//! The text of a refutation that is kept until it is written.

ghost use Rattle.std.specs.Prelude.{◌≡◌, ◌≤◌, ◌++◌, IfOk, OnOk, OnErr, IsTrue};
ghost use Rattle.outside.specs.Causes.{Rose};
ghost use Rattle.outside.specs.Prefix.{AppendsProperly};
ghost use Rattle.refute_print.specs.Text.{text_lines, as_bytes};
ghost use Rattle.refute_print.specs.Named.{names_of, named_refutation, IsNamed, ArePlaces};

use outside::{Failed, Sink};
use refute_share::{SharedRefutation, write_shared_text};
use std::alloc::{AllocError, Global};
use std::marker::Model;
use stt_core::Signature;

/// The lines between the marks of a refutation, as the refutation and what its names come from. The bytes are made as they are written.
#[derive(Drop)]
pub struct ProofText {
    sig: Signature,
    taken: Vec<u32>,
    refutation: SharedRefutation,
}

impl Model for ProofText {
    ghost use Rattle.std.specs.Prelude.{List, ℕ};
    ghost use Rattle.refute_print.specs.Text.{text_lines, as_bytes};
    ghost use Rattle.refute_print.specs.Named.{names_of, named_refutation, IsNamed, ArePlaces};

    ghost Value = { List ℕ };

    ghost view = { λ t. as_bytes (text_lines (named_refutation (names_of t.sig.bases t.sig.consts) t.taken.items t.refutation)) };

    ghost invariant = { λ t. ArePlaces (names_of t.sig.bases t.sig.consts) t.taken.items
        × IsNamed (names_of t.sig.bases t.sig.consts) t.refutation };
}

impl ProofText {
    /// Keeps the refutation, with the names of the definitions that are taken, and copies the signature.
    pub fn new(
        alloc: Global,
        sig: &Signature,
        taken: &[u32],
        refutation: SharedRefutation,
    ) -> Result<ProofText, AllocError>
        requires places { ArePlaces (names_of sig.now.bases sig.now.consts) taken.now }
        requires named { IsNamed (names_of sig.now.bases sig.now.consts) refutation }
        ensures { IfOk result
            (λ text. text ≡ as_bytes (text_lines (named_refutation (names_of sig.now.bases sig.now.consts) taken.now refutation))) }
    {
        Ok(ProofText {
            sig: sig.try_clone(alloc)?,
            taken: Vec::from_slice(alloc, taken)?,
            refutation,
        })
    }

    /// Writes the text. It takes no memory.
    pub fn write_to<S: Sink>(&self, out: &mut S) -> Result<(), Failed>
        ensures appended { OnOk result (IsTrue (S.tells out.old)
            → S.written out.new ≡ S.written out.old ++ self.now) }
        ensures failed { OnErr result (IsTrue (S.tells out.old)
            → AppendsProperly (S.written out.old) (S.written out.new) self.now) }
        ensures quiet { OnOk result (S.faults out.new ≡ S.faults out.old) }
        ensures cause { OnErr result (Rose (S.faults out.old) (S.faults out.new)) }
        ensures later { S.faults out.old ≤ S.faults out.new }
        ensures telling { IsTrue (S.tells out.old) → IsTrue (S.tells out.new) }
    {
        write_shared_text(&self.sig, &self.taken, &self.refutation, out)
    }
}
