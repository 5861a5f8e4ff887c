//! Whether two terms are convertible.

ghost use Rattle.std.specs.Prelude.{◌↔◌, [], IfOk, IsTrue};
ghost use Rattle.stt_core.specs.View.{the_term};
ghost use Rattle.stt_core.specs.ScopeView.{the_scope};
ghost use Rattle.stt_core.specs.Typing.{IsScope};
ghost use Rattle.term_bank.specs.Content.{content_scope};
ghost use Rattle.bank_normal.specs.Right.{IsRightNormaliser};
ghost use Rattle.conv_laws.specs.Steps.{HaveOneType, AreConvertible};

use bank_normal::Normaliser;
use std::alloc::{AllocError, Global};
use stt_core::{Signature, Term};
use term_bank::Bank;

/// Whether two closed terms of one type over what a bank declares are convertible.
fn compare(
    bank: &mut Bank,
    normaliser: &mut Normaliser,
    s: &Term,
    t: &Term,
) -> Result<bool, AllocError>
    requires declared { IsScope (content_scope bank.old) }
    requires typed { HaveOneType (content_scope bank.old) [] (the_term s.now) (the_term t.now) }
    requires right { IsRightNormaliser normaliser.old bank.old }
    ensures { IfOk result (λ same. IsTrue same ↔ AreConvertible (content_scope bank.old) [] (the_term s.now) (the_term t.now)) }
{
    let first = normaliser.normalise(bank, s)?;
    let second = normaliser.normalise(bank, t)?;
    Ok(bank.same(first, second))
}

/// Whether two closed terms of one type over a signature are convertible: whether their normal forms are the same. These are worked out
/// and compared as shared terms, so they may be much larger than the terms.
pub fn convertible(alloc: Global, sig: &Signature, s: &Term, t: &Term) -> Result<bool, AllocError>
    requires declared { IsScope (the_scope sig.now []) }
    requires typed { HaveOneType (the_scope sig.now []) [] (the_term s.now) (the_term t.now) }
    ensures { IfOk result (λ same. IsTrue same ↔ AreConvertible (the_scope sig.now []) [] (the_term s.now) (the_term t.now)) }
{
    let sig = sig.try_clone(alloc)?;
    let mut bank = Bank::new(alloc, sig);
    let mut normaliser = Normaliser::new(alloc);
    compare(&mut bank, &mut normaliser, s, t)
}
