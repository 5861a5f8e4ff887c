//! Closed terms that are checked to have a type before the bank gets them.

ghost use Rattle.std.specs.Prelude.{◌≡◌, ◌<◌, [], length, IfOk, OnOk, IsTrue};
ghost use Rattle.stt_core.specs.SimpleType.{SimpleType, arrow};
ghost use Rattle.stt_core.specs.View.{the_type};
ghost use Rattle.stt_core.specs.ScopeView.{the_scope};
ghost use Rattle.stt_core.specs.Typing.{IsScope};
ghost use Rattle.term_bank.specs.Content.{Grows};
ghost use Rattle.test_bank.specs.Individuals.{HasNoWitness};

use crate::refused::RowRefused;
use bank_normal::Normaliser;
use std::alloc::Global;
use stt_core::{Head, Nf, Nfs, Signature, Term, Ty, Types, type_of, type_of_closed};
use stt_normal::normalise;
use term_bank::{Bank, Id};

/// Functions over a head with arguments.
pub fn tree(binders: Types, head: Head, args: Nfs) -> Nf {
    Nf {
        binders,
        head,
        args,
    }
}

/// The number of a closed term.
pub fn imported(alloc: Global, bank: &mut Bank, nf: &Nf) -> Result<Id, RowRefused>
    requires { HasNoWitness bank.old }
    ensures within { IfOk result (λ id. id < length bank.new.terms) }
    ensures grows { OnOk result (Grows bank.old bank.new) }
{
    let none = Types::new(alloc);
    let Some(_) = type_of_closed(alloc, bank.sig(), &none, nf)? else {
        return Err(RowRefused::Untyped);
    };
    let id = bank.import(nf)?;
    Ok(id)
}

/// The number of the normal form of a closed term.
pub fn normalised(alloc: Global, bank: &mut Bank, term: &Term) -> Result<Id, RowRefused>
    requires { HasNoWitness bank.old }
    ensures within { IfOk result (λ id. id < length bank.new.terms) }
    ensures grows { OnOk result (Grows bank.old bank.new) }
{
    let none = Types::new(alloc);
    let Some(_) = type_of(alloc, bank.sig(), &none, &none, term)? else {
        return Err(RowRefused::Untyped);
    };
    let mut normal = Normaliser::new(alloc);
    let id = normal.normalise(bank, term)?;
    Ok(id)
}

/// The normal form of a closed term, as a tree.
pub fn tree_normalised(alloc: Global, sig: &Signature, term: &Term) -> Result<Nf, RowRefused>
    requires { IsScope (the_scope sig.now []) }
{
    let none = Types::new(alloc);
    let Some(_) = type_of(alloc, sig, &none, &none, term)? else {
        return Err(RowRefused::Untyped);
    };
    let nf = normalise(alloc, sig, &none, &none, term)?;
    Ok(nf)
}

/// Whether the type of the one term is that of functions of the other.
fn takes(function: &Ty, argument: &Ty) -> bool
    ensures { IsTrue result → (b : SimpleType) × (the_type function.now ≡ arrow (the_type argument.now) b) }
{
    match function {
        Ty::Arrow(wanted, _) => wanted.same(argument),
        Ty::Base(_) => false,
    }
}

/// The number of what a closed function gives at a closed argument.
pub fn applied(alloc: Global, bank: &mut Bank, function: Id, argument: Id) -> Result<Id, RowRefused>
    requires function { function < length bank.old.terms }
    requires argument { argument < length bank.old.terms }
    ensures within { IfOk result (λ id. id < length bank.new.terms) }
    ensures grows { OnOk result (Grows bank.old bank.new) }
{
    if !bank.is_closed(function) {
        return Err(RowRefused::Untyped);
    }
    if !bank.is_closed(argument) {
        return Err(RowRefused::Untyped);
    }
    let function_type = bank.ty(function)?;
    let argument_type = bank.ty(argument)?;
    if !takes(&function_type, &argument_type) {
        return Err(RowRefused::Untyped);
    }
    let mut normal = Normaliser::new(alloc);
    let id = normal.instantiate(bank, function, argument)?;
    Ok(id)
}
