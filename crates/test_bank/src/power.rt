//! Powers of Church numerals (Church, The Calculi of Lambda-Conversion, 1941).

ghost use Rattle.std.specs.Prelude.{[]};
ghost use Rattle.stt_core.specs.ScopeView.{the_scope};
ghost use Rattle.stt_core.specs.Typing.{IsScope};
ghost use Rattle.test_bank.specs.Individuals.{HasNoWitness};

use crate::checked::{normalised, tree_normalised};
use crate::found::Found;
use crate::refused::RowRefused;
use crate::scope::endo;
use std::alloc::{AllocError, Global};
use stt_core::{Signature, Term, Ty, size_sat};
use term_bank::Bank;

fn applied(alloc: Global, function: Term, argument: Term) -> Result<Term, AllocError> {
    let function = Box::new(alloc, function)?;
    let argument = Box::new(alloc, argument)?;
    Ok(Term::App(function, argument))
}

fn abstracted(alloc: Global, ty: Ty, body: Term) -> Result<Term, AllocError> {
    Ok(Term::Lam(ty, Box::new(alloc, body)?))
}

/// A function of these types, so many times over its argument.
fn numeral(alloc: Global, n: u32, function: Ty, argument: Ty) -> Result<Term, AllocError> {
    let mut body = Term::Bound(0);
    for _ in 0..n {
        body = applied(alloc, Term::Bound(1), body)?;
    }
    let inner = abstracted(alloc, argument, body)?;
    abstracted(alloc, function, inner)
}

/// `(i > i) > i > i`
fn iterator(alloc: Global) -> Result<Ty, AllocError> {
    Ty::function(alloc, endo(alloc)?, endo(alloc)?)
}

/// The exponent's numeral at that of the base.
fn power(alloc: Global, base: u32, exponent: u32) -> Result<Term, AllocError> {
    let iterated = numeral(alloc, exponent, iterator(alloc)?, endo(alloc)?)?;
    let iterating = numeral(alloc, base, endo(alloc)?, Ty::Base(1))?;
    applied(alloc, iterated, iterating)
}

/// How deep the power's normal form nests, worked out over a bank.
pub fn shared_power(
    alloc: Global,
    bank: &mut Bank,
    base: u32,
    exponent: u32,
) -> Result<Found, RowRefused>
    requires { HasNoWitness bank.old }
{
    let term = power(alloc, base, exponent)?;
    let id = normalised(alloc, bank, &term)?;
    Ok(Found::Depth(bank.depth(id)))
}

/// How many nodes the power's normal form has, worked out as a whole tree.
pub fn plain_power(
    alloc: Global,
    sig: &Signature,
    base: u32,
    exponent: u32,
) -> Result<Found, RowRefused>
    requires { IsScope (the_scope sig.now []) }
{
    let term = power(alloc, base, exponent)?;
    let nf = tree_normalised(alloc, sig, &term)?;
    Ok(Found::Nodes(size_sat(&nf)))
}
