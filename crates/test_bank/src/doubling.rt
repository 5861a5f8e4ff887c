//! Terms that double, forty times.

ghost use Rattle.std.specs.Prelude.{◌≡◌, [], ◌∷◌, ◌<◌, length, List, IfOk, OnOk};
ghost use Rattle.stt_core.specs.SimpleType.{SimpleType, base, arrow};
ghost use Rattle.term_bank.specs.Content.{Grows};
ghost use Rattle.test_bank.specs.Individuals.{NamesIndividuals, IsOf, IsIndividual};

use crate::found::Found;
use crate::refused::RowRefused;
use crate::scope::{C, F};
use bank_normal::Normaliser;
use std::alloc::{AllocError, Global};
use stt_core::{Head, Ty};
use term_bank::{Bank, Id};

/// `(f t t)` for an individual `t`.
fn double(bank: &mut Bank, term: Id) -> Result<Id, AllocError>
    requires names { NamesIndividuals bank.old }
    requires individual { IsIndividual bank.old term }
    ensures individual { IfOk result (λ id. (ctx : List SimpleType) → IsOf bank.old ctx (base 1) term → IsOf bank.new ctx (base 1) id) }
    ensures grows { Grows bank.old bank.new }
{
    let id = bank.intern_app(&Head::Name(F), &[term, term])?;
    Ok(id)
}

/// An individual that is doubled forty times.
fn double_often(bank: &mut Bank, term: Id) -> Result<Id, AllocError>
    requires names { NamesIndividuals bank.old }
    requires individual { IsIndividual bank.old term }
    ensures individual { IfOk result (λ id. (ctx : List SimpleType) → IsOf bank.old ctx (base 1) term → IsOf bank.new ctx (base 1) id) }
    ensures grows { OnOk result (Grows bank.old bank.new) }
{
    let mut last = term;
    for _ in 0..40 {
        last = double(bank, last)?;
    }
    Ok(last)
}

/// The constant `c`.
fn constant(bank: &mut Bank) -> Result<Id, AllocError>
    requires names { NamesIndividuals bank.old }
    ensures individual { IfOk result (IsOf bank.new [] (base 1)) }
    ensures grows { Grows bank.old bank.new }
{
    let id = bank.intern_app(&Head::Name(C), &[])?;
    Ok(id)
}

/// The variable with the next binder.
fn variable(bank: &mut Bank) -> Result<Id, AllocError>
    ensures individual { IfOk result (IsOf bank.new (base 1 ∷ []) (base 1)) }
    ensures grows { Grows bank.old bank.new }
{
    let id = bank.intern_app(&Head::Bound(0), &[])?;
    Ok(id)
}

/// The function with a body in which its argument may stand.
fn function(bank: &mut Bank, body: Id) -> Result<Id, AllocError>
    requires body { IsOf bank.old (base 1 ∷ []) (base 1) body }
    ensures function { IfOk result (IsOf bank.new [] (arrow (base 1) (base 1))) }
    ensures grows { Grows bank.old bank.new }
{
    let id = bank.intern_lam(&Ty::Base(1), body)?;
    Ok(id)
}

/// A function of an individual, whose argument stands forty times doubled.
fn doubling(bank: &mut Bank) -> Result<Id, AllocError>
    requires names { NamesIndividuals bank.old }
    ensures function { IfOk result (IsOf bank.new [] (arrow (base 1) (base 1))) }
    ensures grows { OnOk result (Grows bank.old bank.new) }
{
    let variable = variable(bank)?;
    let body = double_often(bank, variable)?;
    let id = function(bank, body)?;
    Ok(id)
}

/// How many terms a bank has after a constant was doubled forty times.
pub fn doubled(bank: &mut Bank) -> Result<Found, RowRefused>
    requires { NamesIndividuals bank.old }
{
    let c = constant(bank)?;
    let _last = double_often(bank, c)?;
    Ok(Found::Terms(bank.len()))
}

/// `(f s t)` for individuals `s` and `t`.
fn paired(bank: &mut Bank, first: Id, second: Id) -> Result<Id, AllocError>
    requires names { NamesIndividuals bank.old }
    requires first { IsOf bank.old [] (base 1) first }
    requires second { IsOf bank.old [] (base 1) second }
    ensures individual { IfOk result (IsOf bank.new [] (base 1)) }
    ensures grows { Grows bank.old bank.new }
{
    let id = bank.intern_app(&Head::Name(F), &[first, second])?;
    Ok(id)
}

/// How many terms a bank has after a constant and so many pairs, each of the two terms before it.
#[tactic(auto, using(crate::proofs::RowLaws::stays, crate::proofs::RowLaws::names_stay))]
pub fn interned(bank: &mut Bank, count: u64) -> Result<Found, RowRefused>
    requires { NamesIndividuals bank.old }
{
    let mut first = constant(bank)?;
    let mut second = first;
    for _ in 0..count {
        let pair = paired(bank, first, second)?;
        first = second;
        second = pair;
    }
    Ok(Found::Terms(bank.len()))
}

/// What a function of individuals gives at an individual.
fn instance(alloc: Global, bank: &mut Bank, function: Id, argument: Id) -> Result<Id, AllocError>
    requires function { IsOf bank.old [] (arrow (base 1) (base 1)) function }
    requires argument { IsOf bank.old [] (base 1) argument }
{
    let mut normal = Normaliser::new(alloc);
    let id = normal.instantiate(bank, function, argument)?;
    Ok(id)
}

/// How many terms a bank has after the function that doubles its argument forty times was applied to a constant.
pub fn doubled_at_constant(alloc: Global, bank: &mut Bank) -> Result<Found, RowRefused>
    requires { NamesIndividuals bank.old }
{
    let function = doubling(bank)?;
    let c = constant(bank)?;
    instance(alloc, bank, function, c)?;
    Ok(Found::Terms(bank.len()))
}
