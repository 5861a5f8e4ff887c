//! Canonical forms.

ghost use Rattle.std.specs.Prelude.{◌<◌, length, IfOk, OnOk};
ghost use Rattle.term_bank.specs.Content.{Grows};
ghost use Rattle.test_bank.specs.Individuals.{HasNoWitness};

use crate::checked::{applied, imported, normalised, tree};
use crate::found::Found;
use crate::refused::RowRefused;
use crate::scope::{C, K, endo};
use std::alloc::{AllocError, Global};
use stt_core::{Head, Nf, Nfs, Term, Ty, Types};
use term_bank::{Bank, Id};

/// Functions of individuals, over a head without arguments.
fn constantly(alloc: Global, binders: usize, head: Head) -> Result<Nf, AllocError> {
    let mut types = Types::new(alloc);
    for _ in 0..binders {
        types.push(Ty::Base(1))?;
    }
    Ok(tree(types, head, Nfs::new(alloc)))
}

/// The number of functions of individuals, over a head without arguments.
fn imported_constantly(
    alloc: Global,
    bank: &mut Bank,
    binders: usize,
    head: Head,
) -> Result<Id, RowRefused>
    requires { HasNoWitness bank.old }
    ensures within { IfOk result (λ id. id < length bank.new.terms) }
    ensures grows { OnOk result (Grows bank.old bank.new) }
{
    let nf = constantly(alloc, binders, head)?;
    imported(alloc, bank, &nf)
}

/// Whether `^i.^i.#1` gives `^i.c` at `c`.
pub fn outcome_is_constant(alloc: Global, bank: &mut Bank) -> Result<Found, RowRefused>
    requires { HasNoWitness bank.old }
{
    let function = imported_constantly(alloc, bank, 2, Head::Bound(1))?;
    let argument = imported_constantly(alloc, bank, 0, Head::Name(C))?;
    let made = applied(alloc, bank, function, argument)?;
    let wanted = imported_constantly(alloc, bank, 1, Head::Name(C))?;
    Ok(Found::Same(bank.same(made, wanted)))
}

/// `^(i > i).(k ^i.(#1 #0))`
fn long_function(alloc: Global) -> Result<Nf, AllocError> {
    let mut inner = Nfs::new(alloc);
    inner.push(constantly(alloc, 0, Head::Bound(0))?)?;
    let mut individual = Types::new(alloc);
    individual.push(Ty::Base(1))?;
    let mut outer = Nfs::new(alloc);
    outer.push(tree(individual, Head::Bound(1), inner))?;
    let mut functions = Types::new(alloc);
    functions.push(endo(alloc)?)?;
    Ok(tree(functions, Head::Name(K), outer))
}

/// Whether the normal form of `k` is `^(i > i).(k ^i.(#1 #0))`.
pub fn function_is_long(alloc: Global, bank: &mut Bank) -> Result<Found, RowRefused>
    requires { HasNoWitness bank.old }
{
    let made = normalised(alloc, bank, &Term::Name(K))?;
    let tree = long_function(alloc)?;
    let wanted = imported(alloc, bank, &tree)?;
    Ok(Found::Same(bank.same(made, wanted)))
}
