//! A tree with equal parts.

ghost use Rattle.test_bank.specs.Individuals.{HasNoWitness};

use crate::checked::{imported, tree};
use crate::found::Found;
use crate::refused::RowRefused;
use crate::scope::{C, F, G};
use std::alloc::{AllocError, Global};
use stt_core::{Head, Nf, Nfs, Types};
use term_bank::Bank;

/// `(g c)`
fn applied(alloc: Global) -> Result<Nf, AllocError> {
    let c = tree(Types::new(alloc), Head::Name(C), Nfs::new(alloc));
    let mut args = Nfs::new(alloc);
    args.push(c)?;
    Ok(tree(Types::new(alloc), Head::Name(G), args))
}

/// `(f (g c) (g c))`
fn with_equal_parts(alloc: Global) -> Result<Nf, AllocError> {
    let mut args = Nfs::new(alloc);
    args.push(applied(alloc)?)?;
    args.push(applied(alloc)?)?;
    Ok(tree(Types::new(alloc), Head::Name(F), args))
}

/// How many terms a bank has after a tree has come in once, and twice; 0 where it got another number.
fn counted(alloc: Global, bank: &mut Bank, whole: &Nf) -> Result<Found, RowRefused>
    requires { HasNoWitness bank.old }
{
    let first = imported(alloc, bank, whole)?;
    let count = bank.len();
    let again = imported(alloc, bank, whole)?;
    if first != again {
        return Ok(Found::TermsTwice(count, 0));
    }
    Ok(Found::TermsTwice(count, bank.len()))
}

/// How many terms a bank has after `(f (g c) (g c))` has come in once, and twice.
pub fn twice_imported(alloc: Global, bank: &mut Bank) -> Result<Found, RowRefused>
    requires { HasNoWitness bank.old }
{
    let whole = with_equal_parts(alloc)?;
    counted(alloc, bank, &whole)
}
