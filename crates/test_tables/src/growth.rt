//! Heads at the hole of a predicate on individuals, and terms that are listed by their types.
ghost use Rattle.std.specs.Prelude.{◌≡◌, [], ◌∷◌, IfOk, IsSome};
ghost use Rattle.stt_core.specs.SimpleType.{arrow, formula};
ghost use Rattle.stt_core.specs.Typing.{type_of};
ghost use Rattle.stt_core.specs.View.{the_type, the_head};
ghost use Rattle.term_bank.specs.Content.{content_scope};
ghost use Rattle.instantiate.specs.Internal.Cases.{one_constant, individual};

use crate::refusal::RowRefused;
use instantiate::{Enumerator, Grown, Partial};
use std::alloc::{AllocError, Global};
use stt_core::{Head, Signature, Ty};
use term_bank::{Bank, Id};

/// A bank over a signature that declares `c` of type `i` alone.
fn bank_of_one_constant(alloc: Global) -> Result<Bank, AllocError>
    ensures { IfOk result (λ bank. content_scope bank ≡ one_constant) }
{
    let mut sig = Signature::new(alloc);
    sig.consts.push(b"c", Ty::Base(1))?;
    Ok(Bank::new(alloc, sig))
}

/// The type of predicates on individuals.
fn predicate_type(alloc: Global) -> Result<Ty, AllocError>
    ensures { IfOk result (λ ty. the_type ty ≡ arrow individual formula) }
{
    Ty::function(alloc, Ty::Base(1), Ty::Base(0))
}

/// What the head gives in the hole of a predicate on individuals.
fn grown_with(alloc: Global, head: &Head) -> Result<Option<Grown>, AllocError>
    requires { IsSome (type_of one_constant (individual ∷ []) (the_head head.now)) }
{
    let mut bank = bank_of_one_constant(alloc)?;
    let partial = Partial::of_type(alloc, &predicate_type(alloc)?)?;
    Ok(Enumerator::new(alloc).grow(&mut bank, partial, head)?)
}

/// The head that a letter stands for: the constant, the variable, falsity or negation.
fn head_of(letter: &str) -> Result<Head, RowRefused>
    ensures { IfOk result (λ head. IsSome (type_of one_constant (individual ∷ []) (the_head head))) }
{
    match letter {
        "c" => Ok(Head::Name(0)),
        "0" => Ok(Head::Bound(0)),
        "F" => Ok(Head::False),
        "N" => Ok(Head::Not),
        _ => Err(RowRefused::Unread),
    }
}

/// Adds what the head gives.
pub fn write_grown(alloc: Global, letter: &str, out: &mut String) -> Result<(), RowRefused> {
    let head = head_of(letter)?;
    match grown_with(alloc, &head)? {
        Some(Grown::Term(id)) => write!(out, " = term {id}")?,
        Some(Grown::More(_)) => out.push_str(" = more")?,
        None => out.push_str(" = nothing")?,
    }
    Ok(())
}

/// Terms in the order in which they are added, each behind the number of its base type.
const TERMS: &[(u32, Id)] = &[(1, 7), (1, 3), (1, 7), (0, 7)];

/// Adds for each term whether it is new.
fn write_new(terms: &mut Enumerator, out: &mut String) -> Result<(), AllocError> {
    for (base, id) in TERMS {
        let is_new = terms.add_term(&Ty::Base(*base), *id)?;
        write!(out, " {is_new}")?;
    }
    Ok(())
}

/// Adds the terms of a type.
fn write_listed(terms: &Enumerator, ty: &Ty, out: &mut String) -> Result<(), AllocError> {
    write!(out, " {:?}", terms.terms_of(ty))
}

/// Adds for each term whether it is new, and the terms of individuals and of predicates then.
pub fn write_terms(alloc: Global, out: &mut String) -> Result<(), AllocError> {
    let mut terms = Enumerator::new(alloc);
    write_new(&mut terms, out)?;
    write_listed(&terms, &Ty::Base(1), out)?;
    let predicates = predicate_type(alloc)?;
    write_listed(&terms, &predicates, out)
}
