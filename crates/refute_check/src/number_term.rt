//! Types and terms of a text, with numbers in place of their names.

ghost use Rattle.std.specs.Prelude.{◌≡◌, ◌+◌, IfOk, map};
ghost use Rattle.stt_core.specs.Lambda.{lambdas};
ghost use Rattle.stt_core.specs.View.{the_type as plain_type, the_head as plain_head};
ghost use Rattle.refute_print.specs.View.{the_text_type};
ghost use Rattle.refute_print.specs.TreeView.{the_text_head};
ghost use Rattle.refute_check.specs.Numbered.{numbered_type, numbered_term};

use crate::numbering::Numbering;
use refute_print::{TextHead, TextNode, TextTerm, TextTerms, TextTy};
use std::alloc::{AllocError, Global};
use stt_core::{Head, Nf, Nfs, Ty, Types};

/// The number in 32 bits. A list of more names than these can count is taken as one that doesn't fit in memory.
fn fitting(n: usize) -> Result<u32, AllocError>
    ensures { IfOk result (λ k. k ≡ n) }
{
    match u32::try_from(n) {
        Ok(k) => Ok(k),
        Err(_) => Err(AllocError),
    }
}

/// The number of the base type at the place, behind `$o` and `$i`.
fn base_number(place: usize) -> Result<u32, AllocError>
    ensures { IfOk result (λ k. k ≡ place + 2) }
{
    match place.checked_add(2) {
        Some(n) => Ok(fitting(n)?),
        None => Err(AllocError),
    }
}

/// The type, with a number for each name.
pub(crate) fn number_type(
    alloc: Global,
    numbering: &Numbering<'_>,
    ty: &TextTy,
) -> Result<Ty, AllocError>
    ensures { IfOk result (λ a. plain_type a ≡ numbered_type numbering.now (the_text_type ty.now)) }
{
    match ty {
        TextTy::Form => Ok(Ty::Base(0)),
        TextTy::Indiv => Ok(Ty::Base(1)),
        TextTy::Named(name) => Ok(Ty::Base(base_number(numbering.base(name.as_slice()))?)),
        TextTy::Arrow(argument, outcome) => {
            let argument = number_type(alloc, numbering, argument)?;
            let outcome = number_type(alloc, numbering, outcome)?;
            Ok(Ty::function(alloc, argument, outcome)?)
        }
    }
}

/// The head, with a number for each name.
fn number_head(
    alloc: Global,
    numbering: &Numbering<'_>,
    head: &TextHead,
) -> Result<Head, AllocError>
    ensures { IfOk result (λ h. plain_head h ≡ numbered_term numbering.now (the_text_head head.now)) }
{
    match head {
        TextHead::Bound(k) => Ok(Head::Bound(*k)),
        TextHead::Name(name) => Ok(Head::Name(fitting(numbering.constant(name.as_slice()))?)),
        TextHead::Wit(k) => Ok(Head::Wit(*k)),
        TextHead::False => Ok(Head::False),
        TextHead::Not => Ok(Head::Not),
        TextHead::Imp => Ok(Head::Imp),
        TextHead::All(ty) => Ok(Head::All(number_type(alloc, numbering, ty)?)),
        TextHead::Eq(ty) => Ok(Head::Eq(number_type(alloc, numbering, ty)?)),
        TextHead::Choice(ty) => Ok(Head::Choice(number_type(alloc, numbering, ty)?)),
        TextHead::Desc(ty) => Ok(Head::Desc(number_type(alloc, numbering, ty)?)),
    }
}

/// The terms, with a number for each name.
#[cycle(number)]
fn number_terms(
    alloc: Global,
    numbering: &Numbering<'_>,
    terms: &TextTerms,
) -> Result<Nfs, AllocError>
    ensures { IfOk result (λ nfs. nfs ≡ map (numbered_term numbering.now) terms.now) }
{
    let mut nfs = Nfs::new(alloc);
    for i in 0..terms.len() {
        let nf = number_under(alloc, numbering, Types::new(alloc), terms.at(i))?;
        nfs.push(nf)?;
    }
    Ok(nfs)
}

/// The term, with a number for each name, under the binders.
#[cycle(number)]
fn number_under(
    alloc: Global,
    numbering: &Numbering<'_>,
    mut binders: Types,
    term: &TextTerm,
) -> Result<Nf, AllocError>
    ensures { IfOk result (λ nf. nf ≡ lambdas binders (numbered_term numbering.now term.now)) }
{
    match &term.node {
        TextNode::Lam(ty, body) => {
            let ty = number_type(alloc, numbering, ty)?;
            binders.push(ty)?;
            Ok(number_under(alloc, numbering, binders, body)?)
        }
        TextNode::App(head, args) => {
            let head = number_head(alloc, numbering, head)?;
            let args = number_terms(alloc, numbering, args)?;
            Ok(Nf {
                binders,
                head,
                args,
            })
        }
    }
}

/// The term, with a number for each name.
pub(crate) fn number_term(
    alloc: Global,
    numbering: &Numbering<'_>,
    term: &TextTerm,
) -> Result<Nf, AllocError>
    ensures { IfOk result (λ nf. nf ≡ numbered_term numbering.now term.now) }
{
    Ok(number_under(alloc, numbering, Types::new(alloc), term)?)
}
