//! Reads terms.

ghost use Rattle.std.specs.Prelude.{◌≡◌, ◌<◌, ◌^◌, option_map, IfSome, length};
ghost use Rattle.refute_print.specs.Trees.{bound, constant, witness, all, equality, choice, description};
ghost use Rattle.refute_text.specs.Internal.Reader.{number_at, type_at};
ghost use Rattle.refute_text.specs.Internal.TermReader.{named_head_at, bracketed_at, bracketed_type_at, dollar_head_at, head_text_at, arguments_at, application_at, lambda_at, term_text_at};
ghost use Rattle.refute_text.specs.Internal.Refusals.{AnswersReader};
ghost use Rattle.refute_print.specs.View.{the_text_type};
ghost use Rattle.refute_print.specs.TreeView.{the_text_head};

use crate::read_name::{behind, name, number};
use crate::read_type::{TypeRead, expect, read_type};
use crate::refusal::Refusal;
use refute_print::{TextHead, TextNode, TextTerm, TextTerms};
use std::alloc::Global;

/// A number below 2^32, and what follows it.
#[derive(Drop)]
pub(crate) struct IndexRead<'a> {
    pub index: u32,
    pub rest: &'a [u8],
}

pub(crate) fn index(bytes: &[u8]) -> Result<IndexRead<'_>, Refusal>
    ensures { AnswersReader (λ r. (r.index, r.rest.now)) result (number_at (2 ^ 32) bytes.now) }
{
    match number(0xffff_ffff, bytes) {
        Some(read) => Ok(IndexRead {
            index: read.number as u32,
            rest: read.rest,
        }),
        None => Err(Refusal::Form),
    }
}

/// A head, and what follows it.
#[derive(Drop)]
struct HeadRead<'a> {
    head: TextHead,
    rest: &'a [u8],
}

fn named_head(alloc: Global, bytes: &[u8]) -> Result<HeadRead<'_>, Refusal>
    ensures { AnswersReader (λ r. (the_text_head r.head, r.rest.now)) result (named_head_at bytes.now) }
{
    let read = name(alloc, bytes)?;
    Ok(HeadRead {
        head: TextHead::Name(read.name),
        rest: read.rest,
    })
}

/// A type, and what follows the bracket that closes it.
fn bracketed(alloc: Global, depth: u32, bytes: &[u8]) -> Result<TypeRead<'_>, Refusal>
    ensures { AnswersReader (λ r. (the_text_type r.ty, r.rest.now)) result (bracketed_type_at depth bytes.now) }
{
    if depth == 0 {
        return Err(Refusal::Form);
    }
    let read = read_type(alloc, depth - 1, bytes)?;
    let rest = expect(b"]", read.rest)?;
    Ok(TypeRead { ty: read.ty, rest })
}

/// A head behind its `$`.
#[tactic(auto, unfolding(crate::specs::Internal::TermReader::dollar_head_at))]
fn dollar_head(alloc: Global, depth: u32, bytes: &[u8]) -> Result<HeadRead<'_>, Refusal>
    ensures { AnswersReader (λ r. (the_text_head r.head, r.rest.now)) result (dollar_head_at depth bytes.now) }
{
    let (head, rest) = if let Some(rest) = behind(b"f", bytes) {
        (TextHead::False, rest)
    } else if let Some(rest) = behind(b"not", bytes) {
        (TextHead::Not, rest)
    } else if let Some(rest) = behind(b"imp", bytes) {
        (TextHead::Imp, rest)
    } else if let Some(rest) = behind(b"w", bytes) {
        let read = index(rest)?;
        (TextHead::Wit(read.index), read.rest)
    } else if let Some(rest) = behind(b"all[", bytes) {
        let read = bracketed(alloc, depth, rest)?;
        (TextHead::All(read.ty), read.rest)
    } else if let Some(rest) = behind(b"eq[", bytes) {
        let read = bracketed(alloc, depth, rest)?;
        (TextHead::Eq(read.ty), read.rest)
    } else if let Some(rest) = behind(b"eps[", bytes) {
        let read = bracketed(alloc, depth, rest)?;
        (TextHead::Choice(read.ty), read.rest)
    } else if let Some(rest) = behind(b"the[", bytes) {
        let read = bracketed(alloc, depth, rest)?;
        (TextHead::Desc(read.ty), read.rest)
    } else {
        return Err(Refusal::Form);
    };
    Ok(HeadRead { head, rest })
}

/// The head of a term.
#[tactic(auto, unfolding(crate::specs::Internal::TermReader::head_text_at))]
fn read_head(alloc: Global, depth: u32, bytes: &[u8]) -> Result<HeadRead<'_>, Refusal>
    ensures { AnswersReader (λ r. (the_text_head r.head, r.rest.now)) result (head_text_at depth bytes.now) }
{
    if let Some(rest) = behind(b"$", bytes) {
        return dollar_head(alloc, depth, rest);
    }
    let Some(rest) = behind(b"#", bytes) else {
        return named_head(alloc, bytes);
    };
    let read = index(rest)?;
    Ok(HeadRead {
        head: TextHead::Bound(read.index),
        rest: read.rest,
    })
}

/// A term, and what follows it.
#[derive(Drop)]
pub(crate) struct TermRead<'a> {
    pub term: TextTerm,
    pub rest: &'a [u8],
}

/// Terms, and what follows them.
#[derive(Drop)]
struct TermsRead<'a> {
    terms: TextTerms,
    rest: &'a [u8],
}

/// Arguments, each behind a space.
#[cycle(read_term)]
fn arguments(alloc: Global, depth: u32, bytes: &[u8]) -> Result<TermsRead<'_>, Refusal>
    ensures { AnswersReader (λ r. (r.terms, r.rest.now)) result (arguments_at (term_text_at depth) (length bytes.now) bytes.now) }
{
    let mut terms = TextTerms::new(alloc);
    let mut rest = bytes;
    while let Some(more) = behind(b" ", rest) {
        match read_term(alloc, depth, more) {
            Ok(read) => {
                terms.push(read.term)?;
                rest = read.rest;
            }
            Err(refusal) => return Err(refusal),
        }
    }
    Ok(TermsRead { terms, rest })
}

/// A head with arguments, and the parenthesis that closes them.
#[cycle(read_term)]
fn application(alloc: Global, depth: u32, bytes: &[u8]) -> Result<TermRead<'_>, Refusal>
    ensures { AnswersReader (λ r. (r.term, r.rest.now)) result (application_at depth (term_text_at depth) bytes.now) }
{
    let head = read_head(alloc, depth, bytes)?;
    let args = arguments(alloc, depth, head.rest)?;
    let rest = expect(b")", args.rest)?;
    if args.terms.len() == 0 {
        return Err(Refusal::Form);
    }
    let node = TextNode::App(head.head, args.terms);
    Ok(TermRead {
        term: TextTerm { node },
        rest,
    })
}

/// The type and the body of a function.
#[cycle(read_term)]
fn function(alloc: Global, depth: u32, bytes: &[u8]) -> Result<TermRead<'_>, Refusal>
    ensures { AnswersReader (λ r. (r.term, r.rest.now)) result (lambda_at depth (term_text_at depth) bytes.now) }
{
    let ty = read_type(alloc, depth, bytes)?;
    let rest = expect(b".", ty.rest)?;
    let body = read_term(alloc, depth, rest)?;
    let node = TextNode::Lam(ty.ty, Box::new(alloc, body.term)?);
    Ok(TermRead {
        term: TextTerm { node },
        rest: body.rest,
    })
}

/// A term in which at most so many parentheses, brackets and functions are open at once.
#[cycle(read_term)]
#[tactic(auto, unfolding(crate::specs::Internal::TermReader::term_text_at))]
pub(crate) fn read_term(alloc: Global, depth: u32, bytes: &[u8]) -> Result<TermRead<'_>, Refusal>
    ensures { AnswersReader (λ r. (r.term, r.rest.now)) result (term_text_at depth bytes.now) }
{
    if let Some(rest) = behind(b"^", bytes) {
        if depth == 0 {
            return Err(Refusal::Form);
        }
        return function(alloc, depth - 1, rest);
    }
    if let Some(rest) = behind(b"(", bytes) {
        if depth == 0 {
            return Err(Refusal::Form);
        }
        return application(alloc, depth - 1, rest);
    }
    let read = read_head(alloc, depth, bytes)?;
    let node = TextNode::App(read.head, TextTerms::new(alloc));
    Ok(TermRead {
        term: TextTerm { node },
        rest: read.rest,
    })
}
