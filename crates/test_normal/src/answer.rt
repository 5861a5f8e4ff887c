//! What is written for a line.

ghost use Rattle.std.specs.Prelude.{length};
ghost use Rattle.stt_core.specs.Typing.{IsScope, AreDeclared};
ghost use Rattle.stt_core.specs.ScopeView.{the_scope};

use crate::notation::{term_of, write_nf};
use anyhow::bail;
use std::alloc::{AllocError, Global};
use stt_core::{Nf, Signature, Term, Ty, Types, type_of, type_of_closed};
use stt_normal::{apply_nf, normalise};

fn normal_of(
    alloc: Global,
    sig: &Signature,
    wits: &Types,
    ctx: &Types,
    term: &Term,
) -> anyhow::Result<Nf>
    requires declared { IsScope (the_scope sig.now wits.now) }
    requires ctx_declared { AreDeclared (length sig.now.bases) ctx.now }
{
    match type_of(alloc, sig, wits, ctx, term)? {
        Some(_) => Ok(normalise(alloc, sig, wits, ctx, term)?),
        None => bail!("the term has no type"),
    }
}

/// The normal form of the term that a text stands for.
fn normal(
    alloc: Global,
    sig: &Signature,
    wits: &Types,
    ctx: &Types,
    text: &str,
) -> anyhow::Result<Nf>
    requires declared { IsScope (the_scope sig.now wits.now) }
    requires ctx_declared { AreDeclared (length sig.now.bases) ctx.now }
{
    let term = term_of(alloc, text)?;
    normal_of(alloc, sig, wits, ctx, &term)
}

/// What a closed canonical function gives at a closed canonical argument.
fn applied(alloc: Global, sig: &Signature, wits: &Types, f: &Nf, a: &Nf) -> anyhow::Result<Nf> {
    let Some(Ty::Arrow(argument, _)) = type_of_closed(alloc, sig, wits, f)? else {
        bail!("this is no function");
    };
    let Some(ty) = type_of_closed(alloc, sig, wits, a)? else {
        bail!("the argument has no type");
    };
    if !argument.same(&ty) {
        bail!("the argument has another type");
    }
    Ok(apply_nf(alloc, f, a)?)
}

/// The normal form of the closed term that a text stands for.
fn closed(alloc: Global, sig: &Signature, wits: &Types, text: &str) -> anyhow::Result<Nf>
    requires { IsScope (the_scope sig.now wits.now) }
{
    normal(alloc, sig, wits, &Types::new(alloc), text)
}

fn answer_with_argument(
    alloc: Global,
    sig: &Signature,
    wits: &Types,
    function: &str,
    argument: &str,
) -> anyhow::Result<Nf>
    requires { IsScope (the_scope sig.now wits.now) }
{
    let f = closed(alloc, sig, wits, function)?;
    let a = closed(alloc, sig, wits, argument)?;
    applied(alloc, sig, wits, &f, &a)
}

/// The normal form that a line asks for.
fn asked(
    alloc: Global,
    sig: &Signature,
    wits: &Types,
    ctx: &Types,
    line: &str,
) -> anyhow::Result<Nf>
    requires declared { IsScope (the_scope sig.now wits.now) }
    requires ctx_declared { AreDeclared (length sig.now.bases) ctx.now }
{
    match line.split_once(' ') {
        Some((function, argument)) => answer_with_argument(alloc, sig, wits, function, argument),
        None => normal(alloc, sig, wits, ctx, line),
    }
}

/// The line, and behind it the normal form.
fn answered(alloc: Global, line: &str, nf: &Nf) -> Result<String, AllocError> {
    let mut out = String::from_str(alloc, line)?;
    out.push_str(" = ")?;
    write_nf(&mut out, nf)?;
    Ok(out)
}

/// The line, and behind it the normal form that it asks for.
pub fn answer(
    alloc: Global,
    sig: &Signature,
    wits: &Types,
    ctx: &Types,
    line: &str,
) -> anyhow::Result<String>
    requires declared { IsScope (the_scope sig.now wits.now) }
    requires ctx_declared { AreDeclared (length sig.now.bases) ctx.now }
{
    if line.starts_with('%') {
        return Ok(String::from_str(alloc, line)?);
    }
    let nf = asked(alloc, sig, wits, ctx, line)?;
    Ok(answered(alloc, line, &nf)?)
}
