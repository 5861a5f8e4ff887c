//! Reads lines with a term, or with a canonical function and an argument, and writes each with its normal form, or with what the function
//! gives. A line that begins with `%` is copied. The constants are `c: i`, `d: i > i`, `f: (i > i) > i` and `g: i > i > i`, the witness is
//! `w: i`, and the free variables of a term are `1` of type `i` and `0` of type `i > i`.
#![tactic(auto)]

mod answer;
mod notation;
mod scope;

ghost use Rattle.std.specs.Prelude.{length};
ghost use Rattle.stt_core.specs.Typing.{IsScope, AreDeclared};
ghost use Rattle.stt_core.specs.ScopeView.{the_scope};

use answer::answer;
use scope::{signature, variable_types, witness_types};
use stt_core::{Signature, Types};

fn write_answers(rt: HostRuntime, sig: &Signature, wits: &Types, ctx: &Types) -> anyhow::Result<()>
    requires declared { IsScope (the_scope sig.now wits.now) }
    requires ctx_declared { AreDeclared (length sig.now.bases) ctx.now }
{
    let alloc = rt.alloc();
    for line in rt.lines(alloc) {
        let line = line?;
        let text = answer(alloc, sig, wits, ctx, line.as_str())?;
        println!(rt; "{text}")?;
    }
    Ok(())
}

fn main(rt: HostRuntime) -> anyhow::Result<()> {
    let alloc = rt.alloc();
    let sig = signature(alloc)?;
    let wits = witness_types(alloc)?;
    let ctx = variable_types(alloc)?;
    write_answers(rt, &sig, &wits, &ctx)
}
