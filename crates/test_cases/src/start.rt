//! The literals from which the refutations of a problem start, as text.

ghost use Rattle.std.specs.Prelude.{IfOk};
ghost use Rattle.stt_core.specs.TypedProblem.{IsTyped};

use anyhow::{Context, bail};
use outside::{Failed, Files, GrowSink};
use refute_print::write_text;
use std::alloc::{AllocError, Global};
use std::str;
use stt_core::{Head, Nf, Nfs, Problem, Signature, Types};
use stt_tableau::{accepts_plain, start_literals};
use tableau_calculus::{Children, Line, Lines, Lit, Lits, OnePlace, Refutation, Rows, RuleUse};
use thf_include::{FileNames, gather};
use type_check::check;

/// What stands before the literals of a branch that begins with falsity, where that closes it.
const BEFORE: &str = "version 1\n0: False(0) [+$f";

const BEHIND: &str = "] []\n";

/// Falsity, and then these literals.
fn with_falsity(alloc: Global, lits: &Lits) -> Result<Lits, AllocError> {
    let mut branch = Lits::new(alloc);
    branch.push(Lit {
        positive: true,
        atom: Nf {
            binders: Types::new(alloc),
            head: Head::False,
            args: Nfs::new(alloc),
        },
    })?;
    for i in 0..lits.len() {
        branch.push(lits.at(i).try_clone(alloc)?)?;
    }
    Ok(branch)
}

/// The refutation of the branch, which begins with falsity.
fn refutation(alloc: Global, branch: Lits) -> Result<Refutation, AllocError> {
    let mut lines = Lines::new(alloc);
    lines.push(Line {
        branch,
        rule: RuleUse::AtOne(OnePlace::False, 0),
        children: Children::new(alloc),
    })?;
    Ok(Refutation {
        witnesses: Rows::new(alloc),
        lines,
    })
}

/// Writes the refutation, where it is accepted for the branch.
fn write(
    alloc: Global,
    sig: &Signature,
    branch: &Lits,
    refutation: &Refutation,
    sink: &mut GrowSink,
) -> anyhow::Result<()> {
    match accepts_plain(alloc, sig, branch, refutation) {
        Ok(()) => match write_text(sig, &[], refutation, sink) {
            Ok(()) => Ok(()),
            Err(Failed) => Err(AllocError)?,
        },
        Err(_) => bail!("the start isn't typed"),
    }
}

/// Writes the refutation of the branch, which begins with falsity.
fn write_closed(
    alloc: Global,
    sig: &Signature,
    branch: &Lits,
    sink: &mut GrowSink,
) -> anyhow::Result<()> {
    let refutation = refutation(alloc, branch.try_clone(alloc)?)?;
    write(alloc, sig, branch, &refutation, sink)
}

/// The text of the refutation of the branch, which begins with falsity.
fn branch_text(alloc: Global, sig: &Signature, branch: &Lits) -> anyhow::Result<String> {
    let mut sink = GrowSink::new(alloc);
    write_closed(alloc, sig, branch, &mut sink)?;
    Ok(String::from_str(alloc, str::from_utf8(sink.bytes())?)?)
}

/// The problem in a file.
fn problem_in<F: Files>(alloc: Global, files: &mut F, name: &str) -> anyhow::Result<Problem>
    ensures { IfOk result (λ problem. IsTyped problem) }
{
    let mut names = FileNames::new(alloc);
    let Ok(gathered) = gather(alloc, files, &mut names, name) else {
        bail!("the files aren't gathered");
    };
    let checked = check(alloc, gathered);
    match checked {
        Ok(problem) => Ok(problem),
        Err(_) => bail!("the problem isn't read"),
    }
}

/// The literals of the start of a problem, with commas between them.
fn literals_of(alloc: Global, problem: &Problem) -> anyhow::Result<String>
    requires { IsTyped problem.now }
{
    let branch = with_falsity(alloc, &start_literals(alloc, problem)?)?;
    let text = branch_text(alloc, &problem.signature, &branch)?;
    let literals = text
        .strip_prefix(BEFORE)
        .and_then(|text| text.strip_suffix(BEHIND))
        .context("the text has another form")?;
    let literals = literals.strip_prefix(',').unwrap_or(literals);
    Ok(String::from_str(alloc, literals)?)
}

/// The literals of the start of the problem in a file, with commas between them.
pub fn start_text<F: Files>(alloc: Global, files: &mut F, name: &str) -> anyhow::Result<String> {
    let problem = problem_in(alloc, files, name)?;
    let text = literals_of(alloc, &problem);
    drop(problem);
    text
}
