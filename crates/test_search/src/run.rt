//! Runs to their end.

ghost use Rattle.mode_file.specs.Given.{IsInRange};
ghost use Rattle.stt_core.specs.TypedProblem.{IsTyped};
ghost use Rattle.type_bound.specs.Modest.{IsModestProblem};

use anyhow::bail;
use mode_file::Mode;
use outside::{Failed, GrowSink};
use prover_run::{Ended, run};
use refute_share::{SharedRefutation, write_shared_text};
use std::alloc::{AllocError, Global};
use std::str;
use stt_core::{Problem, Signature};
use stt_tableau::{accepts_plain, start_literals};
use tableau_calculus::Lits;

/// Writes a refutation that the plain checker accepts for the start.
fn write(
    alloc: Global,
    sig: &Signature,
    start: &Lits,
    refutation: &SharedRefutation,
    sink: &mut GrowSink,
) -> anyhow::Result<()> {
    let plain = refutation.to_plain(alloc)?;
    match accepts_plain(alloc, sig, start, &plain) {
        Ok(()) => match write_shared_text(sig, &[], refutation, sink) {
            Ok(()) => Ok(()),
            Err(Failed) => Err(AllocError)?,
        },
        Err(refused) => bail!("{refused:?}"),
    }
}

/// The text of a refutation of a problem.
fn text_of(
    alloc: Global,
    problem: &Problem,
    refutation: &SharedRefutation,
) -> anyhow::Result<String>
    requires { IsTyped problem.now }
{
    let start = start_literals(alloc, problem)?;
    let mut sink = GrowSink::new(alloc);
    write(alloc, &problem.signature, &start, refutation, &mut sink)?;
    Ok(String::from_str(alloc, str::from_utf8(sink.bytes())?)?)
}

fn line_of(alloc: Global, ended: &Ended) -> anyhow::Result<String> {
    match ended {
        Ended::Proved { commands, .. } => Ok(format!(in alloc; "proved, {commands} commands")?),
        Ended::GaveUp { commands } => Ok(format!(in alloc; "given up, {commands} commands")?),
        Ended::CommandLimit { commands } => Ok(format!(in alloc; "limit of {commands} commands")?),
        Ended::ConflictLimit { conflicts } => {
            Ok(format!(in alloc; "limit of {conflicts} conflicts")?)
        }
    }
}

/// How the run over a problem ends, without a check of the refutation.
pub fn alone(alloc: Global, problem: &Problem, mode: &Mode) -> anyhow::Result<String>
    requires typed { IsTyped problem.now }
    requires modest { IsModestProblem 1024 problem.now }
    requires range { IsInRange mode.now }
{
    let ended = run(alloc, problem, mode, None)?;
    let line = line_of(alloc, &ended);
    drop(ended);
    line
}

/// How a run over the problem ended, where its refutation is right.
fn checked_line(alloc: Global, problem: &Problem, ended: &Ended) -> anyhow::Result<String>
    requires { IsTyped problem.now }
{
    if let Ended::Proved { refutation, .. } = ended {
        text_of(alloc, problem, refutation)?;
    }
    line_of(alloc, ended)
}

/// How the run over a problem ends.
pub fn end(alloc: Global, problem: &Problem, mode: &Mode) -> anyhow::Result<String>
    requires typed { IsTyped problem.now }
    requires modest { IsModestProblem 1024 problem.now }
    requires range { IsInRange mode.now }
{
    let ended = run(alloc, problem, mode, None)?;
    let line = checked_line(alloc, problem, &ended);
    drop(ended);
    line
}

/// How a run over the problem ended, with the text of the refutation.
fn line_and_text(alloc: Global, problem: &Problem, ended: &Ended) -> anyhow::Result<String>
    requires { IsTyped problem.now }
{
    let line = line_of(alloc, ended)?;
    if let Ended::Proved { refutation, .. } = ended {
        let text = text_of(alloc, problem, refutation)?;
        return Ok(format!(in alloc; "{line}\n{text}")?);
    }
    Ok(line)
}

/// How the run over a problem ends, with the text of the refutation.
pub fn text(alloc: Global, problem: &Problem, mode: &Mode) -> anyhow::Result<String>
    requires typed { IsTyped problem.now }
    requires modest { IsModestProblem 1024 problem.now }
    requires range { IsInRange mode.now }
{
    let ended = run(alloc, problem, mode, None)?;
    let text = line_and_text(alloc, problem, &ended);
    drop(ended);
    text
}
