//! Refutations' texts.

ghost use Rattle.stt_core.specs.TypedProblem.{IsTyped};

use anyhow::bail;
use outside::{Bytes, Files, read_whole};
use refute_check::{CheckRefused, check_refutation};
use refute_text::{TextRefused, read_text};
use std::alloc::Global;
use stt_core::Problem;

/// How many bytes a text may have.
const MAX_BYTES: usize = 16_777_216;

fn bytes_in<F: Files>(alloc: Global, files: &mut F, name: &str) -> anyhow::Result<Bytes> {
    match read_whole(alloc, files, name, MAX_BYTES) {
        Ok(bytes) => Ok(bytes),
        Err(refused) => bail!("{name}: {refused:?}"),
    }
}

/// Why a text isn't read.
fn refusal(alloc: Global, refused: TextRefused) -> anyhow::Result<String> {
    match refused {
        TextRefused::BadLine { line } => Ok(format!(in alloc; "line {line} form")?),
        TextRefused::NoStart { line } => Ok(format!(in alloc; "line {line} start")?),
        TextRefused::NoEnd { line } => Ok(format!(in alloc; "line {line} end")?),
        TextRefused::Memory => bail!("no memory"),
    }
}

/// What the check of a text answers.
fn verdict(alloc: Global, checked: Result<(), CheckRefused>) -> anyhow::Result<String> {
    match checked {
        Ok(()) => Ok(String::from_str(alloc, "accepted")?),
        Err(CheckRefused::Line { line, why }) => Ok(format!(in alloc; "line {line} {why:?}")?),
        Err(CheckRefused::Memory) => bail!("no memory"),
    }
}

/// Whether the text in a file is accepted for the problem, or its first line that fails.
pub fn check<F: Files>(
    alloc: Global,
    files: &mut F,
    name: &str,
    problem: &Problem,
) -> anyhow::Result<String>
    requires { IsTyped problem.now }
{
    let bytes = bytes_in(alloc, files, name)?;
    let read = read_text(alloc, bytes.as_slice());
    drop(bytes);
    match read {
        Ok(text) => verdict(alloc, check_refutation(alloc, problem, &text)),
        Err(refused) => refusal(alloc, refused),
    }
}
