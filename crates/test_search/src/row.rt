//! What a line asks for.

ghost use Rattle.std.specs.Prelude.{IfOk};
ghost use Rattle.mode_file.specs.Given.{IsInRange};

use anyhow::bail;
use mode_file::{Mode, read_mode};
use std::alloc::Global;

/// How many bytes a mode has at most.
const MAX_BYTES: usize = 16_777_216;

/// What is told of a run: its end, the same without a check of the refutation, each of its commands too, or its refutation too.
#[derive(Clone, Copy, Debug, PartialEq, Eq)]
pub enum Told {
    End,
    Alone,
    Commands,
    Text,
}

/// A run: the name of the problem's file, the mode, and what is told.
#[derive(Drop)]
pub struct Row {
    pub file: String,
    pub mode: Mode,
    pub told: Told,
}

/// A mode file with settings between which commas stand.
fn mode_text(alloc: Global, settings: &str) -> anyhow::Result<String> {
    let mut text = String::new(alloc);
    for setting in settings.split(',') {
        text.push_str(setting.trim())?;
        text.push('\n')?;
    }
    Ok(text)
}

fn mode_of(text: &str) -> anyhow::Result<Mode>
    ensures { IfOk result IsInRange }
{
    if text.len() > MAX_BYTES {
        bail!("too many settings");
    }
    match read_mode(text.as_bytes()) {
        Ok(mode) => Ok(mode),
        Err(refused) => bail!("{refused:?}"),
    }
}

/// The words behind the first one, where that asks for more than a run's end.
fn told_of(line: &str) -> (Told, &str) {
    match line.split_once(' ') {
        Some(("trace", rest)) => (Told::Commands, rest),
        Some(("text", rest)) => (Told::Text, rest),
        Some(("alone", rest)) => (Told::Alone, rest),
        _ => (Told::End, line),
    }
}

/// The run that a line asks for.
pub fn row_of(alloc: Global, line: &str) -> anyhow::Result<Row>
    ensures { IfOk result (λ row. IsInRange row.mode) }
{
    let (told, rest) = told_of(line);
    let (file, settings) = rest.split_once(' ').unwrap_or((rest, ""));
    let text = mode_text(alloc, settings)?;
    let mode = mode_of(text.as_str())?;
    Ok(Row {
        file: String::from_str(alloc, file)?,
        mode,
        told,
    })
}
