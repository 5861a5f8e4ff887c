//! What is written for a line.

use crate::escaped::unescaped;
use crate::files::{dropped, queued, read_any, read_named};
use crate::problems::{made, measured, written};
use anyhow::bail;
use cli_words::{Words, read_words};
use mode_file::read_mode;
use outside::Files;
use std::alloc::Global;

/// How long a mode file is at most.
const MAX_BYTES: usize = 16_777_216;

/// What the words ask for, which single spaces part.
fn words_answer(alloc: Global, line: &str, text: &str) -> anyhow::Result<String> {
    let mut words = Words::new(alloc);
    for word in text.split(' ') {
        words.push(word)?;
    }
    match read_words(alloc, &words) {
        Ok(asked) => Ok(format!(in alloc; "{line} = {asked:?}")?),
        Err(refused) => Ok(format!(in alloc; "{line} = {refused:?}")?),
    }
}

/// What no words ask for.
fn no_words_answer(alloc: Global, line: &str) -> anyhow::Result<String> {
    let words = Words::new(alloc);
    match read_words(alloc, &words) {
        Ok(asked) => Ok(format!(in alloc; "{line} = {asked:?}")?),
        Err(refused) => Ok(format!(in alloc; "{line} = {refused:?}")?),
    }
}

/// The mode that a file states.
fn mode_answer(alloc: Global, line: &str, text: &str) -> anyhow::Result<String> {
    if text.len() > MAX_BYTES {
        return Ok(format!(in alloc; "{line} = too long")?);
    }
    match read_mode(text.as_bytes()) {
        Ok(mode) => Ok(format!(in alloc; "{line} = {mode:?}")?),
        Err(refused) => Ok(format!(in alloc; "{line} = {refused:?}")?),
    }
}

/// What is read or written for a line that isn't one of words or modes.
fn other_answer<F: Files>(
    alloc: Global,
    files: &mut F,
    what: &str,
    text: &str,
) -> anyhow::Result<String> {
    match what {
        "queue" => queued(alloc, text),
        "drop" => Ok(format!(in alloc; "{:?}", dropped(text))?),
        "problem" => made(alloc, text.parse()?),
        "measure" => measured(alloc, text.parse()?),
        _ => match (what, text.split_once(' ')) {
            ("file", Some((limit, name))) => read_named(alloc, files, limit, name),
            ("any", Some((limit, text))) => read_any(alloc, limit, text),
            ("room", Some((room, n))) => written(alloc, n.parse()?, room.parse()?),
            _ => bail!("{what} {text}: no row"),
        },
    }
}

/// The line, and behind it what it states.
pub fn answer<F: Files>(alloc: Global, files: &mut F, line: &str) -> anyhow::Result<String> {
    if line == "words" {
        return no_words_answer(alloc, line);
    }
    if line.starts_with('%') {
        return Ok(String::from_str(alloc, line)?);
    }
    match line.split_once(' ') {
        Some(("words", text)) => words_answer(alloc, line, unescaped(alloc, text)?.as_str()),
        Some(("mode", text)) => mode_answer(alloc, line, unescaped(alloc, text)?.as_str()),
        Some((what, text)) => {
            let answer = other_answer(alloc, files, what, text)?;
            Ok(format!(in alloc; "{line} = {answer}")?)
        }
        None => bail!("{line}: no row"),
    }
}
