//! What is written for a line.

use anyhow::bail;
use outside::{CallList, GrowSink, MemSink};
use std::alloc::{AllocError, Global};
use std::str;
use thf_lex::lex;
use thf_parse::{ParseRefused, parse};
use thf_syntax::{FileTree, write_surface};

/// How long a file is at most.
const MAX_BYTES: usize = 16_777_216;

/// The tree of a file that is short enough.
fn tree_of(alloc: Global, bytes: &[u8]) -> Result<FileTree, ParseRefused> {
    if bytes.len() > MAX_BYTES {
        return Err(ParseRefused::Memory);
    }
    match lex(alloc, bytes) {
        Ok(tokens) => parse(alloc, bytes, &tokens),
        Err(AllocError) => Err(ParseRefused::Memory),
    }
}

/// Why bytes have no tree, if they have none.
fn refusal(alloc: Global, bytes: &[u8]) -> Option<ParseRefused> {
    match tree_of(alloc, bytes) {
        Ok(_tree) => None,
        Err(refused) => Some(refused),
    }
}

/// Whether bytes have a tree.
fn verdict(alloc: Global, bytes: &[u8]) -> Result<String, AllocError> {
    match refusal(alloc, bytes) {
        Some(refused) => format!(in alloc; "{refused:?}"),
        None => String::from_str(alloc, "has a tree"),
    }
}

/// The text of a tree, and whether that has one.
fn text_of(alloc: Global, line: &str, bytes: &[u8]) -> anyhow::Result<String> {
    let text = str::from_utf8(bytes)?;
    let verdict = verdict(alloc, bytes)?;
    Ok(format!(in alloc; "{line} = {text:?} {verdict}")?)
}

fn surface_of(alloc: Global, line: &str, tree: &FileTree) -> anyhow::Result<String> {
    let mut sink = GrowSink::new(alloc);
    if write_surface(tree, &mut sink).is_err() {
        bail!("the text can't be written");
    }
    text_of(alloc, line, sink.bytes())
}

/// The text of a line's tree.
fn written(alloc: Global, line: &str) -> anyhow::Result<String> {
    match tree_of(alloc, line.as_bytes()) {
        Ok(tree) => surface_of(alloc, line, &tree),
        Err(refused) => bail!("{line}: {refused:?}"),
    }
}

fn surface_within(
    alloc: Global,
    line: &str,
    tree: &FileTree,
    room: usize,
) -> anyhow::Result<String> {
    let mut sink = MemSink::new(alloc, room, CallList::new(alloc))?;
    let outcome = write_surface(tree, &mut sink);
    let text = str::from_utf8(sink.bytes())?;
    Ok(format!(in alloc; "{line} = {text:?} {outcome:?}")?)
}

/// As much of the text of a line's tree as a sink has room for.
fn written_within(alloc: Global, line: &str, text: &str, room: usize) -> anyhow::Result<String> {
    match tree_of(alloc, text.as_bytes()) {
        Ok(tree) => surface_within(alloc, line, &tree, room),
        Err(refused) => bail!("{line}: {refused:?}"),
    }
}

/// The line, and behind it what is written of its tree.
pub fn answer(alloc: Global, line: &str) -> anyhow::Result<String> {
    if line.starts_with('%') {
        return Ok(String::from_str(alloc, line)?);
    }
    let Some(("room", rest)) = line.split_once(' ') else {
        return written(alloc, line);
    };
    match rest.split_once(' ') {
        Some((room, text)) => written_within(alloc, line, text, room.parse()?),
        None => bail!("no file behind the room"),
    }
}
