//! Rows of files that are read, and of sinks that are written.

use outside::{
    Bytes, DropSink, Failed, Files, OneFile, StdSink, read_whole, write_all_counted, write_pieces,
};
use std::alloc::Global;
use std::collections::VecDeque;
use std::io::Write;
use std::str;

/// What is read of a file of at most so many bytes.
fn read_text<F: Files>(
    alloc: Global,
    files: &mut F,
    name: &str,
    limit: usize,
) -> anyhow::Result<String> {
    match read_whole(alloc, files, name, limit) {
        Ok(bytes) => Ok(String::from_str(alloc, str::from_utf8(bytes.as_slice())?)?),
        Err(refused) => Ok(format!(in alloc; "{refused:?}")?),
    }
}

/// What is read of the file with this name, of at most so many bytes.
pub fn read_named<F: Files>(
    alloc: Global,
    files: &mut F,
    limit: &str,
    name: &str,
) -> anyhow::Result<String> {
    read_text(alloc, files, name, limit.parse()?)
}

/// What is read of at most so many bytes, where each file has this text.
pub fn read_any(alloc: Global, limit: &str, text: &str) -> anyhow::Result<String> {
    let mut file = OneFile::new(Bytes::from_slice(alloc, text.as_bytes())?);
    read_text(alloc, &mut file, "any", limit.parse()?)
}

/// What is in a queue to which a text was written, and whether that failed.
pub fn queued(alloc: Global, text: &str) -> anyhow::Result<String> {
    let mut queue = VecDeque::new(alloc);
    let written = write_all_counted(&mut StdSink::new(&mut queue), text.as_bytes());
    let kept = str::from_utf8(queue.make_contiguous())?;
    Ok(format!(in alloc; "{written:?}, {kept}")?)
}

/// Whether a text is written out.
pub fn written<W: Write + Drop>(out: W, text: &str) -> Result<(), Failed> {
    write_all_counted(&mut StdSink::new(out), text.as_bytes())
}

/// Whether a text and an empty piece are dropped.
pub fn dropped(text: &str) -> Result<(), Failed> {
    write_pieces(&mut DropSink, &[text.as_bytes(), b""])
}
