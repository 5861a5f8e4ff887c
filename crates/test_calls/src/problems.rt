//! Rows of problems that are made.

use anyhow::bail;
use outside::{CallList, GrowSink, MemSink};
use problem_gen::{length, make};
use std::alloc::{AllocError, Global};
use std::str;

/// The text of the problem of a number, as it is defined, line by line.
fn expected(alloc: Global, n: u32) -> Result<String, AllocError> {
    let mut text = String::from_str(alloc, "thf(c_type,type,c: $i).\n")?;
    for k in 0..=n {
        writeln!(text, "thf(p{k}_type,type,p{k}: $i > $o).")?;
    }
    text.push_str("thf(a0,axiom,( p0 @ c )).\n")?;
    let mut j = 0;
    for k in 1..=n {
        writeln!(
            text,
            "thf(a{k},axiom,( ( p{j} @ c ) => ( ( ^ [X:$i] : ( p{k} @ X ) ) @ c ) ))."
        )?;
        j = k;
    }
    writeln!(text, "thf(goal,conjecture,( p{n} @ c )).")?;
    Ok(text)
}

/// The problem of a number.
pub fn made(alloc: Global, n: u32) -> anyhow::Result<String> {
    if n == 0 || n > 1000 {
        bail!("no problem has this number");
    }
    let mut sink = GrowSink::new(alloc);
    if make(n, &mut sink).is_err() {
        bail!("no memory is left");
    }
    Ok(String::from_str(alloc, str::from_utf8(sink.bytes())?)?)
}

/// How many bytes the problem of a number has, whether it is as defined, and whether it has its length.
pub fn measured(alloc: Global, n: u32) -> anyhow::Result<String> {
    let made = made(alloc, n)?;
    let is_right = made.as_str() == expected(alloc, n)?.as_str();
    let has_length = 0 < n && n <= 1000 && length(n) == made.len();
    Ok(format!(in alloc; "{} bytes, {is_right}, {has_length}", made.len())?)
}

/// Whether the problem of a number is written to a sink with this much room, how many bytes are, and whether they are a prefix of it.
pub fn written(alloc: Global, n: u32, room: usize) -> anyhow::Result<String> {
    if n == 0 || n > 1000 {
        bail!("no problem has this number");
    }
    let whole = expected(alloc, n)?;
    let mut sink = MemSink::new(alloc, room, CallList::new(alloc))?;
    let written = make(n, &mut sink);
    let bytes = sink.bytes();
    let is_front = whole.as_bytes().starts_with(bytes);
    Ok(format!(in alloc; "{written:?}, {} bytes, {is_front}", bytes.len())?)
}
