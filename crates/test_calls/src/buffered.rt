//! Rows of a buffered sink: bytes go on when the buffer is full or flushed, and are held where a write fails.

use buffered_sink::BufferedSink;
use outside::{CallList, Failed, MemSink, Sink, write_all_counted};
use std::alloc::{AllocError, Global};

/// A call on the sink.
#[derive(Clone, Copy)]
enum Call<'a> {
    /// Writes the whole text.
    All(&'a str),
    /// Writes the text once.
    Once(&'a str),
    /// Writes 20,000 bytes `x`.
    Many,
    Flush,
}

/// Calls on a buffered sink, over one with this much room, of which the calls of these numbers fail.
#[derive(Clone, Copy)]
struct Row<'a> {
    room: usize,
    fails: &'a [u64],
    calls: &'a [Call<'a>],
}

const ROWS: &[Row] = &[
    Row {
        room: 40_000,
        fails: &[],
        calls: &[
            Call::All("one "),
            Call::All("two"),
            Call::Flush,
            Call::Many,
            Call::Flush,
        ],
    },
    Row {
        room: 40_000,
        fails: &[0, 2],
        calls: &[
            Call::All("first"),
            Call::Flush,
            Call::Flush,
            Call::Many,
            Call::Flush,
        ],
    },
    Row {
        room: 3,
        fails: &[],
        calls: &[Call::Once("four"), Call::Flush],
    },
];

fn sink_of(alloc: Global, room: usize, fails: &[u64]) -> Result<BufferedSink<MemSink>, AllocError> {
    let mut list = CallList::new(alloc);
    for number in fails {
        list.push(*number)?;
    }
    Ok(BufferedSink::new(MemSink::new(alloc, room, list)?))
}

/// Writes once, and tells how many bytes were taken. An empty text isn't written.
fn write_once(sink: &mut BufferedSink<MemSink>, text: &str) -> Result<usize, Failed> {
    if text.is_empty() {
        return Ok(0);
    }
    sink.write(text.as_bytes())
}

/// Makes the call, and adds what it answers.
fn write_call(
    sink: &mut BufferedSink<MemSink>,
    call: Call,
    out: &mut String,
) -> Result<(), AllocError> {
    match call {
        Call::All(text) => write!(
            out,
            "{text:?} {:?}",
            write_all_counted(sink, text.as_bytes())
        ),
        Call::Once(text) => write!(out, "{text:?} {:?}", write_once(sink, text)),
        Call::Many => write!(out, "many {:?}", write_all_counted(sink, &[b'x'; 20_000])),
        Call::Flush => write!(out, "flush {:?}", sink.flush()),
    }
}

/// Adds the bytes up to the first `x`, and how many of them follow where nothing else does.
fn write_bytes(bytes: &[u8], out: &mut String) -> Result<(), AllocError> {
    let mut many: usize = 0;
    for byte in bytes {
        if *byte == b'x' {
            many = many.saturating_add(1);
        } else if many > 0 {
            return out.push('?');
        } else {
            out.push(char::from(*byte))?;
        }
    }
    write!(out, "+{many}")
}

fn write_row(alloc: Global, row: Row, out: &mut String) -> Result<(), AllocError> {
    let mut sink = sink_of(alloc, row.room, row.fails)?;
    write!(out, "room {}, failing {:?}:", row.room, row.fails)?;
    for call in row.calls {
        out.push(' ')?;
        write_call(&mut sink, *call, out)?;
        out.push_str(" = ")?;
        write_bytes(sink.get_ref().bytes(), out)?;
        out.push(';')?;
    }
    out.push('\n')
}

/// Adds for each row what its calls answer, and what has gone on after each.
pub fn write_buffered(alloc: Global, out: &mut String) -> Result<(), AllocError> {
    for row in ROWS {
        write_row(alloc, *row, out)?;
    }
    Ok(())
}
