//! Reads lines with the words of a command line, or with a mode file, and writes each with what it states or why it is refused. A line that
//! begins with `words` has the words behind it, which single spaces part; one that begins with `mode` has the file behind it. There `\n`,
//! `\r`, `\t`, `\0`, `\u`, `\d` and `\e` stand for the characters 10, 13, 9, 0, 31, 127 and 128. Lines with `file` or `any` have a limit
//! and a file's name or its text, `queue` and `drop` a text for a sink, `problem` and `measure` the number of a problem, and `room` the
//! room of a sink and the number of a problem. Those with `%` are copied. Rows of a buffered sink and of agendas come after them.
#![tactic(auto)]

mod agenda;
mod answer;
mod buffered;
mod escaped;
mod files;
mod problems;

use agenda::write_agendas;
use answer::answer;
use buffered::write_buffered;
use outside::StdFiles;
use std::alloc::{AllocError, Global};
use std::io;

/// The rows of a buffered sink and of agendas.
fn further_rows(alloc: Global) -> Result<String, AllocError> {
    let mut out = String::new(alloc);
    write_buffered(alloc, &mut out)?;
    write_agendas(alloc, &mut out)?;
    Ok(out)
}

fn main(rt: HostRuntime) -> anyhow::Result<()> {
    let alloc = rt.alloc();
    let mut files = StdFiles::new(&rt);
    for line in rt.lines(alloc) {
        let line = line?;
        let text = answer(alloc, &mut files, line.as_str())?;
        println!(rt; "{text}")?;
    }
    println!(rt;
        "written out = {:?}",
        files::written(io::writer(&rt), "one\n")
    )?;
    print!(rt; "{}", further_rows(alloc)?)?;
    Ok(())
}
