//! Tells which definitions are taken from problems, and checks refutations' texts against problems. Each line that is read is `taken` and
//! the name of a problem's file, or `check` and the names of a text's file and of a problem's.
#![tactic(auto)]

mod definitions;
mod problem;
mod texts;

use anyhow::{Error, bail};
use outside::{Files, StdFiles};
use problem::problem_in;
use std::alloc::Global;

/// What is taken from the problem in a file.
fn taken<F: Files>(alloc: Global, files: &mut F, name: &str) -> Result<String, Error> {
    let problem = problem_in(alloc, files, name)?;
    definitions::taken_from(alloc, &problem)
}

/// Whether the text in a file is accepted for the problem in another one.
fn checked<F: Files>(
    alloc: Global,
    files: &mut F,
    text: &str,
    name: &str,
) -> Result<String, Error> {
    let problem = problem_in(alloc, files, name)?;
    texts::check(alloc, files, text, &problem)
}

/// What is written for a line.
fn answer<F: Files>(alloc: Global, files: &mut F, line: &str) -> Result<String, Error> {
    match line.split_once(' ') {
        Some(("taken", name)) => taken(alloc, files, name),
        Some(("check", names)) => match names.split_once(' ') {
            Some((text, name)) => checked(alloc, files, text, name),
            None => bail!("two files are wanted: {line}"),
        },
        _ => bail!("unknown: {line}"),
    }
}

fn main(rt: HostRuntime) -> anyhow::Result<()> {
    let alloc = rt.alloc();
    for line in rt.lines(alloc) {
        let line = line?;
        let mut files = StdFiles::new(&rt);
        let text = answer(alloc, &mut files, line.as_str())?;
        println!(rt; "{line}: {text}")?;
    }
    Ok(())
}
