//! Reads lines that are files of THF, and writes each with the text of its tree, and whether that has a tree. Where a line begins with
//! `room` and a number, the text is written into a sink with so much room. Lines that begin with `%` are copied.
#![tactic(auto)]

mod answer;

use answer::answer;

fn main(rt: HostRuntime) -> anyhow::Result<()> {
    let alloc = rt.alloc();
    for line in rt.lines(alloc) {
        let line = line?;
        let text = answer(alloc, line.as_str())?;
        println!(rt; "{text}")?;
    }
    Ok(())
}
