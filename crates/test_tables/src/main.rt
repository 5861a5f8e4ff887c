//! Reads lines with uses of rules, with formulas, or with literals, and writes each with what the tables of the search answer: the
//! instances and the witnesses, the numbers of the formulas' literals, or for each literal its partners among those before it. Lines with
//! numbers ask for many instances or many notes, and others for what is there once, or for what a partial term grows to. A line that begins
//! with `%` is copied. The constants are `c`, `e: i`, `d: i > i`,
//! `g: i > i > i`, `p`, `q: o`, `r: i > o` and `h: i > i > o`.
#![tactic(auto)]

mod answer;
mod bulk;
mod clauses;
mod growth;
mod notation;
mod refusal;
mod scope;
mod tables;
mod uses;

use answer::answer;

fn main(rt: HostRuntime) -> anyhow::Result<()> {
    let alloc = rt.alloc();
    for line in rt.lines(alloc) {
        let line = line?;
        let text = answer(alloc, line.as_str())?;
        println!(rt; "{text}")?;
    }
    Ok(())
}
