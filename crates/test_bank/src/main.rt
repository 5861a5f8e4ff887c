//! Rows of the bank and of the normaliser: how many terms a bank has after some calls, and which terms two calls give. Each line that is
//! read asks for a row, over a bank of its own.
#![tactic(auto)]

mod canonical;
mod checked;
mod doubling;
mod found;
mod power;
mod refused;
mod row;
mod scope;
mod shared;

use found::answer;
use row::row_of;

fn main(rt: HostRuntime) -> anyhow::Result<()> {
    let alloc = rt.alloc();
    for line in rt.lines(alloc) {
        let line = line?;
        let found = answer(alloc, row_of(line.as_str())?)?;
        println!(rt; "{line}: {}", found.text(alloc)?)?;
    }
    Ok(())
}
