//! Runs the cases of the files that the command line names, and prints each that ends otherwise than it says.
#![tactic(auto)]

mod case;
mod cases;
mod run;
mod start;
mod tally;

use outside::StdFiles;
use std::env;
use tally::Tally;

fn main(rt: HostRuntime) -> anyhow::Result<()> {
    let alloc = rt.alloc();
    let mut tally = Tally::new();
    for name in env::args(&rt)?.skip(1) {
        let mut files = StdFiles::new(&rt);
        let told = tally.run_file(alloc, &mut files, name.as_str())?;
        print!(rt; "{told}")?;
    }
    println!(rt; "{} cases, {} differences", tally.cases, tally.differences)?;
    Ok(())
}
