//! Reads clauses in DIMACS and says whether they are satisfiable, and how many were learned. A line that begins with `s` asks for an
//! answer to the clauses so far; otherwise the end does.
#![tactic(auto)]

mod session;

use session::report;
use std::io;

fn main(rt: HostRuntime) -> io::Result<()> {
    let text = io::read_to_string(rt.alloc(), rt.reader())?;
    let report = report(rt.alloc(), text.as_str())?;
    println!(rt; "{report}")
}
