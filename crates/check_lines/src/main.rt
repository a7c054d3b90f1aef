//! Checks an event file before the box reads it: prints each malformed line's fault, and at the end how many lines
//! and how many events there are.
#![tactic(auto)]

mod report;

use events::read_input;
use report::report;
use std::io::{BufWriter, Write};

fn main(rt: HostRuntime) -> anyhow::Result<()> {
    let input = read_input(rt.alloc(), rt.stdin())?;
    let mut out = BufWriter::new(rt.alloc(), rt.stdout())?;
    report(&input, &mut out)?;
    out.flush()?;
    Ok(())
}
