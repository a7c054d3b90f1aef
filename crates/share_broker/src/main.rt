//! Runs a broker under the share price: reads an input of event lines, and prints a line for each, and the end report.
#![tactic(auto)]

use session::serve_by_shares;
use std::io::BufWriter;

fn main(rt: HostRuntime) -> anyhow::Result<()> {
    let mut out = BufWriter::new(rt.alloc(), rt.stdout())?;
    serve_by_shares(rt.alloc(), rt.stdin(), &mut out)?;
    Ok(())
}
