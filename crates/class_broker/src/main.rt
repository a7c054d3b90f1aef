//! Runs a broker under the class price over the taxed price at 75: reads an input of event lines, and prints a line for
//! each, and the end report.
#![tactic(auto)]

use session::serve_by_class;
use std::io::BufWriter;

fn main(rt: HostRuntime) -> anyhow::Result<()> {
    let mut out = BufWriter::new(rt.alloc(), rt.stdout())?;
    serve_by_class(rt.alloc(), rt.stdin(), &mut out)?;
    Ok(())
}
