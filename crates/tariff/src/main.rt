//! Prints a tariff sheet of the taxed price before an office buys: `tariff RATE ACTIVE LENGTH`, where ACTIVE is an
//! active count or `-` for none. A line is a count of frames and the bottom there.
#![tactic(auto)]

mod fault;
mod listing;
mod request;

use fault::Fault;
use listing::listing;
use std::process::ExitCode;
use std::{env, io};

/// Why the arguments could not be read.
fn unread(error: io::Error) -> anyhow::Error {
    match error.kind() {
        io::ErrorKind::InvalidData => Fault::Text.into(),
        _ => error.into(),
    }
}

fn run(rt: &HostRuntime) -> anyhow::Result<()> {
    let alloc = rt.alloc();
    let words: Vec<String> = env::args(rt).map_err(unread)?.skip(1).collect(alloc)?;
    rt.print(listing(alloc, &words)?)?;
    Ok(())
}

fn main(rt: HostRuntime) -> ExitCode {
    // A fault that `main` returned would be printed with other words in front.
    match run(&rt) {
        Ok(()) => ExitCode::SUCCESS,
        Err(fault) => {
            let _ = eprintln!(rt; "{fault}");
            ExitCode::FAILURE
        }
    }
}
