//! The faults of an input, printed one by one, and the tally of its lines.
ghost use Rattle.check_lines.specs.Tallies.{IsReport, tally_line};
ghost use Rattle.std.specs.Prelude.{◌≡◌, IfOk};

use events::{Lines, at_line, read};
use std::io;
use std::io::Write;
use text::{Line, Text};

/// How many lines an input has, and how many of them are events.
#[derive(Clone, Copy, Drop)]
pub struct Tally {
    pub lines: u64,
    pub events: u64,
}

/// `lines N events M`
impl Line for Tally {
    ghost spelling = { tally_line };

    #[tactic(auto, using(text::proofs::Kept::joined))]
    fn add_to(&self, text: &mut Text) {
        text.bytes(b"lines ");
        text.number(self.lines);
        text.bytes(b" events ");
        text.number(self.events);
    }
}

/// Prints the fault of each malformed line of the input under its number, in order, and then the tally, and returns the
/// tally.
pub fn report<W: Write>(input: &[u8], out: &mut W) -> io::Result<Tally>
    ensures { IfOk result (λ tally. IsReport input.now tally (W.contents out.old) (W.contents out.new)) }
{
    let mut tally = Tally {
        lines: 0,
        events: 0,
    };
    for line in Lines::new(input) {
        // A line's number is the tally so far, which `enumerate` would count a second time.
        tally.lines += 1;
        match at_line(tally.lines, read(line)) {
            Ok(_) => tally.events += 1,
            Err(fault) => fault.print(out)?,
        }
    }
    tally.print(out)?;
    Ok(tally)
}
