//! A line that was refused, with its number.
ghost use Rattle.std.specs.Prelude.{◌≡◌, ◌≤◌, ◌++◌, length};
ghost use Rattle.events.specs.LineFaults.{at_line as told_at, fault_line};
ghost use Rattle.text.specs.Texts.{kept, spelt};

use rules::Refusal;
use text::{Line, Text};

/// Why a line of the input was refused: the refusal whole, beside the line's number, counted from 1.
#[derive(Clone, Copy, Drop)]
pub struct LineFault {
    pub line: u64,
    pub refusal: Refusal,
}

/// A line's number and its refusal.
impl From<(u64, Refusal)> for LineFault {
    ghost from_gives = { λ at fault. fault ≡ record { line = at.0; refusal = at.1 } };

    fn from((line, refusal): (u64, Refusal)) -> LineFault {
        LineFault { line, refusal }
    }
}

/// What came of a line. A refusal, the reader's or the broker's, becomes the fault of the line with this number.
pub fn at_line<T>(line: u64, outcome: Result<T, Refusal>) -> Result<T, LineFault>
    ensures { result ≡ told_at line outcome }
{
    let value = outcome.map_err(|refusal| (line, refusal))?;
    Ok(value)
}

/// `line N text K at C` for a malformed line, `line N refused R` for any other.
impl Line for LineFault {
    ghost spelling = { fault_line };

    #[tactic(auto, using(text::proofs::Kept::joined))]
    fn add_to(&self, text: &mut Text) {
        text.bytes(b"line ");
        text.number(self.line);
        match self.refusal {
            Refusal::Malformed(fault) => {
                text.bytes(b" text ");
                text.number(fault.kind.number() as u64);
                text.bytes(b" at ");
                text.number(fault.column as u64);
            }
            refusal => {
                text.bytes(b" refused ");
                text.number(refusal.number() as u64);
            }
        }
    }
}
