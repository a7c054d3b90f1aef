//! Events, as lines say them.
ghost use Rattle.std.specs.Prelude.{◌≡◌, ℕ, ◌^◌, ◌<◌, ◌≤◌, List, ◌∷◌, ◌++◌, length, take, Ok, Result};
ghost use Rattle.rules.specs.declared.refusal.Refusal.{Refusal};
ghost use Rattle.events.specs.Faults.{RoundTrip, Verdict};
ghost use Rattle.events.specs.Grammar.{number_count, spaced};
ghost use Rattle.events.specs.Events.{Event, IsSized, event_kind, event_line, event_numbers};
ghost use Rattle.std.specs.List.{flat_map, AllByRecursion};
ghost use Rattle.text.specs.Texts.{WritesToFront, kept, spelt};

use crate::reader::Reader;
use crate::word::EventKind;
use rules::{Admission, Estimate, Refusal};
use text::{Line, Text};

/// What an event line says. The numbers are as they came: whether the broker takes them is for the broker to say.
///
/// It is not a `Call`, which can also deliver a slip, nor an `EventKind`, which is known before the numbers are read.
#[derive(Clone, Copy, PartialEq, Eq, Debug, Drop)]
pub enum Event {
    /// `S unit frames`
    Start { unit: u32, frames: u32 },
    /// `A client shares class minimum maximum`
    Admit(Admission),
    /// `Q client`
    Ask { client: u32 },
    /// `H client`
    HandBack { client: u32 },
    /// `L client`
    Leave { client: u32 },
    /// `E client active end`
    Estimate { client: u32, estimate: Estimate },
    /// `T tick`
    Clock { tick: u32 },
}

/// The event of a kind with these numbers, of which it takes as many as its line has.
fn event_of(k: EventKind, ns: [u32; 5]) -> Event
    requires { length ns ≡ 5 }
    ensures kind { event_kind result ≡ k }
    ensures numbers { event_numbers result ≡ take (number_count k) ns }
{
    // The letter chooses how many numbers are read, so they are read before the event gives them names.
    let [a, b, c, d, e] = ns;
    match k {
        EventKind::Start => Event::Start { unit: a, frames: b },
        EventKind::Admit => Event::Admit(Admission {
            client: a,
            shares: b,
            class: c,
            minimum: d,
            maximum: e,
        }),
        EventKind::Ask => Event::Ask { client: a },
        EventKind::HandBack => Event::HandBack { client: a },
        EventKind::Leave => Event::Leave { client: a },
        EventKind::Estimate => Event::Estimate {
            client: a,
            estimate: Estimate { active: b, end: c },
        },
        EventKind::Clock => Event::Clock { tick: a },
    }
}

/// The verdict on a line, by its letter, its numbers and its end.
// It is apart from `read`, whose other two promises would be proved anew at each of these four returns.
fn judge(line: &[u8]) -> Result<Event, Refusal>
    ensures { Verdict line.now result }
{
    let mut reader = Reader::new(line);
    let form = reader.form()?;
    let numbers = reader.numbers(form)?;
    reader.finish()?;
    Ok(event_of(form.kind, numbers))
}

/// The event that a line says, or the first fault from the left. Of the line the first 80 bytes decide.
///
/// `read(b"Q 3")` is the ask of client 3; `read(b"Q")` is malformed, as a space is missing at column 2.
pub fn read(line: &[u8]) -> Result<Event, Refusal>
    ensures verdict { Verdict line.now result }
    ensures only { (v : Result Event Refusal) → Verdict line.now v → v ≡ result }
    ensures decided { (m : List ℕ) → take 80 m ≡ take 80 line.now → Verdict m result }
{
    judge(line)
}

/// Appends a letter and some numbers, each after one space, to a text.
#[tactic(auto, using(text::proofs::Kept::joined))]
fn spell(text: &mut Text, letter: u8, numbers: &[u32])
    ensures text { spelt text.new ≡ kept (spelt text.old ++ letter ∷ flat_map spaced numbers.now) }
    ensures short { length numbers.now ≤ 11 → length (flat_map spaced numbers.now) ≤ 127 }
    ensures sized { AllByRecursion (λ n. n < 2 ^ 32) numbers.now }
{
    text.byte(letter);
    for n in numbers {
        text.byte(b' ');
        text.number(*n as u64);
    }
}

impl Line for Event {
    ghost spelling = { event_line };

    fn add_to(&self, text: &mut Text)
        ensures short { length (event_line self.now) ≤ 128 }
        ensures text { spelt text.new ≡ kept (spelt text.old ++ event_line self.now) }
        ensures sized { IsSized self.now }
    {
        match *self {
            Event::Start { unit, frames } => spell(text, b'S', &[unit, frames]),
            Event::Admit(a) => spell(
                text,
                b'A',
                &[a.client, a.shares, a.class, a.minimum, a.maximum],
            ),
            Event::Ask { client } => spell(text, b'Q', &[client]),
            Event::HandBack { client } => spell(text, b'H', &[client]),
            Event::Leave { client } => spell(text, b'L', &[client]),
            Event::Estimate {
                client,
                estimate: Estimate { active, end },
            } => spell(text, b'E', &[client, active, end]),
            Event::Clock { tick } => spell(text, b'T', &[tick]),
        }
    }
}

impl Event {
    /// Writes the event's line to the front of a borrowed buffer and returns its length. A buffer too short for it is
    /// refused, and stays as it was.
    ///
    /// The line reads as the same event again, and each line that reads as this event is the line that it writes.
    // It stands before `Line::write` for this promise, which the lines of faults and tallies could not keep.
    #[tactic(auto, using(text::proofs::Kept::joined))]
    pub fn write(&self, out: &mut [u8]) -> Result<usize, Refusal>
        ensures writes { WritesToFront (event_line self.now) out.old result out.new }
        ensures round_trip { RoundTrip self.now }
    {
        let mut text = Text::new();
        self.add_to(&mut text);
        text.write(out)
    }
}
