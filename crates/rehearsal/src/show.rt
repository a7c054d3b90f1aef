//! What is printed.
use crate::plan::{Places, WeekLine};
use broker::Broker;
use family::Outcome;
use price::Price;
use rules::{Admission, Answer, Call, Estimate, Quote};
use std::io::Write;
use std::{fmt, io};

/// A call, as it is printed.
#[derive(Drop)]
pub struct Asked(pub Call);

impl fmt::Display for Asked {
    fn fmt<W: fmt::Write>(&self, f: &mut fmt::Formatter<W>) -> fmt::Result {
        match self.0 {
            Call::Start { unit, frames } => write!(f, "start unit {unit} with {frames} frames"),
            Call::Admit(
                Admission {
                    client,
                    shares,
                    class,
                    minimum,
                    maximum,
                },
            ) => write!(
                f,
                "admit {client} with {shares} shares, class {class}, {minimum} to {maximum} frames"
            ),
            Call::Ask { client } => write!(f, "ask {client}"),
            Call::Deliver { slip } => write!(f, "deliver a slip of unit {}", slip.unit),
            Call::HandBack { client } => write!(f, "hand back {client}"),
            Call::Leave { client } => write!(f, "leave {client}"),
            Call::SetEstimate {
                client,
                estimate: Estimate { active, end },
            } => write!(f, "estimate {client} active {active} until {end}"),
            Call::SetClock { tick } => write!(f, "clock {tick}"),
        }
    }
}

/// What a broker answered, as it is printed: a dash where it was not called.
#[derive(Drop)]
struct Shown(Outcome);

impl fmt::Display for Shown {
    fn fmt<W: fmt::Write>(&self, f: &mut fmt::Formatter<W>) -> fmt::Result {
        match self.0 {
            None => write!(f, "-"),
            Some(Ok(Answer::Done)) => write!(f, "done"),
            Some(Ok(Answer::Granted(slip))) => write!(
                f,
                "frame {} from {}",
                slip.frame, slip.former
            ),
            Some(Ok(Answer::Frame(frame))) => write!(f, "frame {frame}"),
            Some(Ok(Answer::Count(count))) => write!(f, "count {count}"),
            Some(Err(refusal)) => write!(f, "refused {}", refusal.number()),
        }
    }
}

/// A price, as it is printed: a dash where there is none.
#[derive(Drop)]
struct Priced(Option<Quote>);

impl fmt::Display for Priced {
    fn fmt<W: fmt::Write>(&self, f: &mut fmt::Formatter<W>) -> fmt::Result {
        match self.0 {
            None => write!(f, "-"),
            Some(Quote { class, top, bottom }) => write!(f, "{class}:{top}/{bottom}"),
        }
    }
}

/// What the order at a place was answered; none where no broker was called.
fn outcome_at(outcomes: &[Outcome], place: Option<usize>) -> Outcome {
    *outcomes.get(place?)?
}

/// Prints what was called, and what the orders at these places were answered.
fn show_answers<C: fmt::Display, W: Write>(
    called: &C,
    places: &Places,
    outcomes: &[Outcome],
    out: &mut W,
) -> io::Result<()> {
    let [share, taxed, class] = places.map(|place| Shown(outcome_at(outcomes, place)));
    writeln!(out, "  {called}: {share}; {taxed}; {class}")
}

/// Prints a line of the week.
pub fn show_line<W: Write>(line: &WeekLine, outcomes: &[Outcome], out: &mut W) -> io::Result<()> {
    match line {
        WeekLine::Day(day) => writeln!(out, "{day}"),
        WeekLine::Called(call, places) => show_answers(&Asked(*call), places, outcomes, out),
        WeekLine::Delivered(places) => show_answers(&"deliver", places, outcomes, out),
    }
}

/// Prints what a broker has come to: the free frames, and what each client holds and pays.
pub fn show_rest<P: Price, W: Write>(
    name: &str,
    broker: &Broker<P>,
    out: &mut W,
) -> io::Result<()> {
    writeln!(out, "{name} rests with {} free", broker.free_frames())?;
    for client in 1..=256 {
        if let Ok(holding) = broker.holding(client) {
            let price = Priced(broker.price_at(client, holding).ok());
            writeln!(out, "  client {client} holds {holding} price {price}")?;
        }
    }
    Ok(())
}
