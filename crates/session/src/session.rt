//! A session: event lines performed on a broker, one after another, and the end report.
ghost use Rattle.std.specs.Prelude.{◌≡◌, IfOk, OnOk, OnErr};
ghost use Rattle.laws.specs.Broker.{new_broker};
ghost use Rattle.broker.specs.View.{Guaranteed};
ghost use Rattle.events.specs.declared.event.Event.TheVariants.{Ask};
ghost use Rattle.session.specs.Session.{broker_of, price_of, meaning, view, Performed, LinePerformed, NumberedLinePerformed};
ghost use Rattle.session.specs.Asks.{HasPrice, price_with, Lost, taken_from};
ghost use Rattle.session.specs.Input.{held_by, LinesPrinted, StopsWithin, ReportPrinted};

use crate::printed::{Grant, Held, Printed, Reported, Taken};
use broker::Broker;
use events::{Event, Lines, at_line, read};
use price::Price;
use rules::{Quote, Refusal};
use std::io;
use std::io::Write;
use text::Line;

/// A broker on which event lines are performed. It delivers the slip of a granted ask itself, before the next line.
#[derive(Drop)]
pub struct Session<P: Price> {
    broker: Broker<P>,
}

impl<P: Price> Session<P> {
    /// A session on a new broker under a price.
    pub fn new(price: P) -> Session<P>
        ensures view { view result ≡ new_broker }
        ensures guarantees { Guaranteed (meaning result) }
        ensures price { price_of result ≡ price }
    {
        Session {
            broker: Broker::new(price),
        }
    }

    /// The broker, to be asked questions.
    pub fn broker(&self) -> &Broker<P>
        ensures { result.now ≡ broker_of self.now }
    {
        &self.broker
    }

    /// The price of a client at its holding and so many frames more.
    fn quote(&self, client: u32, more: u32) -> Quote
        requires { HasPrice (view self.now) client more }
        ensures { result ≡ price_with (meaning self.now) (view self.now) client more }
    {
        let holding = self.broker.holding(client).unwrap();
        self.broker.price_at(client, holding + more).unwrap()
    }

    /// From whom a frame was taken, and what it paid before; nobody where the frame was free.
    fn taken(&self, former: u32) -> Option<Taken>
        requires { Lost (view self.now) former }
        ensures { result ≡ taken_from (meaning self.now) (view self.now) former }
    {
        if former == 0 {
            return None;
        }
        Some(Taken {
            from: former,
            over: self.quote(former, 1),
        })
    }

    /// Asks for a frame, and delivers the slip at once.
    fn ask(&mut self, client: u32) -> Result<Printed, Refusal>
        ensures { Performed self.old (Ask client) result self.new }
    {
        let slip = self.broker.ask(client)?;
        let granted = slip.numbers();
        let grant = Grant {
            client: granted.client,
            frame: granted.frame,
            paying: self.quote(granted.client, 0),
            taken: self.taken(granted.former),
        };
        self.broker.deliver(slip).unwrap();
        Ok(Printed::Grant(grant))
    }

    /// Performs an event, and returns what is printed of it. An event that the broker refuses changes nothing.
    pub fn perform(&mut self, event: Event) -> Result<Printed, Refusal>
        ensures { Performed self.old event result self.new }
    {
        match event {
            Event::Start { unit, frames } => self
                .broker
                .start(unit, frames)
                .map(|()| Printed::Pool { unit, frames }),
            Event::Admit(asked) => self.broker.admit(asked).map(|()| Printed::Admit {
                client: asked.client,
            }),
            Event::Ask { client } => self.ask(client),
            Event::HandBack { client } => self
                .broker
                .hand_back(client)
                .map(|frame| Printed::Back { client, frame }),
            Event::Leave { client } => self
                .broker
                .leave(client)
                .map(|frames| Printed::Leave { client, frames }),
            Event::Estimate { client, estimate } => self
                .broker
                .estimate(client, estimate)
                .map(|()| Printed::Estimate { client }),
            Event::Clock { tick } => self
                .broker
                .clock(tick)
                .map(|ended| Printed::Clock { tick, ended }),
        }
    }

    /// Performs the event that a line says. A malformed line changes nothing.
    fn perform_line(&mut self, line: &[u8]) -> Result<Printed, Refusal>
        ensures { LinePerformed self.old line.now result self.new }
    {
        let event = read(line)?;
        self.perform(event)
    }

    /// Performs the event that a line says, and returns what is printed of the line: a refusal, the reader's or the
    /// broker's, with the line's number.
    pub fn line(&mut self, number: u64, line: &[u8]) -> Printed
        ensures { NumberedLinePerformed number self.old line.now result self.new }
    {
        at_line(number, self.perform_line(line)).unwrap_or_else(Printed::Refused)
    }

    /// Performs the lines of an input, and prints what comes of each, in order, under the line's number, from 1 on.
    ///
    /// Where printing fails, lines up to some one have been performed, and those after it have not.
    pub fn print_lines<W: Write>(&mut self, input: &[u8], out: &mut W) -> io::Result<()>
        ensures ok { OnOk result (LinesPrinted self.old input.now self.new (W.contents out.old) (W.contents out.new)) }
        ensures err { OnErr result (StopsWithin self.old input.now self.new) }
    {
        let mut number: u64 = 0;
        for line in Lines::new(input) {
            number += 1;
            self.line(number, line).print(out)?;
        }
        Ok(())
    }

    /// What the end report says of a client: how many frames it holds, and its price there; none where it holds nothing.
    pub fn held(&self, client: u32) -> Option<Held>
        ensures { result ≡ held_by (meaning self.now) (view self.now) client }
    {
        let frames = self.broker.holding(client).ok()?;
        let price = self.broker.price_at(client, frames).ok()?;
        Some(Held { frames, price })
    }

    /// Prints the end report: the free frames, and each client by rising number.
    pub fn print_report<W: Write>(&self, out: &mut W) -> io::Result<()>
        ensures { OnOk result (ReportPrinted self.now (W.contents out.old) (W.contents out.new)) }
    {
        let frames = self.broker.free_frames();
        Reported::Free { frames }.print(out)?;
        let mut after = 0;
        while let Some(client) = self.broker.next_client(after) {
            let held = self.held(client);
            Reported::Client { client, held }.print(out)?;
            after = client;
        }
        Ok(())
    }
}
