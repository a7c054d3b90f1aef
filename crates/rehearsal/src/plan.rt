//! The week as it is planned: its orders, and the lines that tell of them.
use crate::show::show_line;
use crate::week::Day;
use broker::PlainBroker;
use family::{Order, Outcome, perform_all};
use price::Price;
use rules::{Call, SlipNumbers};
use std::alloc::Global;
use std::io::Write;
use std::{array, io};

/// How many brokers play.
const BROKERS: usize = 3;

/// Where each broker's order stands among all orders; none where a broker was not called.
pub type Places = [Option<usize>; BROKERS];

/// A line that is printed of the week.
#[derive(Clone, Copy, Drop)]
pub enum WeekLine {
    /// That a day begins.
    Day(Day),
    /// A call on each broker.
    Called(Call, Places),
    /// The delivery of what was granted.
    Delivered(Places),
}

/// A plan of the week. Only an answer has the numbers of a slip, so each order is performed as it is planned, on the
/// brokers that are made new for the week itself.
#[derive(Drop)]
pub struct Plan<'a, P: Price> {
    // Of a borrowed array of BROKERS it stayed open that it is borrowed as a slice (`whole_as_slice`).
    pub brokers: &'a mut [PlainBroker<P>],
    pub orders: Vec<Order>,
    pub outcomes: Vec<Outcome>,
    pub lines: Vec<WeekLine>,
}

impl<P: Price> Plan<'_, P> {
    /// The slip that the order at a place was answered, if it was answered one.
    fn slip(&self, place: Option<usize>) -> Option<SlipNumbers> {
        let outcome = *self.outcomes.get(place?)?;
        outcome?.ok()?.slip()
    }

    /// Adds a call on one broker to the orders, and returns its place.
    fn call_one(&mut self, broker: usize, call: Call) -> io::Result<Option<usize>> {
        let place = self.orders.len();
        let mut outcome = None;
        if broker < self.brokers.len() {
            outcome = Some(self.brokers[broker].perform(call));
        }
        self.orders.push(Order { broker, call })?;
        self.outcomes.push(outcome)?;
        Ok(Some(place))
    }

    /// Adds a call on each broker.
    fn call_each(&mut self, call: Call) -> io::Result<Places> {
        array::try_from_fn(|broker| self.call_one(broker, call))
    }

    /// Adds the delivery of each slip that these orders were answered.
    fn deliver_each(&mut self, places: &Places) -> io::Result<Places> {
        array::try_from_fn(|broker| match self.slip(places[broker]) {
            Some(slip) => self.call_one(broker, Call::Deliver { slip }),
            None => Ok(None),
        })
    }

    /// Adds a call on each broker, and its line.
    fn tell(&mut self, call: Call) -> io::Result<Places> {
        let places = self.call_each(call)?;
        self.lines.push(WeekLine::Called(call, places))?;
        Ok(places)
    }

    /// Adds the delivery of what was granted, and its line.
    fn tell_delivery(&mut self, places: &Places) -> io::Result<()> {
        let delivered = self.deliver_each(places)?;
        self.lines.push(WeekLine::Delivered(delivered))?;
        Ok(())
    }

    /// Adds one call on each broker, and the delivery of what is granted. It returns whether a broker has granted a frame.
    fn call(&mut self, call: Call) -> io::Result<bool> {
        let places = self.tell(call)?;
        let granted = places.iter().any(|place| self.slip(*place).is_some());
        if granted {
            self.tell_delivery(&places)?;
        }
        Ok(granted)
    }

    /// Adds calls one after the other.
    fn calls(&mut self, calls: &[Call]) -> io::Result<()> {
        for call in calls {
            self.call(*call)?;
        }
        Ok(())
    }

    /// Lets the clients 1, 2 and 3 ask in turn until no broker grants anything, at most 24 times round.
    fn settle(&mut self) -> io::Result<()> {
        for _round in 0..24 {
            let mut granted = false;
            for client in [1, 2, 3] {
                granted |= self.call(Call::Ask { client })?;
            }
            if !granted {
                break;
            }
        }
        Ok(())
    }

    /// A passage on each broker, in which other calls wait and wrong slips are refused: client 1 hands a frame back and
    /// asks for it again; before the slip is delivered, client 2 asks, the clock is set, and a slip of unit 8 comes.
    fn passage(&mut self) -> io::Result<()> {
        self.call(Call::HandBack { client: 1 })?;
        let places = self.tell(Call::Ask { client: 1 })?;
        let wrong = SlipNumbers {
            unit: 8,
            client: 1,
            frame: 1,
            former: 0,
            asks: 1,
        };
        self.calls(&[
            Call::Ask { client: 2 },
            Call::SetClock { tick: 15 },
            Call::Deliver { slip: wrong },
        ])?;
        self.tell_delivery(&places)
    }

    /// Adds the calls of a day, after which the clients ask until no broker grants anything.
    // One `day` that takes a closure over the plan is refused: "cannot state an item with such a type in a bound yet".
    pub fn day(&mut self, day: Day, calls: &[Call]) -> io::Result<()> {
        self.lines.push(WeekLine::Day(day))?;
        self.calls(calls)?;
        self.settle()
    }

    /// Adds a passage for a day, and the same asks after it.
    pub fn day_of_passage(&mut self, day: Day) -> io::Result<()> {
        self.lines.push(WeekLine::Day(day))?;
        self.passage()?;
        self.settle()
    }

    /// Performs the whole week on new brokers, in one call, and prints what that call answers.
    pub fn perform<W: Write>(&mut self, alloc: Global, out: &mut W) -> io::Result<()> {
        let mut outcomes = vec![in alloc; None; self.orders.len()]?;
        perform_all(self.brokers, &self.orders, &mut outcomes).unwrap();
        for line in &self.lines {
            show_line(line, &outcomes, out)?;
        }
        Ok(())
    }
}
