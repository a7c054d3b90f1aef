//! A broker that takes its calls as plain values.
ghost use Rattle.std.specs.Prelude.{◌≡◌};
ghost use Rattle.laws.specs.Broker.{new_broker};

use crate::broker::Broker;
use price::Price;
use rules::{Answer, Call, Refusal};

/// A broker of its own, which takes every call as plain numbers, also the slips. It lends the broker that it holds for
/// questions alone and never hands it out, so no planner can come to hold a broker whose slip was lost as numbers.
#[derive(Drop)]
pub struct PlainBroker<P: Price> {
    broker: Broker<P>,
}

impl<P: Price> PlainBroker<P> {
    ghost use Rattle.broker.specs.View.{meaning, view, Guaranteed, Stepped};
    ghost use Rattle.broker.specs.Plain.{broker_of};

    /// A broker under a price, without frames and clients, at tick 0.
    pub fn new(price: P) -> PlainBroker<P>
        ensures view { view (broker_of result) ≡ new_broker }
        ensures guarantees { Guaranteed (meaning (broker_of result)) }
        ensures price { (broker_of result).price ≡ price }
    {
        PlainBroker {
            broker: Broker::new(price),
        }
    }

    /// Makes it a new broker again, under its price.
    pub fn renew(&mut self)
        ensures view { view (broker_of self.new) ≡ new_broker }
        ensures price { (broker_of self.new).price ≡ (broker_of self.old).price }
    {
        self.broker.renew();
    }

    /// Performs a call that is given as plain numbers, a slip by its five numbers, right or wrong.
    pub fn perform(&mut self, call: Call) -> Result<Answer, Refusal>
        ensures { Stepped (broker_of self.old) call result (broker_of self.new) }
    {
        let broker = &mut self.broker;
        match call {
            Call::Start { unit, frames } => broker.start(unit, frames).map(|()| Answer::Done),
            Call::Admit(asked) => broker.admit(asked).map(|()| Answer::Done),
            Call::Ask { client } => broker.grant(client).map(Answer::Granted),
            Call::Deliver { slip } => broker.close(slip).map(|()| Answer::Done),
            Call::HandBack { client } => broker.hand_back(client).map(Answer::Frame),
            Call::Leave { client } => broker.leave(client).map(Answer::Count),
            Call::SetEstimate { client, estimate } => {
                broker.estimate(client, estimate).map(|()| Answer::Done)
            }
            Call::SetClock { tick } => broker.clock(tick).map(Answer::Count),
        }
    }

    /// The broker, for questions.
    pub fn broker(&self) -> &Broker<P>
        ensures { result.now ≡ broker_of self.now }
    {
        &self.broker
    }
}
