//! Orders, and how one is performed.
ghost use Rattle.family.specs.Orders.{Obeyed};

use broker::PlainBroker;
use price::Price;
use rules::{Answer, Call, Refusal};

/// A call on one of several brokers, by its place among them.
#[derive(Clone, Copy, Drop)]
pub struct Order {
    pub broker: usize,
    pub call: Call,
}

/// What the order's broker answers, or none where no broker is at its place.
pub type Outcome = Option<Result<Answer, Refusal>>;

/// Performs an order on its broker, if there is one.
pub(crate) fn obey<P: Price>(brokers: &mut [PlainBroker<P>], order: Order) -> Outcome
    ensures { Obeyed brokers.old order result brokers.new }
{
    // `get_mut` says nothing of what the brokers are left as, so the broker is called by its place.
    if order.broker >= brokers.len() {
        return None;
    }
    Some(brokers[order.broker].perform(order.call))
}
