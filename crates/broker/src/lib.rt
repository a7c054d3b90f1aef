//! The broker: it shares the frames of one pool among up to 256 clients under a price.
#![tactic(auto)]

mod bids;
mod broker;
mod plain;
mod slip;

pub use broker::Broker;
pub use plain::PlainBroker;
pub use slip::{Slip, Undelivered};
