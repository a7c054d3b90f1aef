//! Several new brokers, each under a price of its own, and one list of orders for them.
#![tactic(auto)]

mod alone;
mod orders;
mod perform;

pub use alone::each_of_several_brokers_keeps_the_guarantees;
pub use orders::{Order, Outcome};
pub use perform::perform_all;
