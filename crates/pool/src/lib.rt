//! What a broker keeps whatever its price is: the frames, the clients with their estimates, the clock and the open passage.
//!
//! The calls that compare no prices are whole here. An ask is here in two parts, who may ask and the grant of a frame, and
//! the clock in three, whether it may be set, the drop of one ended estimate, and the tick; a broker adds from whom a frame
//! is taken, and keeps its bids in line.
#![tactic(auto)]

mod ends;
mod member;
mod members;
mod pool;

pub use member::Member;
pub use pool::Pool;
