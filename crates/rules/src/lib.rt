//! The plain values that all layers speak of, and in specs/ the rules on offers, prices, rank and refusals. What a
//! broker does with them is in `laws`.
#![tactic(auto)]

mod call;
pub mod laws;
mod offer;
mod refusal;

pub use call::{Admission, Answer, Call, Estimate, SlipNumbers};
pub use offer::{Bid, Offer, Quote};
pub use refusal::{Fault, FaultKind, Refusal};
