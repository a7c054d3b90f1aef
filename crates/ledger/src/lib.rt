//! The ledger of frames: which frame lies in which owner's stack, and in what order.
//!
//! Frames are numbered from 1. Owner 0 has the free stack, and the owners 1 to 256 have one each. Every frame is in
//! exactly one stack, once, and leaves it at its top only. The memory is fixed: to move a frame takes constant time.
#![tactic(auto)]

mod ledger;

pub use ledger::{HasFrames, Ledger};
