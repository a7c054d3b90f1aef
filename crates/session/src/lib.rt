//! A broker's program: event lines are performed on a broker, one after another, and what is printed of each is a value
//! that is written into a borrowed buffer or printed.
#![tactic(auto)]

mod examples;
mod input;
mod printed;
mod session;

pub use examples::all_worked_examples_hold;
pub use input::{print_input, serve, serve_by_class, serve_by_shares};
pub use printed::{Grant, Held, Printed, Reported, Taken};
pub use session::Session;
