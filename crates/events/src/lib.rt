//! Event lines: read word by word, turned into events, and written again.
//!
//! A line is a capital letter and its numbers, each after one space. `read` returns the event that a line says, or
//! the first fault from the left; `Event::write` writes the line of an event into a borrowed buffer; `Lines` cuts an
//! input into its lines; `at_line` gives a refused line its number.
#![tactic(auto)]

mod event;
mod input;
mod line_fault;
mod lines;
mod reader;
mod word;

pub use event::{Event, read};
pub use input::read_input;
pub use line_fault::{LineFault, at_line};
pub use lines::Lines;
pub use reader::Reader;
pub use word::{Due, EventKind, Form, Word};
