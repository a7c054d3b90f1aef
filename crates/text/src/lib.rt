//! Lines of text put together in fixed memory, and written into a borrowed buffer or refused.
#![tactic(auto)]

mod line;
mod number;
mod text;

pub use line::Line;
pub use number::plain_number;
pub use text::Text;
