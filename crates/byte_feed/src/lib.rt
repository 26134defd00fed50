//! Tokens of a stream of bytes, each with the place of its first byte, and lines, each with its
//! number, however the stream is cut.
#![tactic(auto)]

mod blanks;
mod errors;
mod fault;
mod filling;
mod laws;
mod line_ends;
mod lines;
mod repeats;
mod tokens;

pub use errors::error_of;
pub use fault::FeedFault;
pub use laws::{lines_can_be_cut, lines_extend, lines_hold, tokens_extend};
pub use lines::Lines;
pub use tokens::Tokens;
