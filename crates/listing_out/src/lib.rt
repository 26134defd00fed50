//! What a listing is made of: a line for a note, a line for a stop, the bytes of binary data, lines
//! that tell how much decoders gave. Each is written through any sink, whole, or a front of it
//! where the sink failed.
#![tactic(auto)]

mod data;
mod kept;
mod name;
mod note_texts;
mod notes;
mod stops;
mod summaries;
mod text;

pub use data::{write_data, write_piece};
pub use note_texts::note_text;
pub use notes::{NoteLine, write_note};
pub use stops::StopLine;
pub use summaries::{Tally, write_summary};
pub use text::push_text;
