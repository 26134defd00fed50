//! MIDI 1.0 on the bytes of a serial line, by the MIDI 1.0 Detailed Specification: channel messages
//! with running status, system common messages, system exclusive, and real time messages.
//!
//! A channel message gives a note of class 0 to 6, a system common message one of class 7 to 10,
//! and a real time message one of class 11. System exclusive gives class 12 where it is ended as it
//! should be, and 13 where another status cuts it off. Class 14 is a data byte of no message, and
//! 15 a status that says nothing. A message has its status, its first data byte and its second as
//! `a`, eight bits each; system exclusive the number of its data bytes; anything else its byte.
#![tactic(auto)]

mod bytes;
mod held;
mod kept;
mod laws;
mod machine;
mod rows;
mod status;
mod texts;

pub use held::{Held, Midi, MidiOpts, Sort, Takes};
pub use laws::real_time_changes_no_other_note;
pub use machine::open;
pub use rows::rows_hold;
pub use texts::text;
