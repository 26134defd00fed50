//! Decoders as walks over samples. A decoder whose definition over whole lists gives, with one more
//! sample, what a state says that keeps what the samples before it left, has all that a decoder of
//! samples owes. It shows ten facts of one state and one sample; for a decoder that goes by events
//! of neighbouring samples, eleven of one state and one event. `Edges` is the smallest example.
#![tactic(auto)]

mod edges;
mod laws;

pub use edges::Edges;
pub use laws::{event_laws, walk_laws};
