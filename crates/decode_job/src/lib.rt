//! The job decode: what a tree of decoders gives on a capture, written while it is read, and shown
//! to what looks on; of a part, with a checkpoint behind it.
#![tactic(auto)]

mod capture_feed;
mod ending;
mod job;
mod laws;
mod part_end;
mod part_job;
mod running;
mod tree;
mod up_to;

pub use capture_any::ListingEnd as DecodeEnd;
pub use capture_feed::CaptureFeed;
pub use job::{decode, decode_in_threads};
pub use laws::parts_list_the_whole;
pub use part_end::PartEnd;
pub use part_job::part;
pub use stack_threads::InThreads;
pub use tree::{PartStart, Tree};
