//! Plain values as bytes: numbers of a fixed width, whether something holds, options and pairs;
//! what was put is read back.
#![tactic(auto)]

mod numbers;
mod options;
mod pairs;
mod parts;
mod plain;
mod whole;

pub use parts::{Parted, get_parts, put_parts};
pub use plain::{MOST_SAVED, Plain, Saved};
pub use whole::{front_of, is_put, read_as};
