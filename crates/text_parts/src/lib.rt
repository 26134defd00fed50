//! Reading a text part by part, to its first fault.
//!
//! `specs/Reading.antt` says what it means to read parts one after another, `specs/Places.antt`
//! what the parts of a text are, and `specs/Numbers.antt` what a number is. The functions of this
//! file are what holds of every such reading.
#![tactic(auto)]

ghost use Rattle.std.specs.Prelude.{◌≡◌, ◌+◌, ◌<◌, ◌≤◌, ◌^◌, length, ℕ, List, Result};
ghost use Rattle.text_parts.specs.Reading.{FaultIsFirst, FirstIsFault};
ghost use Rattle.text_parts.specs.Places.{Placed, placed_from, PartsFill};

mod chain;
mod numbers;

pub use chain::ChainWord;
pub use numbers::{NumberWhy, number_in};

/// The place of the part behind this one, which begins at `at`: one separator stands between them.
pub fn place_behind(at: u32, part: &str) -> u32
    requires { at + length part.now + 1 < 2 ^ 32 }
    ensures { result ≡ at + length part.now + 1 }
{
    at + part.len() as u32 + 1
}

/// Reading answers a fault exactly where it is that of the first part that has one: all parts
/// before it are read, and it is judged behind their values.
pub fn first_fault_is_answered<P, V, F>()
    ensures first { FaultIsFirst P V F }
    ensures answered { FirstIsFault P V F }
{}

/// The parts of a text between separators fill it: with one separator behind each of them they are
/// as wide as the text and one more.
pub fn parts_fill_the_text()
    ensures { (separator : ℕ) (text : List ℕ) → PartsFill separator text }
{}
