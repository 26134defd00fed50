// What a stack holds.
use crate::StackWhy;
use kind_table::Kind;

/// What an option is given: the reference of a channel, or a number, which for a choice is the
/// place of a word.
#[derive(Drop)]
pub enum GivenValue {
    Channel(String),
    Number(u64),
}

/// An option that is given: its row among the options of the kind, and its value.
#[derive(Drop)]
pub struct GivenOption {
    pub row: usize,
    pub value: GivenValue,
}

/// A decoder in a stack: its kind, its number among those of the kind, the options that are given,
/// and its parent's place.
#[derive(Drop)]
pub struct Instance {
    pub kind: Kind,
    pub number: u32,
    pub options: Vec<GivenOption>,
    pub parent: Option<u32>,
}

/// Why an option isn't read; its place is told by those who know it.
#[derive(Clone, Copy, Debug, PartialEq, Eq)]
pub enum Refused {
    Why(StackWhy),
    NoMemory,
}
