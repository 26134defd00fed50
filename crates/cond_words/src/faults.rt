// Why the terms of an alternative, or a stack, can't be bound.
use thiserror::Error;

/// Why a channel can't be bound.
#[derive(Clone, Copy, Debug, PartialEq, Eq, Error)]
pub enum BindWhy {
    /// There is no such channel.
    #[error("no such channel")]
    Unknown,
    /// There would be more bound channels than a sample has bits.
    #[error("too many channels")]
    TooMany,
    /// The rate is too low for what is bound; no alternative has this fault.
    #[error("the rate is too low")]
    Rate,
}

/// The first item that can't be bound, and why. Items count from 0.
#[derive(Clone, Copy, Debug, PartialEq, Eq, Error)]
#[error("item {item}: {why}")]
pub struct ItemFault {
    pub item: u32,
    pub why: BindWhy,
}

/// The first fault of binding, and why: an instance, counted from 0, and the row of one of its
/// options in the table of its kind, or an alternative of a search and one of its terms. `Rate` is
/// told with item 0.
#[derive(Clone, Copy, Debug, PartialEq, Eq, Error)]
#[error("entry {entry} item {item}: {why}")]
pub struct BindFault {
    pub entry: u32,
    pub item: u32,
    pub why: BindWhy,
}

/// Why a stack or a search can't be bound: the first fault, or want of memory.
#[derive(Clone, Copy, Debug, PartialEq, Eq, Error)]
pub enum BindError {
    #[error(transparent)]
    Fault(BindFault),
    #[error("there is no memory")]
    NoMemory,
}
