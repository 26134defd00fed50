// Why chains make no stack.
use thiserror::Error;

/// Why chains make no stack.
#[derive(Clone, Copy, Debug, PartialEq, Eq, Error)]
pub enum StackWhy {
    /// There is no such kind, option, instance or class of binary data.
    #[error("no such name")]
    Unknown,
    /// An option has no value, or not one that it takes.
    #[error("no such value")]
    Value,
    /// A number is out of its option's range.
    #[error("the number is out of range")]
    Range,
    /// An option is given twice.
    #[error("the option was given before")]
    Repeat,
    /// A decoder of packets has nothing to stand on, or a head with a hyphen is no earlier
    /// instance.
    #[error("there is nothing to stand on")]
    NoParent,
    /// A decoder stands on one that doesn't give what it wants.
    #[error("it can't stand on this decoder")]
    Mismatch,
    /// A channel that is required isn't given.
    #[error("a channel is missing")]
    Missing,
    /// There is one instance too many.
    #[error("too many decoders")]
    Many,
}

/// The first fault of chains: the number of a word, the place of a byte in it, and why.
#[derive(Clone, Copy, Debug, PartialEq, Eq, Error)]
#[error("word {word} byte {at}: {why}")]
pub struct StackFault {
    pub word: u32,
    pub at: u32,
    pub why: StackWhy,
}

/// Why a stack can't be read: its first fault, or want of memory.
#[derive(Clone, Copy, Debug, PartialEq, Eq, Error)]
pub enum StackError {
    #[error(transparent)]
    Fault(StackFault),
    #[error("there is no memory")]
    NoMemory,
}
