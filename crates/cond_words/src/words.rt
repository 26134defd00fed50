// What the words of an alternative mean.
ghost use Rattle.std.specs.Prelude.{◌≤◌, vec_len};

use thiserror::Error;

/// What is asked of a line at a sample.
#[derive(Clone, Copy, PartialEq, Eq)]
pub enum Letter {
    /// `l`: it is low.
    Low,
    /// `h`: it is high.
    High,
    /// `r`: it rises from the sample before.
    Rise,
    /// `f`: it falls from the sample before.
    Fall,
    /// `e`: it rises or falls.
    Edge,
    /// `s`: it neither rises nor falls.
    Steady,
}

/// A reference to a channel with its letter, or the number of a skip.
#[derive(Drop)]
pub enum Term {
    Line { reference: String, letter: Letter },
    Skip(u64),
}

/// The terms of one word, in their order.
#[derive(Drop)]
pub struct AltWords {
    pub terms: Vec<Term>,
    ghost few: { vec_len terms ≤ 4096 },
}

/// Why a word is no alternative.
#[derive(Clone, Copy, Debug, PartialEq, Eq, Error)]
pub enum CondWhy {
    /// A term has no byte; the place is where it would begin.
    #[error("a term is empty")]
    Empty,
    /// A term has no `=`, or nothing before it; the place is its first byte.
    #[error("a term is no REF=LETTER")]
    Term,
    /// What follows the `=` is no letter; the place is the byte behind the `=`.
    #[error("no such letter")]
    Level,
    /// A skip is given twice or isn't in range; the place is the byte behind the `=`.
    #[error("no such skip")]
    Skip,
    /// There are too many terms; the place is the first byte of the first one too many.
    #[error("too many terms")]
    Many,
}

/// The first fault of a word: the place of a byte, and why.
#[derive(Clone, Copy, Debug, PartialEq, Eq, Error)]
#[error("byte {at}: {why}")]
pub struct CondFault {
    pub at: u32,
    pub why: CondWhy,
}

/// Why a word can't be read: its first fault, or want of memory.
#[derive(Clone, Copy, Debug, PartialEq, Eq, Error)]
pub enum CondError {
    #[error(transparent)]
    Fault(CondFault),
    #[error("there is no memory")]
    NoMemory,
}
