// What the words set, and what is wrong with a word.
use thiserror::Error;

/// What the program is to do.
#[derive(Clone, Copy, PartialEq, Eq)]
pub enum Job {
    /// Write the notes that the decoders of the words make of the capture.
    Decode,
    /// Write a line for each sample at which a condition is met.
    Find,
    /// Decode a capture that is made from a seed, and write how much it gives.
    Make,
    /// As `Decode`, of raw samples that go on where an earlier part ended; behind the notes a
    /// checkpoint is written, with which a later part goes on.
    Part,
}

/// How many chains of decoders, or alternatives of a condition, a job takes.
#[derive(Clone, Copy, PartialEq, Eq)]
pub struct WordCount {
    pub fewest: usize,
    pub most: usize,
}

/// The form of the capture.
#[derive(Clone, Copy, PartialEq, Eq)]
pub enum Format {
    /// One unit of bytes for each sample.
    Raw,
    /// A VCD file, by clause 18 of IEEE 1364-2005.
    Vcd,
    /// A CSV file, in one of two modes.
    Csv,
}

/// What is wrong with a word.
#[derive(Clone, Copy, Debug, PartialEq, Eq, Error)]
pub enum WordWhy {
    /// It begins with `-` and names no option.
    #[error("no such option")]
    Unknown,
    /// It is an option, and no value stands behind it.
    #[error("the option has no value")]
    NoValue,
    /// The option was given before.
    #[error("the option was given before")]
    Repeat,
    /// The option takes no such value.
    #[error("the option takes no such value")]
    Value,
    /// The number is outside the option's range.
    #[error("the number is out of range")]
    Range,
    /// It has no byte.
    #[error("the word is empty")]
    Empty,
    /// It has more than 4,096 bytes.
    #[error("the word is too long")]
    Long,
    /// The job takes no such words at all.
    #[error("the job takes no such word")]
    Extra,
    /// The job needs more words.
    #[error("too few words")]
    Few,
    /// It is one word more than there may be.
    #[error("too many words")]
    Many,
    /// The job reads raw samples alone and writes no binary data.
    #[error("the job takes no such format and no binary data")]
    Clash,
    /// The alternative has a fault.
    #[error("the alternative has a fault")]
    Cond,
}

/// The first fault of the words: the number of the word, counted from 0, and the place of the byte
/// where the fault is, which is 0 but for `Cond`.
#[derive(Clone, Copy, Debug, PartialEq, Eq, Error)]
#[error("word {word} at {at}: {why}")]
pub struct WordFault {
    pub word: u32,
    pub at: u32,
    pub why: WordWhy,
}

/// Why words are not read: their first fault, or want of memory.
#[derive(Clone, Copy, Debug, PartialEq, Eq, Error)]
pub enum WordsError {
    #[error(transparent)]
    Fault(WordFault),
    #[error("there is no memory")]
    NoMemory,
}
