// A word whose text is read part by part.

/// A word of the command line that a grammar of its own reads: its number, counted from 0, and its
/// text.
#[derive(Drop)]
pub struct ChainWord {
    pub word: u32,
    pub text: String,
}
