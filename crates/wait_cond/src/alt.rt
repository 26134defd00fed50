// Alternatives.
use la_base::Word;

/// Terms that must all hold at a sample: for each kind of term a mask of the lines that it is asked
/// of, bit j for the line of bit j of a sample. With `skip` above 0 the sample is besides at least
/// `skip` samples behind the last stop; before the first stop that is counted from place -1.
#[derive(Clone, Copy, Debug, Default, PartialEq, Eq)]
pub struct Alt {
    pub low: Word,
    pub high: Word,
    pub rise: Word,
    pub fall: Word,
    pub edge: Word,
    pub steady: Word,
    pub skip: u64,
}
