// How tables of samples are read.

/// What a record of a CSV capture stands for.
#[derive(Clone, Copy, PartialEq, Eq)]
pub enum CsvMode {
    /// One sample.
    Rows,
    /// The values from a time on, which its first field tells.
    Times,
}
