// What a raw reader answers.
use la_base::Run;

/// What comes next of a raw capture.
#[derive(Clone, Copy, Debug, PartialEq, Eq)]
pub enum RawStep {
    /// The next samples.
    Run(Run),
    /// The bytes end after a whole unit.
    End,
    /// The bytes end inside the unit that begins at `at`.
    ShortUnit { at: u64 },
    /// 2^60 bytes were taken.
    Bytes,
}
