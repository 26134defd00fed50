// Why a decoder can't be opened.
use thiserror::Error;

/// Why a decoder can't be opened with these options at this rate.
#[derive(Clone, Copy, Debug, PartialEq, Eq, Error)]
pub enum OptFault {
    /// An option isn't in its range.
    #[error("an option is out of range")]
    Range,
    /// The rate is too low for these options.
    #[error("the rate is too low")]
    Rate,
}
