// Why a listing was stopped.

/// Why a listing was stopped.
#[derive(Clone, Copy, Debug, PartialEq, Eq)]
pub enum ListStop {
    /// The sink failed.
    Write,
    /// There was no memory.
    NoMemory,
}
