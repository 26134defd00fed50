// How the writing of a listing ends.
use la_io::CaptureFault;

/// How the writing of a capture's listing ends.
#[derive(Clone, Copy, Debug, PartialEq, Eq)]
pub enum ListingEnd {
    /// The capture was read to its end, and the whole listing is written.
    Done,
    /// The source failed. The listing of the samples that came before is whole.
    Read,
    /// The sink failed. A front of the listing is written.
    Write,
    /// The capture has a fault. The listing of the samples before it is whole.
    Fault(CaptureFault),
    /// There was no memory. A front of the listing is written.
    NoMemory,
}
