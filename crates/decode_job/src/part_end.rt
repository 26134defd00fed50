// How the decoding of a part ends.
use capture_any::ListingEnd;

/// How the decoding of a part ended.
#[derive(Clone, Copy, PartialEq, Eq)]
pub enum PartEnd {
    /// As that of its capture did.
    Ended(ListingEnd),
    /// The capture has more samples than may come. Those that may were decoded.
    Past,
}
