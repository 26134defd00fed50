// Faults of tokens and lines, as errors of a capture.
ghost use Rattle.std.specs.Prelude.{◌≡◌, ◌≢◌};
ghost use Rattle.byte_feed.specs.Errors.{error_of};

use crate::FeedFault;
use la_io::{CaptureError, CaptureFault};

/// What stops the reader of a capture whose tokens or lines have a fault. A reader that has
/// answered a fault asks for no more, so that `Spent` doesn't come.
pub fn error_of(fault: FeedFault) -> CaptureError
    ensures is { result ≡ error_of fault }
    ensures some_memory { result ≢ CaptureError.NoMemory }
{
    match fault {
        FeedFault::Read => CaptureError::Read,
        FeedFault::TooLong { at } => CaptureError::Fault(CaptureFault::TooLong { at }),
        FeedFault::Bytes => CaptureError::Fault(CaptureFault::Bytes),
        FeedFault::Spent => CaptureError::Read,
    }
}
