// How a run ends.
ghost use Rattle.std.specs.Prelude.{◌≡◌};
ghost use Rattle.run_status.specs.Notices.{code_of, status_at_head, status_by};

use capture_any::ListingEnd;
use check_point::CheckFault;
use cond_words::BindFault;
use la_io::{CaptureError, CaptureFault};
use stack_words::StackFault;
use words::WordFault;

/// How a run ends.
#[derive(Clone, Copy, PartialEq, Eq)]
pub enum Status {
    /// The source was read to its end, and the whole listing is written.
    Done,
    /// The words have a fault. Nothing was read, and nothing written.
    Words(WordFault),
    /// The stack of decoders has a fault. Nothing was read, and nothing written.
    Stack(StackFault),
    /// A channel isn't there, or is one too many, or the rate is too low. Nothing was written.
    Bind(BindFault),
    /// The stack of a part has more instances than a checkpoint can have, or its checkpoint is
    /// refused. Nothing was written.
    Check(CheckFault),
    /// The source failed. The listing of the samples that came before is whole.
    ReadFault,
    /// The capture has a fault. The listing of the samples before it is whole.
    Capture(CaptureFault),
    /// The sink failed. A front of the listing is written.
    WriteFault,
    /// There was no memory. A front of the listing is written.
    NoMemory,
}

impl Status {
    ghost use Rattle.run_status.specs.Notices.{is_done};

    /// Whether the run is done.
    pub fn is_done(&self) -> bool
        ensures { result ≡ is_done self.now }
    {
        match self {
            Status::Done => true,
            Status::Words(_)
            | Status::Stack(_)
            | Status::Bind(_)
            | Status::Check(_)
            | Status::ReadFault
            | Status::Capture(_)
            | Status::WriteFault
            | Status::NoMemory => false,
        }
    }
}

/// The exit status of the program for the status of a run.
pub fn exit_code(status: &Status) -> u8
    ensures { result ≡ code_of status.now }
{
    match status {
        Status::Done => 0,
        Status::Words(_) | Status::Stack(_) | Status::Bind(_) | Status::Check(_) => 1,
        Status::ReadFault => 2,
        Status::Capture(_) => 3,
        Status::WriteFault => 4,
        Status::NoMemory => 5,
    }
}

/// The status of a run whose capture can't be opened.
pub fn status_at_head(error: CaptureError) -> Status
    ensures { result ≡ status_at_head error }
{
    match error {
        CaptureError::Fault(fault) => Status::Capture(fault),
        CaptureError::Read => Status::ReadFault,
        CaptureError::NoMemory => Status::NoMemory,
    }
}

/// The status of a decoding that came to this end, or couldn't begin.
pub fn status_by(ended: Result<ListingEnd, Status>) -> Status
    ensures { result ≡ status_by ended }
{
    match ended {
        Ok(end) => Status::from(end),
        Err(status) => status,
    }
}

impl From<ListingEnd> for Status {
    ghost use Rattle.run_status.specs.Notices.{status_of};

    ghost from_gives = { λ end status. status ≡ status_of end };

    fn from(end: ListingEnd) -> Status {
        match end {
            ListingEnd::Done => Status::Done,
            ListingEnd::Read => Status::ReadFault,
            ListingEnd::Write => Status::WriteFault,
            ListingEnd::Fault(fault) => Status::Capture(fault),
            ListingEnd::NoMemory => Status::NoMemory,
        }
    }
}
