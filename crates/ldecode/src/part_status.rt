// How a run over a part ends.
ghost use Rattle.std.specs.Prelude.{◌≡◌};
ghost use Rattle.run_status.specs.Notices.{status_of};
ghost use Rattle.ldecode.specs.PartStatus.{end_of_part};

use decode_job::PartEnd;
use la_io::CaptureFault;
use run_status::Status;

/// The status of a run whose decoding of a part ended so.
pub(crate) fn status_of_part(end: PartEnd) -> Status
    ensures { result ≡ status_of (end_of_part end) }
{
    match end {
        PartEnd::Ended(end) => Status::from(end),
        PartEnd::Past => Status::Capture(CaptureFault::Past),
    }
}
