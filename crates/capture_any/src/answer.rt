// What the readers answer, as answers of a capture.
ghost use Rattle.std.specs.Prelude.{◌≡◌};
ghost use Rattle.capture_any.specs.Answers.{answer_of};

use capture_raw::RawStep;
use la_base::Run;
use la_io::{CaptureError, CaptureFault, Failed};

/// The answer of a raw reader.
#[inline(always)]
pub fn answer_of(step: Result<RawStep, Failed>) -> Result<Option<Run>, CaptureError>
    ensures { result ≡ answer_of step }
{
    match step {
        Ok(RawStep::Run(run)) => Ok(Some(run)),
        Ok(RawStep::End) => Ok(None),
        Ok(RawStep::ShortUnit { at }) => Err(CaptureError::Fault(CaptureFault::ShortUnit { at })),
        Ok(RawStep::Bytes) => Err(CaptureError::Fault(CaptureFault::Bytes)),
        Err(Failed) => Err(CaptureError::Read),
    }
}
