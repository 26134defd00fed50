// The search for all stops of a capture.
ghost use Rattle.std.specs.Prelude.{◌≡◌, ◌≢◌, ◌<◌, ◌≤◌, ◌+◌, ◌^◌, [], true, length, Ok, Err, IfOk, OnErr};
ghost use Rattle.std.specs.Io.KnownBytes.{Keeps};
ghost use Rattle.la_base.specs.Runs.{samples_of};
ghost use Rattle.la_io.specs.Causes.{HasCause};
ghost use Rattle.la_io.specs.Reading.{CaptureCause};
ghost use Rattle.capture_any.specs.Taking.{GaveHeld, Gives, open_behind};
ghost use Rattle.wait_cond.specs.Conds.{cond_alts};
ghost use Rattle.capture_any.specs.Captures.{TakesNoMemory};
ghost use Rattle.capture_any.specs.Listings.{ReadCause, WriteCause};
ghost use Rattle.capture_any.specs.Reading.{form_of, given_by, is_open_of, pins_of};
ghost use Rattle.find_job.specs.Finding.{Finds};

use crate::FindEnd;
use crate::stops::write_runs;
use capture_any::{Capture, Runs};
use la_io::{Buffered, CaptureError, Failed, Sink, Source};
use listing_out::StopLine;
use wait_cond::{Cond, Waiter};

// The next runs: those that were read already; and where there are none, those that are read now.
// Where the read may have to wait for bytes, the sink hands on what it keeps back before it: the answer
// is `Failed` where it can't.
fn next_settled<S: Source, K: Sink>(
    capture: &mut Capture,
    source: &mut S,
    runs: &mut Runs,
    sink: &mut K,
) -> Result<Result<bool, CaptureError>, Failed>
    requires { is_open_of capture.old ≡ true }
    ensures gives { IfOk result (λ answer. Gives capture.old capture.new (S.left source.old)
        (S.left source.new) runs.new answer) }
    ensures is_open { IfOk result (λ answer. is_open_of capture.new ≡ open_behind answer) }
    ensures progress { IfOk result (λ answer. answer ≡ Ok true
        → given_by capture.old < given_by capture.new) }
    ensures counts { IfOk result (λ answer. answer ≡ Ok true
        → given_by capture.old + length (samples_of runs.new) ≤ given_by capture.new) }
    ensures few { IfOk result (λ answer. given_by capture.new ≤ 2 ^ 60) }
    ensures memory { IfOk result (λ answer. TakesNoMemory (form_of capture.old)
        → answer ≢ Err CaptureError.NoMemory) }
    ensures read { IfOk result (λ answer. CaptureCause (S.faults source.old) (S.faults source.new)
        answer) }
    ensures held { OnErr result (GaveHeld capture.old capture.new (samples_of runs.new)) }
    ensures unread { OnErr result (source.new ≡ source.old) }
    ensures none { OnErr result (runs.new ≡ []) }
    ensures form { form_of capture.new ≡ form_of capture.old }
    ensures pins { pins_of capture.new ≡ pins_of capture.old }
    ensures written { Keeps (K.written sink.old) (K.written sink.new) }
    ensures cause { HasCause (K.faults sink.old) (K.faults sink.new) result }
    ensures goes_on { K.goes_on sink.old sink.new }
{
    if capture.held_runs(runs) {
        return Ok(Ok(true));
    }
    if source.may_wait() {
        match sink.hand_on() {
            Ok(()) => {}
            Err(Failed) => return Err(Failed),
        }
    }
    Ok(capture.next_runs(source, runs))
}

/// Waits again and again for the condition, and writes for each stop the line `AT: I,J`: the number
/// of its sample, and the alternatives that are met there, rising. No sample was given yet. Before
/// each read that may have to wait for bytes the sink is told to hand on what it keeps back.
pub fn find<S: Source, K: Sink>(
    capture: &mut Capture,
    cond: Cond,
    source: &mut S,
    sink: &mut K,
) -> FindEnd
    requires { is_open_of capture.old ≡ true }
    // What the end says of the bytes that were taken and of what was written.
    ensures finds { Finds capture.old (cond_alts cond) (S.left source.old) (S.left source.new)
        (K.written sink.old) (K.written sink.new) result }
    // Read comes only where the source failed.
    ensures read { ReadCause (S.faults source.old) (S.faults source.new) result }
    // Write comes exactly where the sink failed.
    ensures write { WriteCause (K.faults sink.old) (K.faults sink.new) result }
    ensures memory { TakesNoMemory (form_of capture.old) → result ≢ FindEnd.NoMemory }
    ensures goes_on { K.goes_on sink.old sink.new }
    ensures form { form_of capture.new ≡ form_of capture.old }
    ensures pins { pins_of capture.new ≡ pins_of capture.old }
{
    let mut waiter = Waiter::new(cond);
    let mut line = StopLine::new();
    let mut runs = Runs::new();
    loop {
        match next_settled(capture, source, &mut runs, sink) {
            Ok(Ok(true)) => match write_runs(&mut waiter, runs.list(), &mut line, sink) {
                Ok(()) => {}
                Err(Failed) => return FindEnd::Write,
            },
            Ok(Ok(false)) => return FindEnd::Done,
            Ok(Err(CaptureError::Fault(fault))) => return FindEnd::Fault(fault),
            Ok(Err(CaptureError::Read)) => return FindEnd::Read,
            Ok(Err(CaptureError::NoMemory)) => return FindEnd::NoMemory,
            Err(Failed) => return FindEnd::Write,
        }
    }
}

/// The same through a buffer before the sink, which hands all on before it answers.
pub fn find_buffered<S: Source, K: Sink>(
    capture: &mut Capture,
    cond: Cond,
    source: &mut S,
    sink: &mut K,
) -> FindEnd
    requires { is_open_of capture.old ≡ true }
    ensures finds { Finds capture.old (cond_alts cond) (S.left source.old) (S.left source.new)
        (K.written sink.old) (K.written sink.new) result }
    ensures read { ReadCause (S.faults source.old) (S.faults source.new) result }
    ensures write { WriteCause (K.faults sink.old) (K.faults sink.new) result }
    ensures memory { TakesNoMemory (form_of capture.old) → result ≢ FindEnd.NoMemory }
    ensures goes_on { K.goes_on sink.old sink.new }
    ensures form { form_of capture.new ≡ form_of capture.old }
    ensures pins { pins_of capture.new ≡ pins_of capture.old }
{
    let mut buffered = Buffered::new(sink);
    match find(capture, cond, source, &mut buffered) {
        FindEnd::Write => FindEnd::Write,
        end => match buffered.flush() {
            Ok(()) => end,
            Err(Failed) => FindEnd::Write,
        },
    }
}
