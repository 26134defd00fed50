// A capture as the feed of a tree of decoders.
ghost use Rattle.std.specs.Prelude.{◌≡◌, ◌^◌, [], min, not, true};
ghost use Rattle.capture_any.specs.Reading.{given_by, is_open_of};
ghost use Rattle.tree_io.specs.Feeds.{together};
ghost use Rattle.decode_job.specs.Feeding.{ended};

use capture_any::{Capture, ListingEnd, Runs};
use la_base::Run;
use la_io::{CaptureError, Source};
use std::snapshot::Snapshot;
use tree_io::RunFeed;

/// Gives the runs of a capture that was lent with its source, many at once. Behind them `end` tells
/// how the capture ended.
#[derive(Drop)]
pub struct CaptureFeed<'a, 'b, S: Source> {
    pub capture: &'a mut Capture,
    pub source: &'b mut S,
    pub(crate) runs: Runs,
    /// How the capture ended, behind all that it gave.
    pub end: ListingEnd,
    // What it was made over. Contracts alone read these.
    first_capture: Snapshot<&'a mut Capture>,
    first_source: Snapshot<&'b mut S>,
}

impl<'a, 'b, S: Source> CaptureFeed<'a, 'b, S> {
    ghost use Rattle.decode_job.specs.Feeding.{GaveRuns};

    /// A feed that has given nothing.
    pub fn new(capture: &'a mut Capture, source: &'b mut S) -> CaptureFeed<'a, 'b, S>
        requires { is_open_of capture.old ≡ true }
        ensures capture { result.first_capture.value.now ≡ capture.old }
        ensures source { result.first_source.value.now ≡ source.old }
        ensures source_now { result.source.now ≡ source.old }
        ensures same_source { result.source.ghost_name ≡ source.entry.ghost_name }
        ensures first_source { result.first_source.value.ghost_name ≡ source.entry.ghost_name }
        ensures gave { GaveRuns S.left S.faults result [] }
    {
        let first_capture = Snapshot::of(&capture);
        let first_source = Snapshot::of(&source);
        CaptureFeed {
            capture,
            source,
            runs: Runs::new(),
            end: ListingEnd::Done,
            first_capture,
            first_source,
        }
    }
}

// How a capture ended, where it answers that it has no more runs.
fn end_of(answer: Result<bool, CaptureError>) -> Option<ListingEnd>
    ensures { result ≡ ended answer }
{
    match answer {
        Ok(true) => None,
        Ok(false) => Some(ListingEnd::Done),
        Err(CaptureError::Fault(fault)) => Some(ListingEnd::Fault(fault)),
        Err(CaptureError::Read) => Some(ListingEnd::Read),
        Err(CaptureError::NoMemory) => Some(ListingEnd::NoMemory),
    }
}

impl<'a, 'b, S: Source> RunFeed for CaptureFeed<'a, 'b, S> {
    ghost use Rattle.decode_job.specs.Feeding.{GaveRuns};

    type Origin = (Snapshot<&'a mut Capture>, Snapshot<&'b mut S>);

    ghost gave = { λ feed lists. GaveRuns S.left S.faults feed (together lists) };

    ghost given = { λ feed. min (given_by feed.capture.now) (2 ^ 60) };

    ghost held = { λ feed. feed.runs };

    ghost at_end = { λ feed. not (is_open_of feed.capture.now) };

    ghost origin = { λ feed. (feed.first_capture, feed.first_source) };

    fn next_runs(&mut self) -> bool {
        if !self.capture.is_open() {
            self.runs.clear();
            return false;
        }
        match end_of(self.capture.next_runs(self.source, &mut self.runs)) {
            None => true,
            Some(end) => {
                self.end = end;
                self.runs.clear();
                false
            }
        }
    }

    fn held_runs(&mut self) -> bool {
        if !self.capture.is_open() {
            self.runs.clear();
            return false;
        }
        if self.capture.held_runs(&mut self.runs) {
            return true;
        }
        false
    }

    fn runs(&self) -> &[Run] {
        self.runs.list()
    }

    fn may_wait(&self) -> bool {
        self.source.may_wait()
    }

    fn waits_now(&self) -> bool {
        self.source.waits_now()
    }
}
