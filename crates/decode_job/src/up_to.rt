// A capture as the feed of a part of a longer one: at most so many of its samples are given.
ghost use Rattle.std.specs.Prelude.{◌≡◌, ◌+◌, ◌≤◌, ◌<◌, ◌^◌, [], length, min, take, get_or};
ghost use Rattle.capture_any.specs.Reading.{given_by};
ghost use Rattle.la_base.specs.Runs.{samples_of};
ghost use Rattle.la_base.specs.declared.samples.Run.{Run};
ghost use Rattle.tree_io.specs.Feeds.{together};
ghost use Rattle.decode_job.specs.Feeding.{GaveRuns};

use crate::capture_feed::CaptureFeed;
use capture_any::Capture;
use la_base::Run;
use la_io::Source;
use std::snapshot::Snapshot;
use tree_io::RunFeed;

/// Gives the runs of a capture up to so many samples. Where there are more, the last run is cut,
/// and the capture isn't read on.
#[derive(Drop)]
pub(crate) struct UpTo<'a, 'b, S: Source> {
    pub(crate) feed: CaptureFeed<'a, 'b, S>,
    room: u64,
    /// How many samples it gave.
    pub(crate) given: u64,
    /// There were more samples than it may give.
    pub(crate) past: bool,
    // The last call gave nothing.
    ended: bool,
}

impl<'a, 'b, S: Source> UpTo<'a, 'b, S> {
    ghost use Rattle.decode_job.specs.UpTo.{GaveUpTo, inner_of, most_of};

    /// A feed that has given nothing of what this one is to give.
    pub(crate) fn new(feed: CaptureFeed<'a, 'b, S>, room: u64) -> UpTo<'a, 'b, S>
        requires few { room ≤ 2 ^ 59 }
        requires gave { GaveRuns S.left S.faults feed [] }
        ensures feed { inner_of result ≡ feed.entry }
        ensures room { most_of result ≡ room }
        ensures gave { GaveUpTo S.left S.faults result [] }
    {
        UpTo {
            feed,
            room,
            given: 0,
            past: false,
            ended: false,
        }
    }
}

// How many runs have at most so many samples together, and how many more there may be behind them:
// fewer than the next run has, if there is one.
fn fit(runs: &[Run], most: u64) -> (usize, u64)
    ensures place { result.0 ≤ length runs.now }
    ensures left { length (samples_of (take result.0 runs.now)) + result.1 ≡ most }
    ensures next { result.0 < length runs.now → (d : Run)
        → result.1 < (get_or runs.now result.0 d).len }
{
    let mut left = most;
    for place in 0..runs.len() {
        let run = runs[place];
        if left < run.len {
            return (place, left);
        }
        left -= run.len;
    }
    (runs.len(), left)
}

impl<'a, 'b, S: Source> RunFeed for UpTo<'a, 'b, S> {
    ghost use Rattle.decode_job.specs.UpTo.{GaveUpTo, has_ended, inner_of, most_of};

    type Origin = ((Snapshot<&'a mut Capture>, Snapshot<&'b mut S>), u64);

    ghost gave = { λ feed lists. GaveUpTo S.left S.faults feed (together lists) };

    ghost given = { λ feed. min (given_by (inner_of feed).capture.now) (2 ^ 60) };

    ghost held = { λ feed. (inner_of feed).runs };

    ghost at_end = { λ feed. has_ended feed };

    ghost origin = { λ feed.
        (((inner_of feed).first_capture, (inner_of feed).first_source), most_of feed) };

    fn next_runs(&mut self) -> bool {
        if self.past {
            self.ended = true;
            self.feed.runs.clear();
            return false;
        }
        if !self.feed.next_runs() {
            self.ended = true;
            return false;
        }
        self.ended = false;
        let runs = self.feed.runs.list();
        let (place, left) = fit(runs, self.room.saturating_sub(self.given));
        if place < runs.len() {
            self.past = true;
            self.given = self.room;
            self.feed.runs.cut(place, left);
        } else {
            self.given = self.room - left;
        }
        true
    }

    fn runs(&self) -> &[Run] {
        self.feed.runs()
    }

    fn may_wait(&self) -> bool {
        !self.past && self.feed.may_wait()
    }

    fn waits_now(&self) -> bool {
        self.feed.waits_now()
    }
}
