// What a stage receives, and what of that it hasn't done yet.
ghost use Rattle.std.specs.Prelude.{◌≡◌, ◌≤◌, ◌+◌, ◌++◌, [], List, length, true, false, nat_eq};
ghost use Rattle.std.specs.Prelude.{◌&&◌, ◌⊎◌, map};
ghost use Rattle.la_base.specs.Runs.{samples_of};
ghost use Rattle.decoder_core.specs.Inputs.{Sample};
ghost use Rattle.la_base.specs.declared.wires.Feed.{Feed as FeedIs};
ghost use Rattle.stack_laws.specs.Links.{some};
ghost use Rattle.stack_laws.specs.Feeds.{ends_feed, items_in};
ghost use Rattle.stack_laws.specs.Heeding.{place_of};
ghost use Rattle.stage_ring.specs.Link.{more_if};
ghost use Rattle.stage_run.specs.Inputs.{came, feeds_in, input_link, input_misses, reads_samples};
ghost use Rattle.stage_run.specs.Inputs.{taken, told_behind, told_on};
ghost use Rattle.stage_run.specs.Rows.{none_kept, waiting};

use crate::input::{HalfRun, Input};
use crate::row::Row;
use la_base::{Feed, Run};

/// The link that a stage receives from, and short rows of what came: runs of samples, or feeds.
#[derive(Drop)]
pub(crate) struct Inbox {
    pub(crate) input: Input,
    half_runs: Row<HalfRun>,
    pub(crate) runs: Row<Run>,
    pub(crate) feeds: Row<Feed>,
    // the upper half of the lines that the half runs told
    upper: u64,
    // the end has come
    pub(crate) over: bool,
    ghost told: { upper ≡ told_on input },
}

// Puts half runs as runs into a row, in place of what it had, and answers whether the end is among
// them: one after another. `upper` is the upper half of the lines that was told.
fn put_each(runs: &mut Row<Run>, upper: &mut u64, half_runs: &[HalfRun]) -> bool
    requires { length half_runs.now ≤ 64 }
    ensures start { runs.new.at ≡ 0 }
    ensures items { map Sample (samples_of runs.new.list)
        ≡ items_in (feeds_in upper.old half_runs.now) }
    ensures upper { upper.new ≡ told_behind upper.old half_runs.now }
    ensures ends { result ≡ true → some ends_feed (feeds_in upper.old half_runs.now) ≡ true }
{
    let mut ended = false;
    runs.clear();
    for half_run in half_runs {
        if half_run.len > 0 {
            runs.push(Run {
                value: half_run.whole(*upper),
                len: half_run.len,
            });
        } else if half_run.value == *upper {
            ended = true;
        } else {
            *upper = half_run.value;
        }
    }
    ended
}

// The same, by one look at each where each has samples, as mostly.
#[inline]
fn put_runs(runs: &mut Row<Run>, upper: &mut u64, half_runs: &[HalfRun]) -> bool
    requires { length half_runs.now ≤ 64 }
    ensures start { runs.new.at ≡ 0 }
    ensures items { map Sample (samples_of runs.new.list)
        ≡ items_in (feeds_in upper.old half_runs.now) }
    ensures upper { upper.new ≡ told_behind upper.old half_runs.now }
    ensures ends { result ≡ true → some ends_feed (feeds_in upper.old half_runs.now) ≡ true }
{
    if runs.put(*upper, half_runs) {
        return false;
    }
    put_each(runs, upper, half_runs)
}

// Whether the last of some feeds is the end.
fn ends(feeds: &[Feed]) -> bool
    ensures { result ≡ true → some ends_feed feeds.now ≡ true }
{
    if feeds.is_empty() {
        return false;
    }
    is_end(feeds[feeds.len() - 1])
}

fn is_end(feed: Feed) -> bool
    ensures { result ≡ ends_feed feed }
{
    match feed {
        Feed::End => true,
        Feed::Run(_) => false,
        Feed::Packet(_) => false,
        Feed::From(_) => false,
    }
}

/// The place that a feed tells, from which on all packets that follow start.
pub(crate) fn place_of(feed: Feed) -> u64
    ensures { result ≡ place_of feed }
{
    match feed {
        Feed::From(start) => start,
        Feed::Run(_) => 0,
        Feed::Packet(_) => 0,
        Feed::End => 0,
    }
}

impl Inbox {
    ghost use Rattle.stage_run.specs.Boxes.{is_idle, left_in, received_of, waiting_of};

    /// Nothing was received yet.
    pub(crate) fn new(input: Input) -> Inbox
        requires { taken input ≡ 0 }
        ensures input { result.input ≡ input }
        ensures none { waiting_of result ≡ [] }
        ensures waits { waiting result.feeds ≡ [] }
        ensures open { result.over ≡ false }
    {
        Inbox {
            input,
            half_runs: Row::new(HalfRun::telling(0)),
            runs: Row::new(Run { value: 0, len: 1 }),
            feeds: Row::new(Feed::End),
            upper: 0,
            over: false,
        }
    }

    /// Whether all that was received is done.
    #[inline(always)]
    pub(crate) fn is_idle(&self) -> bool
        ensures { result ≡ is_idle self.now }
    {
        self.runs.is_done() && self.feeds.is_done()
    }

    /// Receives what there is, and answers how much that is.
    pub(crate) fn receive(&mut self) -> usize
        requires { is_idle self.old ≡ true }
        ensures link { (input_link self.new.input ≡ input_link self.old.input)
            × (reads_samples self.new.input ≡ reads_samples self.old.input) }
        ensures count { taken self.new.input ≡ taken self.old.input + result }
        ensures came { (more : List FeedIs) × (length more ≤ 64)
            × (came self.new.input ≡ came self.old.input ++ more)
            × (waiting_of self.new ≡ items_in more)
            × (self.new.over ≡ true → some ends_feed more ≡ true)
            × ((waiting self.new.feeds ≡ []) ⊎ ((waiting self.new.runs ≡ [])
            × (waiting self.new.feeds ≡ more))) }
        ensures none { result ≡ 0 → left_in self.new ≡ 0 }
        ensures misses { input_misses self.new.input
            ≡ more_if (nat_eq result 0) (input_misses self.old.input) }
    {
        match &mut self.input {
            Input::Samples(from) => {
                let count = self.half_runs.fill(from);
                self.over = put_runs(&mut self.runs, &mut self.upper, self.half_runs.waiting());
                count
            }
            Input::Packets(from) => {
                let count = self.feeds.fill(from);
                self.over = ends(self.feeds.waiting());
                count
            }
        }
    }

    /// How often there was nothing to take.
    pub(crate) fn misses(&self) -> u64
        ensures { result ≡ input_misses self.now.input }
    {
        match &self.input {
            Input::Samples(from) => from.misses(),
            Input::Packets(from) => from.misses(),
        }
    }
}
