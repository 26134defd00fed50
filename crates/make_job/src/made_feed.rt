// A made capture as the feed of a tree of decoders.
ghost use Rattle.std.specs.Prelude.{◌≡◌, ◌≤◌, ◌<◌, ◌-◌, ◌^◌, [], length, replicate, slice_index};
ghost use Rattle.std.specs.Prelude.{take};
ghost use Rattle.la_base.specs.Runs.{samples_of};
ghost use Rattle.capture_make.specs.Kept.{left_in};
ghost use Rattle.capture_make.specs.Made.{made};

use capture_any::Runs;
use capture_make::MadeSource;
use la_base::{Run, Word};
use la_io::{Failed, Source};
use std::snapshot::Snapshot;
use tree_io::RunFeed;

// How many samples are given at once.
const AT_ONCE: usize = 64;

/// Gives the samples of a made capture, a byte each. It can't fail, and takes no memory.
#[derive(Drop)]
pub struct MadeFeed {
    source: MadeSource,
    runs: Runs,
    ended: bool,
    // What it was made over. Contracts alone read it.
    first: Snapshot<MadeSource>,
    ghost few: { length (left_in source) ≤ 2 ^ 60 },
}

// How many samples at the front are the same.
fn alike(samples: &[u8]) -> usize
    requires { 1 ≤ length samples.now }
    ensures some { 1 ≤ result }
    ensures within { result ≤ length samples.now }
    ensures alike { take result samples.now ≡ replicate result (slice_index samples.now 0) }
{
    let first = samples[0];
    let mut count = 1;
    while count < samples.len() && samples[count] == first {
        count += 1;
    }
    count
}

// Puts samples into runs, with neighbours that are the same in one.
fn put_runs(samples: &[u8], into: &mut Runs)
    requires few { length samples.now ≤ 64 }
    requires none { into.old ≡ [] }
    ensures { samples_of into.new ≡ samples.now }
{
    let mut at = 0;
    while at < samples.len() {
        let len = alike(&samples[at..]);
        into.push(Run {
            value: samples[at] as Word,
            len: len as u64,
        });
        at += len;
    }
}

impl MadeFeed {
    ghost use Rattle.make_job.specs.MadeFeeding.{GaveMade};

    /// A feed of so many transactions of a seed, that has given nothing.
    pub fn new(seed: u64, count: u64) -> MadeFeed
        requires seed { seed < 2 ^ 31 }
        requires count { count ≤ 1000000 }
        ensures made { left_in result.first.value ≡ made seed count }
        ensures gave { GaveMade result [] }
    {
        let source = MadeSource::new(seed, count);
        let first = Snapshot::of(&source);
        MadeFeed {
            source,
            runs: Runs::new(),
            ended: false,
            first,
        }
    }
}

impl RunFeed for MadeFeed {
    ghost use Rattle.make_job.specs.MadeFeeding.{GaveMade};

    type Origin = Snapshot<MadeSource>;

    ghost gave = { λ feed lists. GaveMade feed lists };

    // Less of it is left with each call that gives runs.
    ghost given = { λ feed. 2 ^ 60 - length (left_in feed.source) };

    ghost held = { λ feed. feed.runs };

    ghost at_end = { λ feed. feed.ended };

    ghost origin = { λ feed. feed.first };

    fn next_runs(&mut self) -> bool {
        self.runs.clear();
        let mut samples = [0; AT_ONCE];
        let count = match self.source.read(&mut samples) {
            Ok(count) => count,
            Err(Failed) => unreachable!(),
        };
        if count == 0 {
            self.ended = true;
            return false;
        }
        put_runs(&samples[..count], &mut self.runs);
        self.ended = false;
        true
    }

    fn runs(&self) -> &[Run] {
        self.runs.list()
    }
}
