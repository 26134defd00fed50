// The decoding of a part of a capture.
ghost use Rattle.std.specs.Prelude.{◌≡◌, ◌≤◌, ◌-◌, ◌^◌, [], length, map, true};
ghost use Rattle.capture_any.specs.Reading.{is_open_of};
ghost use Rattle.stack_words.specs.Stacks.{instances_in};
ghost use Rattle.tree_runs.specs.Passing.{IsForest};
ghost use Rattle.decode_job.specs.Asking.{CanList, WantsOf};
ghost use Rattle.decode_job.specs.Flushing.{Flushes};
ghost use Rattle.decode_job.specs.PartRunning.{Checks, ListsPart, end_of_part};
ghost use Rattle.decode_job.specs.Parting.{DecodesPart, room_behind};
ghost use Rattle.decode_job.specs.declared.part_end.PartEnd.TheVariants.{Ended as EndedAs};
ghost use Rattle.capture_any.specs.declared.end.ListingEnd.TheVariants.{Write as WriteEnd};

use crate::capture_feed::CaptureFeed;
use crate::ending::{Lent, apart, end_of_stop, go_back};
use crate::part_end::PartEnd;
use crate::tree::PartStart;
use crate::up_to::UpTo;
use annot_merge::Merge;
use capture_any::{Capture, ListingEnd};
use check_point::write_check;
use decoder_core::{Keep, Machine};
use la_base::NoMemory;
use la_io::{Buffered, Failed, Sink, Source};
use note_lister::{ListStop, Lister, Unwatched, Watch};
use stack_direct::run_direct;
use stack_laws::laws::machines_are_a_tree;
use std::alloc::Global;

// How many samples may come before a checkpoint.
const MOST_SAMPLES: u64 = 1 << 59;

// What was listed of a part: how it ended, and how many samples were given.
#[derive(Drop)]
struct Listed {
    end: PartEnd,
    given: u64,
}

// How a part ends, by the cause for which its run was stopped, if it was, by whether there were
// more samples than may come, and by how its capture ended.
fn end_of_part(cause: Option<ListStop>, past: bool, end: ListingEnd) -> PartEnd
    ensures { result ≡ end_of_part cause past end }
{
    match cause {
        Some(cause) => PartEnd::Ended(end_of_stop(cause)),
        None if past => PartEnd::Past,
        None => PartEnd::Ended(end),
    }
}

// Runs the machines over the capture, behind so many earlier samples, and writes what they add as
// it comes.
fn list_part<S: Source, K: Sink, W: Watch + Drop, M: Machine>(
    start: &PartStart,
    merge: Merge,
    capture: &mut Capture,
    machines: &mut [M],
    source: &mut S,
    sink: &mut K,
    watch: W,
) -> Listed
    requires unseen { W.saw watch [] }
    requires is_open { is_open_of capture.old ≡ true }
    requires lists { CanList start.now.stack.now (length machines.old) start.now.parents.now merge }
    requires few { start.now.earlier ≤ 2 ^ 59 }
    ensures lists { ListsPart M.Machine S.Source K.Sink start.now.stack.now machines.old
        machines.new start.now.parents.now start.now.earlier capture.old source.old source.new
        sink.old sink.new result.end result.given }
    ensures fits { result.given ≤ room_behind start.now.earlier }
    ensures setups { map M.setup machines.new ≡ map M.setup machines.old }
    ensures goes_on { K.goes_on sink.old sink.new }
{
    let captured = CaptureFeed::new(capture, source);
    let mut feed = UpTo::new(captured, MOST_SAMPLES - start.earlier);
    let mut lister = Lister::over(start.stack, merge, sink, watch);
    machines_are_a_tree(machines, start.parents);
    run_direct(machines, start.parents, &mut feed, &mut lister);
    let UpTo {
        feed,
        given,
        past,
        ..
    } = feed;
    let end = end_of_part(lister.cause, past, feed.end);
    let Lent {
        capture: read,
        source: read_from,
        sink: written_to,
        watch: _watch,
    } = apart(feed, lister);
    go_back(read, read_from, written_to);
    Listed { end, given }
}

// Writes the checkpoint where the capture ended well, and answers how the part ended then.
fn check_behind<K: Sink, M: Keep>(
    sink: &mut K,
    samples: u64,
    machines: &[M],
    kinds: &[u8],
    end: PartEnd,
) -> PartEnd
    requires few { samples ≤ 2 ^ 59 }
    requires count { length kinds.now ≡ length machines.now }
    requires most { length kinds.now ≤ 8 }
    ensures checks { Checks K.Sink M.saves samples kinds.now machines.now sink.old sink.new end
        result }
    ensures goes_on { K.goes_on sink.old sink.new }
{
    match end {
        PartEnd::Ended(ListingEnd::Done) => match write_check(sink, samples, machines, kinds) {
            Ok(()) => end,
            Err(Failed) => PartEnd::Ended(ListingEnd::Write),
        },
        end => end,
    }
}

// Hands on what a buffer holds, unless a write has failed, and answers how the part ended then.
fn hand_part_on<K: Sink>(buffered: &mut Buffered<K>, end: PartEnd) -> PartEnd
    ensures { Flushes K.Sink (EndedAs WriteEnd) buffered.old buffered.new end result }
{
    match end {
        PartEnd::Ended(ListingEnd::Write) => end,
        end => match buffered.flush() {
            Ok(()) => end,
            Err(Failed) => PartEnd::Ended(ListingEnd::Write),
        },
    }
}

/// Reads the capture to its end or up to 2^59 samples with the earlier ones, which the machines
/// have consumed, and writes the notes that the machines add, as `decode` does; their positions
/// count from the first earlier sample. Where the capture ended well, the line of a checkpoint of
/// the machines is written behind them, to go on from all these samples.
///
/// Of machines that stand for no samples nothing is said of what is written.
pub fn part<S: Source, K: Sink, M: Keep>(
    alloc: Global,
    start: &PartStart,
    capture: &mut Capture,
    machines: &mut [M],
    source: &mut S,
    sink: &mut K,
) -> PartEnd
    requires is_open { is_open_of capture.old ≡ true }
    requires forest { IsForest start.now.parents.now }
    requires each { length machines.old ≡ length start.now.parents.now }
    requires instances { length (instances_in start.now.stack.now) ≡ length start.now.parents.now }
    requires wanted { WantsOf start.now.stack.now (length start.now.parents.now) }
    requires kinds { length start.now.kinds.now ≡ length machines.old }
    requires most { length start.now.kinds.now ≤ 8 }
    requires few { start.now.earlier ≤ 2 ^ 59 }
    ensures { DecodesPart M.Machine M.saves S.Source K.Sink start.now.stack.now machines.old
        start.now.kinds.now start.now.parents.now start.now.earlier capture.old source.old
        source.new sink.old sink.new result }
{
    let merge = match Merge::new(alloc, start.stack.count()) {
        Ok(merge) => merge,
        Err(NoMemory) => return PartEnd::Ended(ListingEnd::NoMemory),
    };
    let mut buffered = Buffered::new(sink);
    let listed = list_part(
        start,
        merge,
        capture,
        machines,
        source,
        &mut buffered,
        Unwatched,
    );
    let samples = start.earlier + listed.given;
    let end = check_behind(&mut buffered, samples, machines, start.kinds, listed.end);
    hand_part_on(&mut buffered, end)
}
