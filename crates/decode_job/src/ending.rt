// What is behind a run of a tree.
ghost use Rattle.std.specs.Prelude.{◌≡◌};
ghost use Rattle.note_lister.specs.Taking.{sink_of, sink_ref, watch_of};
ghost use Rattle.capture_any.specs.declared.end.ListingEnd.TheVariants.{Write as WriteEnd};
ghost use Rattle.decode_job.specs.Ending.{end_behind, end_of_stop};
ghost use Rattle.decode_job.specs.Flushing.{Flushes};

use crate::capture_feed::CaptureFeed;
use capture_any::{Capture, ListingEnd};
use decoder_core::RunEnd;
use la_base::NoMemory;
use la_io::{Buffered, Failed, Sink, Source};
use note_lister::{ListStop, Lister, Watch};

/// What was lent to a feed and a lister, and what looks on.
pub(crate) struct Lent<'a, 'b, 'c, S: Source, K: Sink, W> {
    pub(crate) capture: &'a mut Capture,
    pub(crate) source: &'b mut S,
    pub(crate) sink: &'c mut K,
    pub(crate) watch: W,
}

// How a run ends for which there is this cause.
pub(crate) fn end_of_stop(cause: ListStop) -> ListingEnd
    ensures { result ≡ end_of_stop cause }
{
    match cause {
        ListStop::Write => ListingEnd::Write,
        ListStop::NoMemory => ListingEnd::NoMemory,
    }
}

/// How a run ends, by the cause for which it was stopped, if it was, or how its capture ended.
pub(crate) fn end_behind(
    ran: Result<RunEnd, NoMemory>,
    cause: Option<ListStop>,
    end: ListingEnd,
) -> ListingEnd
    ensures { result ≡ end_behind ran cause end }
{
    match (ran, cause) {
        (Ok(_), None) => end,
        (Ok(_), Some(cause)) => end_of_stop(cause),
        (Err(NoMemory), _) => ListingEnd::NoMemory,
    }
}

/// Takes a feed and a lister apart.
pub(crate) fn apart<'a, 'b, 'c, S: Source, K: Sink, W: Watch>(
    feed: CaptureFeed<'a, 'b, S>,
    lister: Lister<'_, 'c, K, W>,
) -> Lent<'a, 'b, 'c, S, K, W>
    ensures source { result.source.now ≡ feed.entry.source.now }
    ensures same_source { result.source.ghost_name ≡ feed.entry.source.ghost_name }
    ensures sink { result.sink.now ≡ sink_of lister.entry }
    ensures same_sink { result.sink.ghost_name ≡ (sink_ref lister.entry).ghost_name }
    ensures watch { result.watch ≡ watch_of lister.entry }
{
    let CaptureFeed {
        capture,
        source,
        ..
    } = feed;
    let Lister { sink, watch, .. } = lister;
    Lent {
        capture,
        source,
        sink,
        watch,
    }
}

/// What was lent ends here, as it is.
pub(crate) fn go_back<S: Source, K: Sink>(capture: &mut Capture, source: &mut S, sink: &mut K)
    ensures capture { capture.new ≡ capture.old }
    ensures source { source.new ≡ source.old }
    ensures sink { sink.new ≡ sink.old }
{}

/// Hands on what a buffer holds behind a decoding, unless a write has failed, and answers how it
/// ended then.
pub(crate) fn hand_on<K: Sink>(buffered: &mut Buffered<K>, end: ListingEnd) -> ListingEnd
    ensures { Flushes K.Sink WriteEnd buffered.old buffered.new end result }
{
    match end {
        ListingEnd::Write => ListingEnd::Write,
        end => match buffered.flush() {
            Ok(()) => end,
            Err(Failed) => ListingEnd::Write,
        },
    }
}
