// A whole run.
ghost use Rattle.std.specs.Prelude.{◌≡◌, None as NoneSeen, map};
ghost use Rattle.std.specs.String.{string_bytes};
ghost use Rattle.view_store.specs.Listings.{nothing};
ghost use Rattle.view_store.specs.Views.{pending, published, shelf_of};
ghost use Rattle.run_status.specs.Notices.{line_of, status_at_words};
ghost use Rattle.run_asks.specs.Asking.{ListsNotes, NamesNoHead};
ghost use Rattle.ldecode.specs.Calls.{CausedOn};
ghost use Rattle.ldecode.specs.Headline.{Good, Headline, IsMade, Notified, stream};
ghost use Rattle.ldecode.specs.Watching.{RunsShelved, RunsViewed, WatchedHeadline};

use crate::host::Host;
use crate::shelve_stack::{lists_notes, shelve_as_asked};
use crate::work::{work_as_asked, work_here};
use decoder_core::Keep;
use decoder_set::AnyDecoder;
use la_io::{Failed, Sink, Source, write_whole};
use run_status::{Outcome, Status, line_of};
use stage_crew::Pacer;
use std::alloc::Global;
use std::sync::Wait;
use std::thread::Threads;
use view_store::ViewWriter;
use words::{WordsError, read_words};

// How a run ends whose words can't be read.
fn refused(error: WordsError) -> Outcome
    ensures { result ≡ record { status = status_at_words error; seen = NoneSeen } }
{
    let status = match error {
        WordsError::Fault(fault) => Status::Words(fault),
        WordsError::NoMemory => Status::NoMemory,
    };
    Outcome { status, seen: None }
}

// Runs what the words say, on this one thread.
fn run_words<S: Source, K: Sink>(
    alloc: Global,
    words: &[String],
    source: &mut S,
    sink: &mut K,
) -> Outcome
    ensures runs { RunsViewed ⟦<AnyDecoder as Keep>⟧.saves (map string_bytes words.now)
        (S.left source.old) (S.left source.new) (K.written sink.old) (K.written sink.new) result }
    ensures made { Good (map string_bytes words.now) IsMade → source.new ≡ source.old }
    ensures causes { CausedOn (Good (map string_bytes words.now) NamesNoHead) S.faults K.faults
        source.old source.new sink.old sink.new result.status }
{
    match read_words(alloc, words) {
        Ok(settings) => work_here(alloc, &settings, source, sink),
        Err(error) => refused(error),
    }
}

// The same with threads, where the words ask for them.
fn run_words_in_threads<R: Threads + Wait + Sync, S: Source + Send, K: Sink, P: Pacer + Sync>(
    host: &Host<R, P>,
    words: &[String],
    source: &mut S,
    sink: &mut K,
) -> Outcome
    ensures runs { RunsViewed ⟦<AnyDecoder as Keep>⟧.saves (map string_bytes words.now)
        (S.left source.old) (S.left source.new) (K.written sink.old) (K.written sink.new) result }
    ensures made { Good (map string_bytes words.now) IsMade → source.new ≡ source.old }
    ensures causes { CausedOn (Good (map string_bytes words.now) NamesNoHead) S.faults K.faults
        source.old source.new sink.old sink.new result.status }
{
    match read_words(host.alloc, words) {
        Ok(settings) => work_as_asked(host, &settings, source, sink),
        Err(error) => refused(error),
    }
}

// The same onto a new shelf, where the words ask for a listing of notes.
fn shelve_words<R: Threads + Wait + Sync, S: Source + Send, K: Sink, P: Pacer + Sync>(
    host: &Host<R, P>,
    words: &[String],
    source: &mut S,
    sink: &mut K,
    shelf: &mut ViewWriter,
) -> Status
    requires pending { pending shelf.old ≡ nothing }
    requires published { published shelf.old ≡ nothing }
    ensures runs { RunsShelved ⟦<AnyDecoder as Keep>⟧.saves (map string_bytes words.now)
        (S.left source.old) (S.left source.new) (K.written sink.old) (K.written sink.new)
        (published shelf.new) result }
    ensures shelf { shelf_of shelf.new ≡ shelf_of shelf.old }
    ensures left { (Good (map string_bytes words.now) ListsNotes → ⊥) → shelf.new ≡ shelf.old }
    ensures made { Good (map string_bytes words.now) IsMade → source.new ≡ source.old }
    ensures causes { CausedOn (Good (map string_bytes words.now) NamesNoHead) S.faults K.faults
        source.old source.new sink.old sink.new result }
{
    let settings = match read_words(host.alloc, words) {
        Ok(settings) => settings,
        Err(error) => return refused(error).status,
    };
    if lists_notes(&settings) {
        return shelve_as_asked(host, &settings, source, sink, shelf);
    }
    work_as_asked(host, &settings, source, sink).status
}

// Writes the line that tells of a run. Where the notices fail, a front of it is written.
fn tell<E: Sink>(outcome: &Outcome, notices: &mut E)
    ensures { Notified (stream E.written E.faults notices.old notices.new)
        (λ line. line ≡ line_of outcome.now.status outcome.now.seen) }
{
    let line = line_of(outcome);
    match write_whole(notices, line.bytes()) {
        Ok(()) | Err(Failed) => {}
    }
}

/// Reads the capture from the source and writes to the sink what the words ask for, on this one
/// thread, and then the line that tells of the status to the notices.
///
/// What is written is the listing of the words' stack, or the binary data that they want of it, or
/// the listing of their condition, on the settled samples of the bytes that were taken; or of a
/// part what these samples add to those before it, and a checkpoint; or how much a made capture
/// gives, for which nothing is read. The status is what words and capture give. `ReadFault` comes
/// only where the source failed, `WriteFault` exactly where the sink failed: a front of the listing
/// is then written. `NoMemory`, for want of memory, may come in place of any status but
/// `WriteFault`; a front of the listing, or nothing, is written then.
///
/// Where the words ask for a viewer of a listing, and the run is done, the notices get how many
/// notes the listing has: a viewer that looks on sees them all.
pub fn run_here<S: Source, K: Sink, E: Sink>(
    alloc: Global,
    words: &[String],
    source: &mut S,
    sink: &mut K,
    notices: &mut E,
) -> Status
    ensures { Headline ⟦<AnyDecoder as Keep>⟧.saves (map string_bytes words.now)
        (stream S.left S.faults source.old source.new)
        (stream K.written K.faults sink.old sink.new)
        (stream E.written E.faults notices.old notices.new) (source.new ≡ source.old) result }
{
    let outcome = run_words(alloc, words, source, sink);
    tell(&outcome, notices);
    outcome.status
}

/// As `run_here`, but with a thread for each decoder where the words ask for threads: the same is
/// written, in whatever order the threads run. It waits for the threads that it starts; where one
/// can't be started, the work is done without it.
///
/// Where the words ask for threads and for a viewer of a listing, that viewer looks at the notes
/// from a thread of its own while the listing grows, and once more when the run is done: so the
/// notices get how many notes it saw. Where it has no memory for that, the status is `NoMemory`.
pub fn run<R: Threads + Wait + Sync, S: Source + Send, K: Sink, E: Sink, P: Pacer + Sync>(
    host: &Host<R, P>,
    words: &[String],
    source: &mut S,
    sink: &mut K,
    notices: &mut E,
) -> Status
    ensures { Headline ⟦<AnyDecoder as Keep>⟧.saves (map string_bytes words.now)
        (stream S.left S.faults source.old source.new)
        (stream K.written K.faults sink.old sink.new)
        (stream E.written E.faults notices.old notices.new) (source.new ≡ source.old) result }
{
    let outcome = run_words_in_threads(host, words, source, sink);
    tell(&outcome, notices);
    outcome.status
}

/// As `run`, onto a new shelf that readers look at: each note of a listing is added once its line
/// was handed on to be written. It doesn't heed whether the words ask for a viewer, and tells its
/// status alone.
///
/// Behind `Done`, `ReadFault` and `Capture` the shelf has all notes of what was written, and is
/// ended; behind `WriteFault` and `NoMemory` it has the first notes of the listing, perhaps some
/// whose lines weren't written any more, and isn't ended; behind any other status it has none, and
/// is ended. Where the words have a fault, or ask for no listing of notes (another job, or binary
/// data), it is left as it was. A shelf that finds no memory makes the status `NoMemory`. The run
/// may wait for a reader that is inside an `ask`.
pub fn run_watched<R: Threads + Wait + Sync, S: Source + Send, K: Sink, E: Sink, P: Pacer + Sync>(
    host: &Host<R, P>,
    words: &[String],
    source: &mut S,
    sink: &mut K,
    notices: &mut E,
    shelf: &mut ViewWriter,
) -> Status
    requires pending { pending shelf.old ≡ nothing }
    requires published { published shelf.old ≡ nothing }
    ensures headline { WatchedHeadline ⟦<AnyDecoder as Keep>⟧.saves (map string_bytes words.now)
        (stream S.left S.faults source.old source.new)
        (stream K.written K.faults sink.old sink.new)
        (stream E.written E.faults notices.old notices.new) (source.new ≡ source.old)
        (published shelf.new) result }
    ensures shelf { shelf_of shelf.new ≡ shelf_of shelf.old }
    ensures left { (Good (map string_bytes words.now) ListsNotes → ⊥) → shelf.new ≡ shelf.old }
{
    let status = shelve_words(host, words, source, sink, shelf);
    let outcome = Outcome { status, seen: None };
    tell(&outcome, notices);
    status
}
