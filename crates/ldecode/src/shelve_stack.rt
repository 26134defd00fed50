// A decoding whose notes come on a shelf.
ghost use Rattle.std.specs.Prelude.{◌≡◌, true};
ghost use Rattle.view_store.specs.Listings.{nothing};
ghost use Rattle.view_store.specs.Views.{pending, published, shelf_of};
ghost use Rattle.words.specs.Settings.{meaning_of};
ghost use Rattle.words.specs.declared.kinds.Job.TheVariants.{Decode};
ghost use Rattle.shelf_watch.specs.Watches.{shelf_ref};
ghost use Rattle.run_asks.specs.Asking.{NamesNoHead, lists_notes};
ghost use Rattle.ldecode.specs.Calls.{AreRead, CausedOn};
ghost use Rattle.ldecode.specs.Watching.{EndsShelf, ShelvesOn};

use crate::decode_stack::{decode_stack, decode_stack_in_threads};
use crate::host::Host;
use crossbeam_utils::sync::EventCount;
use decode_job::InThreads;
use la_base::NoMemory;
use la_io::{Sink, Source};
use run_status::{Status, status_by};
use shelf_watch::ShelfWatch;
use stage_crew::Pacer;
use std::alloc::Global;
use std::sync::Wait;
use std::thread::Threads;
use view_store::ViewWriter;
use words::{Job, Settings};

/// Whether a listing of notes is asked for: a whole capture is decoded, and not for binary data.
pub(crate) fn lists_notes(settings: &Settings) -> bool
    ensures is { result ≡ lists_notes (meaning_of settings.now) }
    ensures job { result ≡ true → settings.now.job ≡ Decode }
{
    match settings.job {
        Job::Decode => settings.binary.is_none(),
        Job::Find | Job::Part | Job::Make => false,
    }
}

// Ends the shelf of a decoding with this status, and answers want of memory where there is none to
// end it. A shelf to which more notes belong isn't ended.
fn end_shelf<'a, R: Wait>(status: Status, watch: ShelfWatch<'a, R>) -> (&'a mut ViewWriter, Status)
    ensures same_reference { result.0.ghost_name ≡ (shelf_ref watch.entry).ghost_name }
    ensures shelf { shelf_of result.0.now ≡ shelf_of (shelf_ref watch.entry).now }
    ensures ends { EndsShelf status (pending (shelf_ref watch.entry).now)
        (published (shelf_ref watch.entry).now) result.1 (published result.0.now) }
{
    match status {
        Status::WriteFault | Status::NoMemory => (watch.into_shelf(), status),
        Status::Done
        | Status::Words(_)
        | Status::Stack(_)
        | Status::Bind(_)
        | Status::Check(_)
        | Status::ReadFault
        | Status::Capture(_) => match watch.finish() {
            (shelf, Ok(())) => (shelf, status),
            (shelf, Err(NoMemory)) => (shelf, Status::NoMemory),
        },
    }
}

// Does nothing; but this use of a reference that came back is what ties it, for the borrow checker,
// to the one that was lent.
fn goes_back<T>(lent: &mut T)
    ensures { lent.new ≡ lent.old }
{}

/// Decodes the capture under the stack that the settings ask for, with a thread for each decoder,
/// and adds each note of the listing to a new shelf after its line. `shown` is notified whenever more
/// was published.
pub(crate) fn shelve_in_threads<
    R: Threads + Wait + Sync,
    P: Pacer + Sync,
    S: Source + Send,
    K: Sink,
>(
    way: &InThreads<R, P>,
    settings: &Settings,
    source: &mut S,
    sink: &mut K,
    shelf: &mut ViewWriter,
    shown: &EventCount,
) -> Status
    requires job { settings.now.job ≡ Decode }
    requires read { AreRead settings.now }
    requires pending { pending shelf.old ≡ nothing }
    requires published { published shelf.old ≡ nothing }
    ensures shelved { ShelvesOn (meaning_of settings.now) (S.left source.old) (S.left source.new)
        (K.written sink.old) (K.written sink.new) (published shelf.new) result }
    ensures shelf { shelf_of shelf.new ≡ shelf_of shelf.old }
    ensures causes { CausedOn (NamesNoHead (meaning_of settings.now)) S.faults K.faults
        source.old source.new sink.old sink.new result }
{
    let watch = ShelfWatch::new(way.runtime, shelf, shown);
    let (ended, watch) = decode_stack_in_threads(way, settings, source, sink, watch);
    let (shelf, status) = end_shelf(status_by(ended), watch);
    goes_back(shelf);
    status
}

// The same on this one thread.
fn shelve_here<R: Wait, S: Source, K: Sink>(
    rt: &R,
    alloc: Global,
    settings: &Settings,
    source: &mut S,
    sink: &mut K,
    shelf: &mut ViewWriter,
    shown: &EventCount,
) -> Status
    requires job { settings.now.job ≡ Decode }
    requires read { AreRead settings.now }
    requires pending { pending shelf.old ≡ nothing }
    requires published { published shelf.old ≡ nothing }
    ensures shelved { ShelvesOn (meaning_of settings.now) (S.left source.old) (S.left source.new)
        (K.written sink.old) (K.written sink.new) (published shelf.new) result }
    ensures shelf { shelf_of shelf.new ≡ shelf_of shelf.old }
    ensures causes { CausedOn (NamesNoHead (meaning_of settings.now)) S.faults K.faults
        source.old source.new sink.old sink.new result }
{
    let watch = ShelfWatch::new(rt, shelf, shown);
    let (ended, watch) = decode_stack(alloc, settings, source, sink, watch);
    let (shelf, status) = end_shelf(status_by(ended), watch);
    goes_back(shelf);
    status
}

/// Decodes onto a new shelf, with a thread for each decoder where the settings ask for threads.
pub(crate) fn shelve_as_asked<R: Threads + Wait + Sync, P: Pacer + Sync, S: Source + Send, K: Sink>(
    host: &Host<R, P>,
    settings: &Settings,
    source: &mut S,
    sink: &mut K,
    shelf: &mut ViewWriter,
) -> Status
    requires job { settings.now.job ≡ Decode }
    requires read { AreRead settings.now }
    requires pending { pending shelf.old ≡ nothing }
    requires published { published shelf.old ≡ nothing }
    ensures shelved { ShelvesOn (meaning_of settings.now) (S.left source.old) (S.left source.new)
        (K.written sink.old) (K.written sink.new) (published shelf.new) result }
    ensures shelf { shelf_of shelf.new ≡ shelf_of shelf.old }
    ensures causes { CausedOn (NamesNoHead (meaning_of settings.now)) S.faults K.faults
        source.old source.new sink.old sink.new result }
{
    let shown = EventCount::new();
    if settings.threads {
        let way = host.in_threads(settings);
        return shelve_in_threads(&way, settings, source, sink, shelf, &shown);
    }
    shelve_here(
        host.runtime,
        host.alloc,
        settings,
        source,
        sink,
        shelf,
        &shown,
    )
}
