// A decoding at which a viewer looks on.
ghost use Rattle.std.specs.Prelude.{◌≡◌, true, false, All};
ghost use Rattle.std.specs.Thread.{IsSync};
ghost use Rattle.view_store.specs.Listings.{nothing};
ghost use Rattle.view_store.specs.Views.{pending, published, reader_shelf, shelf_of};
ghost use Rattle.words.specs.Settings.{meaning_of};
ghost use Rattle.words.specs.declared.kinds.Job.TheVariants.{Decode};
ghost use Rattle.run_asks.specs.Asking.{NamesNoHead};
ghost use Rattle.ldecode.specs.Calls.{AreRead, CausedOn};
ghost use Rattle.ldecode.specs.Headline.{IsWatched};
ghost use Rattle.ldecode.specs.Watching.{ShelvesOn, ViewsOn};

use crate::decode_stack::decode_stack;
use crate::note_count::NoteCount;
use crate::shelve_stack::shelve_in_threads;
use crossbeam_utils::sync::EventCount;
use decode_job::InThreads;
use decoder_core::Keep;
use decoder_set::AnyDecoder;
use la_base::NoMemory;
use la_io::{Sink, Source};
use run_status::{Outcome, Status, status_by};
use stage_crew::Pacer;
use std::alloc::Global;
use std::sync::Wait;
use std::sync::atomic::{AtomicBool, Ordering};
use std::thread::{Threads, join_mut};
use view_store::{ViewReader, ViewWriter, shelf};
use words::Settings;

/// Whether a decoding is to have a viewer, and lists notes for it to see.
pub(crate) fn is_watched(settings: &Settings) -> bool
    requires job { settings.now.job ≡ Decode }
    ensures yes { result ≡ true → IsWatched (meaning_of settings.now) }
    ensures no { result ≡ false → IsWatched (meaning_of settings.now) → ⊥ }
{
    settings.watch && settings.binary.is_none()
}

/// Decodes on this one thread, and counts the notes of the listing as a viewer does that sees them
/// all.
pub(crate) fn count_stack<S: Source, K: Sink>(
    alloc: Global,
    settings: &Settings,
    source: &mut S,
    sink: &mut K,
) -> Outcome
    requires job { settings.now.job ≡ Decode }
    requires read { AreRead settings.now }
    requires watched { IsWatched (meaning_of settings.now) }
    ensures views { ViewsOn ⟦<AnyDecoder as Keep>⟧.saves (meaning_of settings.now)
        (S.left source.old) (S.left source.new) (K.written sink.old) (K.written sink.new) result }
    ensures causes { CausedOn (NamesNoHead (meaning_of settings.now)) S.faults K.faults
        source.old source.new sink.old sink.new result.status }
{
    let (ended, counted) = decode_stack(alloc, settings, source, sink, NoteCount::new());
    let status = status_by(ended);
    if !status.is_done() {
        return Outcome { status, seen: None };
    }
    Outcome {
        status,
        seen: Some(counted.count()),
    }
}

// Asks for all notes whenever more were published, until no more come, there is no memory for them, or
// the run is over.
fn view<R: Wait>(rt: &R, reader: &mut ViewReader, over: &AtomicBool, shown: &EventCount)
    ensures { reader_shelf reader.new ≡ reader_shelf reader.old }
{
    for _ in rt.forever() {
        let next = shown.prepare_wait();
        if over.load(Ordering::SeqCst) {
            return;
        }
        match reader.ask(rt, 0, u64::MAX) {
            Ok(answer) => {
                if answer.ended {
                    return;
                }
            }
            Err(NoMemory) => return,
        }
        next.wait(rt);
    }
    unreachable!()
}

// Decodes onto a new shelf, beside a thread in which a viewer asks for what is on it.
fn shelve_beside<R: Threads + Wait + Sync, P: Pacer + Sync, S: Source + Send, K: Sink>(
    way: &InThreads<R, P>,
    settings: &Settings,
    source: &mut S,
    sink: &mut K,
    writer: &mut ViewWriter,
    reader: &mut ViewReader,
) -> Status
    requires job { settings.now.job ≡ Decode }
    requires read { AreRead settings.now }
    requires pending { pending writer.old ≡ nothing }
    requires published { published writer.old ≡ nothing }
    ensures shelved { ShelvesOn (meaning_of settings.now) (S.left source.old) (S.left source.new)
        (K.written sink.old) (K.written sink.new) (published writer.new) result }
    ensures writer { shelf_of writer.new ≡ shelf_of writer.old }
    ensures reader { reader_shelf reader.new ≡ reader_shelf reader.old }
    ensures causes { CausedOn (NamesNoHead (meaning_of settings.now)) S.faults K.faults
        source.old source.new sink.old sink.new result }
{
    let over = AtomicBool::new(false);
    let flag = &over;
    let longer = EventCount::new();
    let shown = &longer;
    let (_, status) = join_mut(
        way.runtime,
        &mut ||
            ensures { reader_shelf reader.exit.now ≡ reader_shelf reader.entry.now }
        { view(way.runtime, reader, flag, shown) },
        &mut || -> Status
            requires sync { IsSync R.row × IsSync P.row }
            requires job { settings.now.job ≡ Decode }
            requires read { AreRead settings.now }
            requires new { (pending writer.now ≡ nothing) × (published writer.now ≡ nothing) }
            ensures { ShelvesOn (meaning_of settings.entry.now) (S.left source.entry.now)
                (S.left source.exit.now) (K.written sink.entry.now) (K.written sink.exit.now)
                (published writer.exit.now) result
                × (shelf_of writer.exit.now ≡ shelf_of writer.entry.now)
                × CausedOn (NamesNoHead (meaning_of settings.entry.now)) S.faults K.faults
                source.entry.now source.exit.now sink.entry.now sink.exit.now result }
        {
            let status = shelve_in_threads(way, settings, source, sink, writer, shown);
            flag.store(true, Ordering::SeqCst);
            shown.notify_all();
            status
        },
    );
    status
}

// The same; where the run is done the viewer then learns the end, and asks once more.
fn view_beside<R: Threads + Wait + Sync, P: Pacer + Sync, S: Source + Send, K: Sink>(
    way: &InThreads<R, P>,
    settings: &Settings,
    source: &mut S,
    sink: &mut K,
    writer: &mut ViewWriter,
    reader: &mut ViewReader,
) -> Outcome
    requires job { settings.now.job ≡ Decode }
    requires read { AreRead settings.now }
    requires watched { IsWatched (meaning_of settings.now) }
    requires pending { pending writer.old ≡ nothing }
    requires published { published writer.old ≡ nothing }
    requires own { reader_shelf reader.old ≡ shelf_of writer.old }
    ensures views { ViewsOn ⟦<AnyDecoder as Keep>⟧.saves (meaning_of settings.now)
        (S.left source.old) (S.left source.new) (K.written sink.old) (K.written sink.new) result }
    ensures causes { CausedOn (NamesNoHead (meaning_of settings.now)) S.faults K.faults
        source.old source.new sink.old sink.new result.status }
{
    let status = shelve_beside(way, settings, source, sink, writer, reader);
    if !status.is_done() {
        return Outcome { status, seen: None };
    }
    reader.learn(writer.tell());
    match reader.ask(way.runtime, 0, 0) {
        Ok(answer) => Outcome {
            status,
            seen: Some(answer.seen),
        },
        Err(NoMemory) => Outcome {
            status: Status::NoMemory,
            seen: None,
        },
    }
}

// The same, with the one reader of the shelf.
fn view_shelf<R: Threads + Wait + Sync, P: Pacer + Sync, S: Source + Send, K: Sink>(
    way: &InThreads<R, P>,
    settings: &Settings,
    source: &mut S,
    sink: &mut K,
    writer: &mut ViewWriter,
    mut readers: Vec<ViewReader>,
) -> Outcome
    requires job { settings.now.job ≡ Decode }
    requires read { AreRead settings.now }
    requires watched { IsWatched (meaning_of settings.now) }
    requires pending { pending writer.old ≡ nothing }
    requires published { published writer.old ≡ nothing }
    requires own { All (λ reader. reader_shelf reader ≡ shelf_of writer.old) readers.items }
    ensures views { ViewsOn ⟦<AnyDecoder as Keep>⟧.saves (meaning_of settings.now)
        (S.left source.old) (S.left source.new) (K.written sink.old) (K.written sink.new) result }
    ensures causes { CausedOn (NamesNoHead (meaning_of settings.now)) S.faults K.faults
        source.old source.new sink.old sink.new result.status }
{
    let Some(mut reader) = readers.pop() else {
        return Outcome {
            status: Status::NoMemory,
            seen: None,
        };
    };
    view_beside(way, settings, source, sink, writer, &mut reader)
}

/// Decodes with a thread for each decoder, and one more in which a viewer looks at the listing while
/// it grows.
pub(crate) fn view_stack<R: Threads + Wait + Sync, P: Pacer + Sync, S: Source + Send, K: Sink>(
    way: &InThreads<R, P>,
    settings: &Settings,
    source: &mut S,
    sink: &mut K,
) -> Outcome
    requires job { settings.now.job ≡ Decode }
    requires read { AreRead settings.now }
    requires watched { IsWatched (meaning_of settings.now) }
    ensures views { ViewsOn ⟦<AnyDecoder as Keep>⟧.saves (meaning_of settings.now)
        (S.left source.old) (S.left source.new) (K.written sink.old) (K.written sink.new) result }
    ensures causes { CausedOn (NamesNoHead (meaning_of settings.now)) S.faults K.faults
        source.old source.new sink.old sink.new result.status }
{
    let Ok((mut writer, readers)) = shelf(way.runtime, way.alloc, 1) else {
        return Outcome {
            status: Status::NoMemory,
            seen: None,
        };
    };
    let outcome = view_shelf(way, settings, source, sink, &mut writer, readers);
    writer.close(way.runtime);
    outcome
}
