// The work that settings ask for: their job, threads or none, and who looks on.
ghost use Rattle.std.specs.Prelude.{◌≡◌, true, None as NoneSeen};
ghost use Rattle.words.specs.Settings.{meaning_of};
ghost use Rattle.words.specs.declared.kinds.Job.TheVariants.{Decode};
ghost use Rattle.run_asks.specs.Asking.{NamesNoHead};
ghost use Rattle.ldecode.specs.Calls.{AreRead, CausedOn};
ghost use Rattle.ldecode.specs.Headline.{IsMade};
ghost use Rattle.ldecode.specs.Watching.{ViewsOn};

use crate::decode_stack::{decode_stack, decode_stack_in_threads};
use crate::host::Host;
use crate::part::part_stack;
use crate::view_stack::{count_stack, is_watched, view_stack};
use decode_job::InThreads;
use decoder_core::Keep;
use decoder_set::AnyDecoder;
use la_io::{Sink, Source};
use make_job::make;
use note_lister::Unwatched;
use run_status::{Outcome, Status, status_by};
use search_job::search;
use stage_crew::Pacer;
use std::alloc::Global;
use std::sync::Wait;
use std::thread::Threads;
use words::{Job, Settings};

// How a run ends at which no viewer looked on.
fn unseen(status: Status) -> Outcome
    ensures { result ≡ record { status = status; seen = NoneSeen } }
{
    Outcome { status, seen: None }
}

// Decodes on this one thread, and counts notes as a viewer does where one is asked for.
fn decode_here<S: Source, K: Sink>(
    alloc: Global,
    settings: &Settings,
    source: &mut S,
    sink: &mut K,
) -> Outcome
    requires job { settings.now.job ≡ Decode }
    requires read { AreRead settings.now }
    ensures views { ViewsOn ⟦<AnyDecoder as Keep>⟧.saves (meaning_of settings.now)
        (S.left source.old) (S.left source.new) (K.written sink.old) (K.written sink.new) result }
    ensures causes { CausedOn (NamesNoHead (meaning_of settings.now)) S.faults K.faults
        source.old source.new sink.old sink.new result.status }
{
    if is_watched(settings) {
        return count_stack(alloc, settings, source, sink);
    }
    let (ended, _) = decode_stack(alloc, settings, source, sink, Unwatched);
    unseen(status_by(ended))
}

// Decodes with a thread for each decoder, and one for a viewer where one is asked for.
fn decode_beside<R: Threads + Wait + Sync, P: Pacer + Sync, S: Source + Send, K: Sink>(
    way: &InThreads<R, P>,
    settings: &Settings,
    source: &mut S,
    sink: &mut K,
) -> Outcome
    requires job { settings.now.job ≡ Decode }
    requires read { AreRead settings.now }
    ensures views { ViewsOn ⟦<AnyDecoder as Keep>⟧.saves (meaning_of settings.now)
        (S.left source.old) (S.left source.new) (K.written sink.old) (K.written sink.new) result }
    ensures causes { CausedOn (NamesNoHead (meaning_of settings.now)) S.faults K.faults
        source.old source.new sink.old sink.new result.status }
{
    if is_watched(settings) {
        return view_stack(way, settings, source, sink);
    }
    let (ended, _) = decode_stack_in_threads(way, settings, source, sink, Unwatched);
    unseen(status_by(ended))
}

/// Does the work that the settings ask for, on this one thread.
pub(crate) fn work_here<S: Source, K: Sink>(
    alloc: Global,
    settings: &Settings,
    source: &mut S,
    sink: &mut K,
) -> Outcome
    requires read { AreRead settings.now }
    ensures views { ViewsOn ⟦<AnyDecoder as Keep>⟧.saves (meaning_of settings.now)
        (S.left source.old) (S.left source.new) (K.written sink.old) (K.written sink.new) result }
    ensures made { IsMade (meaning_of settings.now) → source.new ≡ source.old }
    ensures causes { CausedOn (NamesNoHead (meaning_of settings.now)) S.faults K.faults
        source.old source.new sink.old sink.new result.status }
{
    match settings.job {
        Job::Decode => decode_here(alloc, settings, source, sink),
        Job::Find => unseen(search(alloc, settings, source, sink)),
        Job::Part => unseen(part_stack(alloc, settings, source, sink)),
        Job::Make => unseen(make(alloc, settings.seed, settings.count, sink)),
    }
}

// Whether a decoding has a thread for each decoder: one of a whole capture alone may ask for them.
fn decodes_in_threads(settings: &Settings) -> bool
    ensures job { result ≡ true → settings.now.job ≡ Decode }
{
    match settings.job {
        Job::Decode => settings.threads,
        Job::Find | Job::Part | Job::Make => false,
    }
}

/// The same with threads, where the settings ask for them.
pub(crate) fn work_as_asked<R: Threads + Wait + Sync, P: Pacer + Sync, S: Source + Send, K: Sink>(
    host: &Host<R, P>,
    settings: &Settings,
    source: &mut S,
    sink: &mut K,
) -> Outcome
    requires read { AreRead settings.now }
    ensures views { ViewsOn ⟦<AnyDecoder as Keep>⟧.saves (meaning_of settings.now)
        (S.left source.old) (S.left source.new) (K.written sink.old) (K.written sink.new) result }
    ensures made { IsMade (meaning_of settings.now) → source.new ≡ source.old }
    ensures causes { CausedOn (NamesNoHead (meaning_of settings.now)) S.faults K.faults
        source.old source.new sink.old sink.new result.status }
{
    if decodes_in_threads(settings) {
        return decode_beside(&host.in_threads(settings), settings, source, sink);
    }
    work_here(host.alloc, settings, source, sink)
}
