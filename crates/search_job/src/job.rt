// A run of the job `find`.
ghost use Rattle.std.specs.Prelude.{◌≡◌, []};
ghost use Rattle.words.specs.Readable.{IsReadable};
ghost use Rattle.words.specs.Settings.{meaning_of};
ghost use Rattle.words.specs.declared.kinds.Job.TheVariants.{Find};
ghost use Rattle.run_status.specs.Causes.{HasCauses};
ghost use Rattle.run_asks.specs.Asking.{NamesNoHead};
ghost use Rattle.search_job.specs.Searching.{SearchesOn};

use crate::alternatives::bind_words;
use capture_any::Capture;
use cond_words::BindError;
use find_job::find_buffered;
use la_io::{Sink, Source};
use run_asks::form_of;
use run_status::{Status, status_at_head};
use std::alloc::Global;
use words::Settings;

/// Searches the capture for the stops of the condition that the settings ask for.
pub fn search<S: Source, K: Sink>(
    alloc: Global,
    settings: &Settings,
    source: &mut S,
    sink: &mut K,
) -> Status
    requires job { settings.now.job ≡ Find }
    requires readable { IsReadable Find settings.now.chains.items }
    ensures searches { SearchesOn (meaning_of settings.now) (S.left source.old) (S.left source.new)
        (K.written sink.old) (K.written sink.new) result }
    ensures causes { HasCauses (NamesNoHead (meaning_of settings.now)) (source.new ≡ source.old)
        (S.faults source.old) (S.faults source.new) (K.faults sink.old) (K.faults sink.new)
        result }
{
    let mut capture = match Capture::open(alloc, form_of(settings), source) {
        Ok(capture) => capture,
        Err(error) => return status_at_head(error),
    };
    let wanted = match bind_words(alloc, &settings.chains, capture.names()) {
        Ok(wanted) => wanted,
        Err(BindError::Fault(fault)) => return Status::Bind(fault),
        Err(BindError::NoMemory) => return Status::NoMemory,
    };
    capture.select(wanted.pins);
    Status::from(find_buffered(&mut capture, wanted.cond, source, sink))
}
