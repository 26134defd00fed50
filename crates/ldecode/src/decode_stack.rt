// A decoding of the stack that settings ask for, whoever looks on.
ghost use Rattle.std.specs.Prelude.{◌≡◌, []};
ghost use Rattle.words.specs.Settings.{meaning_of};
ghost use Rattle.words.specs.declared.kinds.Job.TheVariants.{Decode};
ghost use Rattle.run_status.specs.Notices.{status_by};
ghost use Rattle.run_asks.specs.Asking.{NamesNoHead};
ghost use Rattle.ldecode.specs.Calls.{AreRead, CausedOn, DecodesAs};

use decode_job::{DecodeEnd, InThreads, Tree, decode, decode_in_threads};
use la_io::{Sink, Source};
use note_lister::Watch;
use run_status::Status;
use stack_open::{Opened, open_stack};
use stage_crew::Pacer;
use std::alloc::Global;
use std::sync::Wait;
use std::thread::Threads;
use words::Settings;

/// Decodes the capture under the stack that the settings ask for, on this one thread, before what
/// looks on, which is given back. It answers how the decoding ended, or the status of one that
/// couldn't begin.
pub(crate) fn decode_stack<S: Source, K: Sink, W: Watch>(
    alloc: Global,
    settings: &Settings,
    source: &mut S,
    sink: &mut K,
    watch: W,
) -> (Result<DecodeEnd, Status>, W)
    requires job { settings.now.job ≡ Decode }
    requires read { AreRead settings.now }
    requires unseen { W.saw watch [] }
    ensures decodes { DecodesAs (meaning_of settings.now) W.saw K.written (S.left source.old)
        (S.left source.new) sink.old sink.new watch result.1 result.0 }
    ensures origin { W.origin result.1 ≡ W.origin watch }
    ensures causes { CausedOn (NamesNoHead (meaning_of settings.now)) S.faults K.faults
        source.old source.new sink.old sink.new (status_by result.0) }
{
    let Opened {
        stack,
        capture,
        machines,
        parents,
    } = match open_stack(alloc, settings, source) {
        Ok(opened) => opened,
        Err(status) => return (Err(status), watch),
    };
    let mut capture = capture;
    let tree = Tree {
        stack: &stack,
        machines,
        parents: &parents,
    };
    let (end, watch) = decode(alloc, tree, &mut capture, source, sink, watch);
    (Ok(end), watch)
}

/// The same with a thread for each decoder, as `way` says.
pub(crate) fn decode_stack_in_threads<
    R: Threads + Wait + Sync,
    P: Pacer + Sync,
    S: Source + Send,
    K: Sink,
    W: Watch,
>(
    way: &InThreads<R, P>,
    settings: &Settings,
    source: &mut S,
    sink: &mut K,
    watch: W,
) -> (Result<DecodeEnd, Status>, W)
    requires job { settings.now.job ≡ Decode }
    requires read { AreRead settings.now }
    requires unseen { W.saw watch [] }
    ensures decodes { DecodesAs (meaning_of settings.now) W.saw K.written (S.left source.old)
        (S.left source.new) sink.old sink.new watch result.1 result.0 }
    ensures origin { W.origin result.1 ≡ W.origin watch }
    ensures causes { CausedOn (NamesNoHead (meaning_of settings.now)) S.faults K.faults
        source.old source.new sink.old sink.new (status_by result.0) }
{
    let Opened {
        stack,
        capture,
        machines,
        parents,
    } = match open_stack(way.alloc, settings, source) {
        Ok(opened) => opened,
        Err(status) => return (Err(status), watch),
    };
    let mut capture = capture;
    let tree = Tree {
        stack: &stack,
        machines,
        parents: &parents,
    };
    let (end, watch) = decode_in_threads(way, tree, &mut capture, source, sink, watch);
    (Ok(end), watch)
}
