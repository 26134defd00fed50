// The job `decode`.
ghost use Rattle.std.specs.Prelude.{◌≡◌, [], length, true};
ghost use Rattle.capture_any.specs.Reading.{is_open_of};
ghost use Rattle.decode_job.specs.Asking.{CanDecode, CanList};
ghost use Rattle.decode_job.specs.Decoding.{Decodes, DecodesOn};

use crate::DecodeEnd;
use crate::capture_feed::CaptureFeed;
use crate::ending::{Lent, apart, end_behind, go_back, hand_on};
use crate::running::run_alone;
use crate::tree::Tree;
use annot_merge::Merge;
use capture_any::Capture;
use decoder_core::Machine;
use la_base::NoMemory;
use la_io::{Buffered, Sink, Source};
use note_lister::{Lister, Watch};
use stack_laws::laws::machines_are_a_tree;
use stack_threads::{InThreads, run_stages};
use stage_crew::Pacer;
use std::alloc::Global;
use std::sync::Wait;
use std::thread::Threads;

// Runs the machines over the capture to its end, and writes what they give as it comes.
fn list_here<S: Source, K: Sink, W: Watch, M: Machine + Drop>(
    tree: Tree<'_, M>,
    merge: Merge,
    capture: &mut Capture,
    source: &mut S,
    sink: &mut K,
    watch: W,
) -> (DecodeEnd, W)
    requires unseen { W.saw watch [] }
    requires is_open { is_open_of capture.old ≡ true }
    requires lists { CanList tree.stack.now (length tree.machines.items) tree.parents.now merge }
    ensures { DecodesOn M.Machine S.Source K.Sink tree.entry.stack.now tree.entry.machines.items
        tree.entry.parents.now W.saw W.origin capture.old source.old source.new sink.old sink.new
        watch result.1 result.0 }
{
    let Tree {
        stack,
        machines,
        parents,
    } = tree;
    let mut feed = CaptureFeed::new(capture, source);
    let mut lister = Lister::over(stack, merge, sink, watch);
    machines_are_a_tree(&machines, parents);
    let ran = run_alone(machines, parents, &mut feed, &mut lister);
    let end = end_behind(ran, lister.cause, feed.end);
    let Lent {
        capture: read,
        source: read_from,
        sink: written_to,
        watch,
    } = apart(feed, lister);
    go_back(read, read_from, written_to);
    (end, watch)
}

// The same with a thread for each machine.
fn list_in_threads<
    R: Threads + Wait + Sync,
    P: Pacer + Sync,
    S: Source + Send,
    K: Sink,
    W: Watch,
    M: Machine + Send + Drop,
>(
    way: &InThreads<R, P>,
    tree: Tree<'_, M>,
    merge: Merge,
    capture: &mut Capture,
    source: &mut S,
    sink: &mut K,
    watch: W,
) -> (DecodeEnd, W)
    requires unseen { W.saw watch [] }
    requires is_open { is_open_of capture.old ≡ true }
    requires lists { CanList tree.stack.now (length tree.machines.items) tree.parents.now merge }
    ensures { DecodesOn M.Machine S.Source K.Sink tree.entry.stack.now tree.entry.machines.items
        tree.entry.parents.now W.saw W.origin capture.old source.old source.new sink.old sink.new
        watch result.1 result.0 }
{
    let Tree {
        stack,
        machines,
        parents,
    } = tree;
    let mut feed = CaptureFeed::new(capture, source);
    let mut lister = Lister::over(stack, merge, sink, watch);
    machines_are_a_tree(&machines, parents);
    let ran = run_stages(way, machines, parents, &mut feed, &mut lister);
    let end = end_behind(ran, lister.cause, feed.end);
    let Lent {
        capture: read,
        source: read_from,
        sink: written_to,
        watch,
    } = apart(feed, lister);
    go_back(read, read_from, written_to);
    (end, watch)
}

/// Reads the capture to its end, and writes the notes that the machines give, those of the
/// instances that are shown, in the order of a listing and each as soon as no earlier one can come;
/// or the bytes of the binary data that is wanted, and nothing else. What is written goes through a
/// buffer before the sink, which hands all on at the end.
///
/// What looks on has seen nothing yet. It is shown the notes as their lines are written, and given
/// back. Where a write fails, it may have seen notes whose lines were still in the buffer.
pub fn decode<S: Source, K: Sink, W: Watch, M: Machine + Drop>(
    alloc: Global,
    tree: Tree<'_, M>,
    capture: &mut Capture,
    source: &mut S,
    sink: &mut K,
    watch: W,
) -> (DecodeEnd, W)
    requires unseen { W.saw watch [] }
    requires is_open { is_open_of capture.old ≡ true }
    requires tree { CanDecode tree.stack.now (length tree.machines.items) tree.parents.now }
    ensures decodes { Decodes M.Machine S.Source K.Sink tree.entry.stack.now
        tree.entry.machines.items tree.entry.parents.now capture.old source.old source.new
        sink.old sink.new (W.saw result.1) result.0 }
    ensures origin { W.origin result.1 ≡ W.origin watch }
{
    let merge = match Merge::new(alloc, tree.stack.count()) {
        Ok(merge) => merge,
        Err(NoMemory) => return (DecodeEnd::NoMemory, watch),
    };
    let mut buffered = Buffered::new(sink);
    let (end, watch) = list_here(tree, merge, capture, source, &mut buffered, watch);
    (hand_on(&mut buffered, end), watch)
}

/// The same with a thread for each machine, as `way` says: what is written and seen is the same, in
/// whatever order the threads run.
pub fn decode_in_threads<
    R: Threads + Wait + Sync,
    P: Pacer + Sync,
    S: Source + Send,
    K: Sink,
    W: Watch,
    M: Machine + Send + Drop,
>(
    way: &InThreads<R, P>,
    tree: Tree<'_, M>,
    capture: &mut Capture,
    source: &mut S,
    sink: &mut K,
    watch: W,
) -> (DecodeEnd, W)
    requires unseen { W.saw watch [] }
    requires is_open { is_open_of capture.old ≡ true }
    requires tree { CanDecode tree.stack.now (length tree.machines.items) tree.parents.now }
    ensures decodes { Decodes M.Machine S.Source K.Sink tree.entry.stack.now
        tree.entry.machines.items tree.entry.parents.now capture.old source.old source.new
        sink.old sink.new (W.saw result.1) result.0 }
    ensures origin { W.origin result.1 ≡ W.origin watch }
{
    let merge = match Merge::new(way.alloc, tree.stack.count()) {
        Ok(merge) => merge,
        Err(NoMemory) => return (DecodeEnd::NoMemory, watch),
    };
    let mut buffered = Buffered::new(sink);
    let (end, watch) = list_in_threads(way, tree, merge, capture, source, &mut buffered, watch);
    (hand_on(&mut buffered, end), watch)
}
