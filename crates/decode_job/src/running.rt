// How a tree of decoders is run.
ghost use Rattle.std.specs.Prelude.{◌≡◌, OnErr, IfOk, length};
ghost use Rattle.tree_runs.specs.Taking.{IsTree};
ghost use Rattle.stack_threads.specs.Runs.{RunsTree};

use decoder_core::{Machine, RunEnd};
use la_base::NoMemory;
use stack_direct::run_direct;
use stack_threads::exact_runs_are_runs;
use std::snapshot::Snapshot;
use tree_io::{MarkTake, RunFeed};

/// Runs the tree to the end of the feed, or until the one that takes the marks has stopped, on the
/// thread that asks for it.
pub(crate) fn run_alone<M: Machine + Drop, F: RunFeed, G: MarkTake>(
    machines: Vec<M>,
    parents: &[Option<u32>],
    feed: &mut F,
    take: &mut G,
) -> Result<RunEnd, NoMemory>
    requires tree { IsTree parents.now (length machines.items) (G.instances take.old) }
    ensures runs { IfOk result (λ end. RunsTree M.Machine F.RunFeed G.MarkTake parents.now
        machines.items feed.old feed.new take.old take.new end) }
    ensures none { OnErr result ((feed.new ≡ feed.old) × (take.new ≡ take.old)) }
{
    let mut machines = machines;
    let before = Snapshot::of(&machines);
    let feed_before = Snapshot::of(&*feed);
    let take_before = Snapshot::of(&*take);
    let end = run_direct(&mut machines, parents, feed, take);
    exact_runs_are_runs(
        before,
        &machines,
        parents,
        feed_before,
        feed,
        take_before,
        take,
    );
    Ok(end)
}
