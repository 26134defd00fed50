// Laws of runs. Nothing is done.
ghost use Rattle.std.specs.Prelude.{◌≡◌, length, map};
ghost use Rattle.decoder_core.specs.declared.end.RunEnd.{RunEnd as RunEndIs};
ghost use Rattle.tree_runs.specs.Passing.{IsForest};
ghost use Rattle.tree_runs.specs.Trees.{RunsExactly, TreeRunsOn};
ghost use Rattle.stack_threads.specs.Runs.{InputsGrow, RunsTree, TreeRunsBy};

use decoder_core::Machine;
use std::snapshot::Snapshot;
use tree_io::{MarkTake, RunFeed};

/// With more lists of runs, the input of each instance grows by its feeds: of one that stands on
/// nothing each list, of any other each packet of its parent.
pub fn inputs_grow_by_feeds<M: Machine>(machines: &[M], parents: &[Option<u32>])
    requires forest { IsForest parents.now }
    requires each { length machines.now ≡ length parents.now }
    ensures { InputsGrow M.outputs (map M.setup machines.now) parents.now }
{}

/// A run of which each feed is told, as one on a single thread, gives what a run gives in whatever
/// order its decoders ran: where `before` were the machines before it and `after` are those behind
/// it, and likewise the feed and what takes the marks.
pub fn exact_runs_are_runs<M: Machine, F: RunFeed, G: MarkTake>(
    before: Snapshot<Vec<M>>,
    after: &[M],
    parents: &[Option<u32>],
    feed_before: Snapshot<F>,
    feed_after: &F,
    take_before: Snapshot<G>,
    take_after: &G,
)
    requires forest { IsForest parents.now }
    requires each { length before.value.items ≡ length parents.now }
    ensures tree { (result : RunEndIs)
        → TreeRunsOn M.Machine F.RunFeed G.MarkTake parents.now before.value.items after.now
        feed_before.value feed_after.now take_before.value take_after.now result
        → TreeRunsBy M.Machine F.RunFeed G.MarkTake parents.now before.value.items
        feed_before.value feed_after.now take_before.value take_after.now result }
    ensures whole { (result : RunEndIs)
        → RunsExactly M.Machine F.RunFeed G.MarkTake parents.now before.value.items after.now
        feed_before.value feed_after.now take_before.value take_after.now result
        → RunsTree M.Machine F.RunFeed G.MarkTake parents.now before.value.items
        feed_before.value feed_after.now take_before.value take_after.now result }
{}
