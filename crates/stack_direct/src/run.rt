// The run of a tree.
ghost use Rattle.std.specs.Prelude.{◌≡◌, ◌≤◌, ◌<◌, ◌^◌, [], ℕ, List, Err, IfOk, OnErr, OnOk, not};
ghost use Rattle.std.specs.Prelude.{true, false, length, map};
ghost use Rattle.la_base.specs.declared.samples.Run.{Run};
ghost use Rattle.la_base.specs.declared.wires.Mark.{Mark};
ghost use Rattle.tree_io.specs.Feeds.{GivesRuns};
ghost use Rattle.tree_runs.specs.Runs.{TookEnds};
ghost use Rattle.tree_runs.specs.Taking.{IsTree};
ghost use Rattle.tree_runs.specs.Trees.{RunsExactly};
ghost use Rattle.stack_direct.specs.Trees.{SameTree, TakesAll, TakesOn, TreeFed};

use crate::parts::mark;
use crate::tree::Tree;
use decoder_core::{Machine, Outs, RunEnd};
use la_base::Mark;
use tree_io::{MarkTake, RunFeed, Stopped};

/// Where the handing on of runs was stopped.
#[derive(Clone, Copy, PartialEq, Eq)]
pub(crate) enum Halt {
    /// At a mark.
    AtMark,
    /// In a pause, with all runs handed on whole.
    InPause,
}

// Tells what takes the marks of the pause, where the feed may have to wait.
fn pause<F: RunFeed, G: MarkTake>(feed: &F, take: &mut G) -> Result<(), Stopped>
    ensures took { (marks : ℕ → List Mark) → G.took take.old marks → G.took take.new marks }
    ensures takes { TakesOn G.MarkTake take.old take.new result }
{
    if feed.may_wait() {
        return take.pause();
    }
    Ok(())
}

// The next runs: those at hand, and where there are none, those that the feed gives then. Where it may
// have to wait for them, what takes the marks is told of the pause before.
fn next_list<F: RunFeed, G: MarkTake>(feed: &mut F, take: &mut G) -> Result<bool, Stopped>
    ensures gives { IfOk result (λ more. GivesRuns more (F.gave feed.old) (F.gave feed.new)
        (F.held feed.new)) }
    ensures none { OnErr result ((earlier : List (List Run)) → F.gave feed.old earlier
        → F.gave feed.new earlier) }
    ensures at_end { IfOk result (λ more. F.at_end feed.new ≡ not more) }
    ensures grows { IfOk result (λ more. more ≡ true → (F.given feed.old < F.given feed.new)
        × (F.given feed.new ≤ 2 ^ 60)) }
    ensures origin { F.origin feed.new ≡ F.origin feed.old }
    ensures took { (marks : ℕ → List Mark) → G.took take.old marks → G.took take.new marks }
    ensures takes { TakesOn G.MarkTake take.old take.new result }
{
    if feed.held_runs() {
        return Ok(true);
    }
    match pause(feed, take) {
        Ok(()) => Ok(feed.next_runs()),
        Err(Stopped) => Err(Stopped),
    }
}

// How many instances a tree has at most.
const MOST: usize = 24;

// Hands all runs of the feed down the tree, and tells floors after those that it gave at once.
fn feed_all<M: Machine, F: RunFeed, G: MarkTake>(
    tree: &mut Tree<'_, '_, M>,
    feed: &mut F,
    take: &mut G,
) -> Result<(), Halt>
    requires all { TakesAll G.MarkTake tree.old take.old }
    ensures same { SameTree M.Machine tree.old tree.new }
    ensures feeds { TreeFed M.Machine G.MarkTake tree.old tree.new take.old take.new result
        (F.gave feed.old) (F.gave feed.new) }
    ensures at_end { OnOk result (F.at_end feed.new ≡ true) }
    ensures not_at_end { result ≡ Err Halt.AtMark → F.at_end feed.new ≡ false }
    ensures feed_origin { F.origin feed.new ≡ F.origin feed.old }
    ensures takes { TakesOn G.MarkTake take.old take.new result }
{
    // One for all steps of a depth, since to make it fills it with default values.
    let mut outs = Outs::new();
    let mut rooms = [Outs::new(), Outs::new(), Outs::new()];
    let mut floors = [0; MOST];
    loop {
        match next_list(feed, take) {
            Ok(true) => match tree.hand_runs(feed.runs(), &mut outs, &mut rooms, take) {
                Ok(()) => match tree.tell_floors(&mut floors, take) {
                    Ok(()) => {}
                    Err(Stopped) => return Err(Halt::AtMark),
                },
                Err(Stopped) => return Err(Halt::AtMark),
            },
            Ok(false) => return Ok(()),
            Err(Stopped) => return Err(Halt::InPause),
        }
    }
}

// Ends the marks of the instances before `count`.
fn end_all<G: MarkTake>(count: u32, take: &mut G) -> Result<(), Stopped>
    requires { count ≤ G.instances take.old }
    ensures took { (k : ℕ) × (k ≤ count) × OnOk result (k ≡ count) × OnErr result (0 < k)
        × TookEnds (G.took take.old) (G.took take.new) k }
    ensures takes { TakesOn G.MarkTake take.old take.new result }
{
    for instance in 0..count {
        match mark(take, instance, Mark::End) {
            Ok(()) => {}
            Err(Stopped) => return Err(Stopped),
        }
    }
    Ok(())
}

/// Runs a tree of decoders on one thread. Each run of the feed is handed to the machines that stand
/// on nothing, and each packet, at once, to those that stand on the machine that put it out; notes
/// and pieces are taken as marks, a floor behind each packet and behind the runs that the feed gave
/// at once, and at the end of the feed the end of each instance. After these runs floors go down
/// the tree: that of each machine by that of the one on which it stands. So a machine in which
/// nothing has begun holds nothing back, also where no packet comes. Before a call of the feed that
/// may have to wait, what takes the marks is told of the pause. It takes no memory.
///
/// The machines may already stand for samples: what is taken is what follows. A packet that doesn't
/// count for a machine is passed over by it. `Stopped` is answered where `take` stopped, at the
/// last mark that it was handed or in a pause after it: none is taken then, and the feed isn't read on.
pub fn run_direct<M: Machine, F: RunFeed, G: MarkTake>(
    machines: &mut [M],
    parents: &[Option<u32>],
    feed: &mut F,
    take: &mut G,
) -> RunEnd
    requires tree { IsTree parents.now (length machines.old) (G.instances take.old) }
    ensures setups { map M.setup machines.new ≡ map M.setup machines.old }
    ensures runs { RunsExactly M.Machine F.RunFeed G.MarkTake parents.now machines.old
        machines.new feed.old feed.new take.old take.new result }
{
    let mut tree = Tree { machines, parents };
    match feed_all(&mut tree, feed, take) {
        Ok(()) => match end_all(parents.len() as u32, take) {
            Ok(()) => RunEnd::Ended,
            Err(Stopped) => RunEnd::Stopped,
        },
        Err(Halt::AtMark) => RunEnd::Stopped,
        Err(Halt::InPause) => RunEnd::Stopped,
    }
}
