// One machine of a tree, and one mark.
ghost use Rattle.std.specs.Prelude.{◌≡◌, ◌<◌, ◌≤◌, ◌∷◌, [], ℕ, List, MatchBool, Some, length, map};
ghost use Rattle.std.specs.Prelude.{slice_get, take};
ghost use Rattle.la_base.specs.Runs.{samples_of};
ghost use Rattle.decoder_core.specs.Inputs.{left_feed};
ghost use Rattle.std.specs.Result.{is_ok};
ghost use Rattle.tree_io.specs.Feeds.{marks_of};
ghost use Rattle.tree_runs.specs.Passing.{Took, TookFront, only, same_place};
ghost use Rattle.tree_runs.specs.Taking.{GoesOn};
ghost use Rattle.tree_runs.specs.Machines.{Stand, StepsAt, StepsRunsAt, whole_of};

use decoder_core::{Machine, Outs, Taken};
use la_base::{Feed, Mark, Out, Packet, Run};
use tree_io::{MarkTake, Stopped};

/// Steps of one machine over runs, past stops that put out nothing.
#[inline(always)]
pub fn step_runs_at<M: Machine>(
    machines: &mut [M],
    instance: u32,
    runs: &[Run],
    outs: &mut Outs,
) -> Taken
    requires within { instance < length machines.old }
    requires empty { outs.old ≡ [] }
    ensures setups { map M.setup machines.new ≡ map M.setup machines.old }
    ensures len { length machines.new ≡ length machines.old }
    ensures within { result.count ≤ length runs.now }
    ensures some { 0 < length runs.now → 0 < result.count }
    ensures steps { StepsRunsAt instance (whole_of M.outputs (map M.setup machines.old))
        (Stand M.consumed machines.old) (Stand M.consumed machines.new)
        (samples_of (take result.count runs.now)) result.rest outs.new }
{
    machines[instance as usize].step_runs(runs, outs)
}

/// A step of one machine over a run, which may go on behind its first stop.
#[inline(always)]
pub fn step_run_at<M: Machine>(
    machines: &mut [M],
    instance: u32,
    run: Run,
    outs: &mut Outs,
) -> Option<Run>
    requires within { instance < length machines.old }
    requires empty { outs.old ≡ [] }
    ensures setups { map M.setup machines.new ≡ map M.setup machines.old }
    ensures len { length machines.new ≡ length machines.old }
    ensures step { StepsAt instance (whole_of M.outputs (map M.setup machines.old))
        (Stand M.consumed machines.old) (Stand M.consumed machines.new) (Feed.Run run)
        (left_feed result) outs.new }
{
    machines[instance as usize].step_run(run, outs)
}

/// A step of one machine over a packet.
#[inline(always)]
pub fn step_packet_at<M: Machine>(
    machines: &mut [M],
    instance: u32,
    packet: Packet,
    outs: &mut Outs,
) -> Option<Feed>
    requires within { instance < length machines.old }
    requires empty { outs.old ≡ [] }
    ensures setups { map M.setup machines.new ≡ map M.setup machines.old }
    ensures len { length machines.new ≡ length machines.old }
    ensures step { StepsAt instance (whole_of M.outputs (map M.setup machines.old))
        (Stand M.consumed machines.old) (Stand M.consumed machines.new)
        (Feed.Packet packet) result outs.new }
{
    machines[instance as usize].step(Feed::Packet(packet), outs)
}

/// One mark of an instance. It is inlined, so that what takes it knows which kind of mark it is.
#[inline(always)]
pub fn mark<G: MarkTake>(take: &mut G, instance: u32, mark: Mark) -> Result<(), Stopped>
    requires { instance < G.instances take.old }
    ensures took { Took (G.took take.old) (G.took take.new) (only instance (mark ∷ [])) }
    ensures takes { GoesOn G.instances G.origin G.stops G.going take.old take.new result }
{
    take.take(instance, mark)
}

/// The notes and the pieces among outputs of an instance, as its next marks.
#[inline(always)]
pub fn tell<G: MarkTake>(take: &mut G, instance: u32, outs: &[Out]) -> Result<(), Stopped>
    requires { instance < G.instances take.old }
    ensures took { TookFront (is_ok result) (G.took take.old) (G.took take.new) instance
        (marks_of outs.now) }
    ensures takes { GoesOn G.instances G.origin G.stops G.going take.old take.new result }
{
    take.take_outs(instance, outs)
}

/// Whether a machine stands on another.
#[inline(always)]
pub fn has_child(parents: &[Option<u32>], instance: u32) -> bool
    ensures { MatchBool result (Unit {0})
        ((j : ℕ) → slice_get parents.now j ≡ Some (Some instance) → ⊥) }
{
    for parent in parents {
        if same_place(*parent, Some(instance)) {
            return true;
        }
    }
    false
}

/// Whether two places are the same; None is the outside of the tree.
pub fn same_place(one: Option<u32>, other: Option<u32>) -> bool
    ensures { result ≡ same_place one other }
{
    match (one, other) {
        (None, None) => true,
        (Some(i), Some(j)) => i == j,
        _ => false,
    }
}
