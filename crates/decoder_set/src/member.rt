// What a machine of one kind owes a decoder of any kind that holds it, and what follows.
ghost use Rattle.std.specs.Prelude.{◌≡◌, ◌≤◌, ◌<◌, [], ℕ, List, Option, length, take};
ghost use Rattle.la_base.specs.Runs.{samples_of};
ghost use Rattle.la_base.specs.declared.samples.Rate.{Rate};
ghost use Rattle.la_base.specs.declared.wires.Feed.TheVariants as feed;
ghost use Rattle.decoder_core.specs.Driving.{LeavesFewer};
ghost use Rattle.decoder_core.specs.Inputs.{left_feed};
ghost use Rattle.decoder_set.specs.declared.any_machine.AnyMachine.{AnyMachine};
ghost use Rattle.kind_table.specs.declared.kinds.Kind.{Kind};
ghost use Rattle.decoder_set.specs.Members.{Floored, IsMember, Loaded, Stepped, SteppedRun};
ghost use Rattle.decoder_set.specs.Members.{SteppedRuns};
ghost use Rattle.decoder_set.specs.Saving.{SavedBy, SavesAs};

use crate::savers::{EachKind, SavedByKind};
use decoder_core::{Keep, Outs, Saved, Taken};
use la_base::{Feed, Run};

/// A machine of one kind, as a decoder of any kind holds it.
pub trait Member: Keep {
    /// Its kind.
    ghost kind: { Kind };

    /// The machine of any kind that it is.
    ghost held: { Self → AnyMachine };

    /// These values mean this setup at this rate.
    ghost own: { List (Option ℕ) → Rate → Self.Setup → Type 0 };

    /// *Member*: a decoder sees of it what it says of itself.
    ghost member: { IsMember kind held own Self.setup Self.outputs Self.near Self.consumed
        Self.sleeps };

    /// *Saved*: it saves what the table says of its kind.
    ghost saved: { SavesAs ⟦<EachKind as SavedByKind>⟧.saves held Self.saves };
}

/// As `step`, for whichever machine this one is.
#[inline(always)]
pub fn step<M: Member>(machine: &mut M, feed: Feed, into: &mut Outs) -> Option<Feed>
    requires { into.old ≡ [] }
    ensures { (whole : AnyMachine) → whole ≡ M.held machine.old
        → Stepped whole (M.held machine.new) feed result into.new }
{
    machine.step(feed, into)
}

/// As `step_runs`, for whichever machine this one is.
#[inline(always)]
pub fn step_runs<M: Member>(machine: &mut M, runs: &[Run], into: &mut Outs) -> Taken
    requires { into.old ≡ [] }
    ensures within { result.count ≤ length runs.now }
    ensures some { 0 < length runs.now → 0 < result.count }
    ensures stepped { (whole : AnyMachine) → whole ≡ M.held machine.old
        → SteppedRuns whole (M.held machine.new)
        (samples_of (take result.count runs.now)) result.rest into.new }
    ensures fewer { LeavesFewer (samples_of (take result.count runs.now)) result.rest }
{
    machine.step_runs(runs, into)
}

/// As `step_run`, for whichever machine this one is.
#[inline(always)]
pub fn step_run<M: Member>(machine: &mut M, run: Run, into: &mut Outs) -> Option<Run>
    requires { into.old ≡ [] }
    ensures { (whole : AnyMachine) → whole ≡ M.held machine.old
        → SteppedRun whole (M.held machine.new) (feed.Run run) (left_feed result) into.new }
{
    machine.step_run(run, into)
}

/// As `floor`, for whichever machine this one is.
#[inline(always)]
pub fn floor<M: Member>(machine: &M, above: u64) -> u64
    ensures { (whole : AnyMachine) → whole ≡ M.held machine.now → Floored whole above result }
{
    machine.floor(above)
}

/// As `save`, for whichever machine this one is.
pub fn save<M: Member>(machine: &M) -> Saved
    ensures { (whole : AnyMachine) → whole ≡ M.held machine.now
        → SavedBy ⟦<EachKind as SavedByKind>⟧.saves whole result.items }
{
    machine.save()
}

/// As `load`, for whichever machine this one is.
pub fn load<M: Member>(machine: &mut M, saved: &Saved) -> bool
    ensures { (whole : AnyMachine) → whole ≡ M.held machine.old
        → Loaded ⟦<EachKind as SavedByKind>⟧.saves whole (M.held machine.new) result
        saved.now.items }
{
    machine.load(saved)
}
