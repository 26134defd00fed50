// Steps, floors and bytes of a machine of any kind.
ghost use Rattle.std.specs.Prelude.{◌≤◌, ◌<◌, ◌≡◌, [], length, take};
ghost use Rattle.la_base.specs.Runs.{samples_of};
ghost use Rattle.la_base.specs.declared.wires.Feed.TheVariants as feed;
ghost use Rattle.decoder_core.specs.Driving.{LeavesFewer};
ghost use Rattle.decoder_core.specs.Inputs.{left_feed};
ghost use Rattle.decoder_set.specs.Members.{Floored, Loaded, Stepped, SteppedRun};
ghost use Rattle.decoder_set.specs.Members.{SteppedRuns};
ghost use Rattle.decoder_set.specs.Saving.{SavedBy};

use crate::any_machine::{AnyMachine, each};
use crate::member::{floor, load, save, step, step_run, step_runs};
use crate::savers::{EachKind, SavedByKind};
use decoder_core::{Outs, Saved, Taken};
use la_base::{Feed, Run};

/// As `step`.
#[inline(always)]
pub fn step_any(machine: &mut AnyMachine, feed: Feed, into: &mut Outs) -> Option<Feed>
    requires { into.old ≡ [] }
    ensures { Stepped machine.old machine.new feed result into.new }
{
    each!(machine, held => step(held, feed, into))
}

/// As `step_runs`.
#[inline(always)]
pub fn step_runs_any(machine: &mut AnyMachine, runs: &[Run], into: &mut Outs) -> Taken
    requires { into.old ≡ [] }
    ensures within { result.count ≤ length runs.now }
    ensures some { 0 < length runs.now → 0 < result.count }
    ensures stepped { SteppedRuns machine.old machine.new
        (samples_of (take result.count runs.now)) result.rest into.new }
    ensures fewer { LeavesFewer (samples_of (take result.count runs.now)) result.rest }
{
    each!(machine, held => step_runs(held, runs, into))
}

/// As `step_run`.
#[inline(always)]
pub fn step_run_any(machine: &mut AnyMachine, run: Run, into: &mut Outs) -> Option<Run>
    requires { into.old ≡ [] }
    ensures { SteppedRun machine.old machine.new (feed.Run run) (left_feed result) into.new }
{
    each!(machine, held => step_run(held, run, into))
}

/// As `floor`.
#[inline(always)]
pub fn floor_any(machine: &AnyMachine, above: u64) -> u64
    ensures { Floored machine.now above result }
{
    each!(machine, held => floor(held, above))
}

/// As `save`.
pub fn save_any(machine: &AnyMachine) -> Saved
    ensures { SavedBy ⟦<EachKind as SavedByKind>⟧.saves machine.now result.items }
{
    each!(machine, held => save(held))
}

/// As `load`.
pub fn load_any(machine: &mut AnyMachine, saved: &Saved) -> bool
    ensures { Loaded ⟦<EachKind as SavedByKind>⟧.saves machine.old machine.new result
        saved.now.items }
{
    each!(machine, held => load(held, saved))
}
