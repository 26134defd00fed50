// Marks of one instance, handed to what takes them.
ghost use Rattle.std.specs.Prelude.{◌≡◌, ◌≤◌, ◌<◌, [], ℕ, List, not, true, false, OnOk};
ghost use Rattle.std.specs.Result.{is_ok};
ghost use Rattle.la_base.specs.declared.wires.Mark.{Mark as MarkIs};
ghost use Rattle.la_base.specs.declared.wires.Mark.TheVariants.{End as EndMark};
ghost use Rattle.decoder_core.specs.declared.end.RunEnd.TheVariants.{Ended};
ghost use Rattle.tree_runs.specs.Passing.{Took, only};
ghost use Rattle.tree_runs.specs.Reaching.{Reaches};
ghost use Rattle.tree_runs.specs.Runs.{TookEnds, is_ended};
ghost use Rattle.stage_crew.specs.Driving.{EndsWith};
ghost use Rattle.tree_io.specs.Feeds.{real};
ghost use Rattle.stage_crew.specs.Gathering.{TakesUntil};

use decoder_core::RunEnd;
use la_base::Mark;
use tree_io::{MarkTake, Stopped};

/// Has marks taken, until it is stopped, and answers whether it was. Once it was stopped none is
/// taken any more.
pub(crate) fn take_marks<G: MarkTake>(
    take: &mut G,
    number: u32,
    marks: &[Mark],
    stopped: bool,
) -> bool
    requires { number < G.instances take.old }
    ensures took { (taken : List MarkIs)
        × Took (G.took take.old) (G.took take.new) (only number taken)
        × Reaches (not result) taken (real marks.now) × (stopped ≡ true → taken ≡ []) }
    ensures takes { TakesUntil G.MarkTake stopped result take.old take.new }
{
    if stopped {
        return true;
    }
    match take.take_marks(number, marks) {
        Ok(()) => false,
        Err(Stopped) => true,
    }
}

fn is_end(mark: Mark) -> bool
    ensures { result ≡ true → mark ≡ EndMark }
{
    match mark {
        Mark::End => true,
        Mark::Note(_) => false,
        Mark::Piece(_) => false,
        Mark::Floor(_) => false,
    }
}

/// Whether the last of these is an end.
pub(crate) fn ends(marks: &[Mark]) -> bool
    ensures { result ≡ true → EndsWith EndMark marks.now }
{
    match marks.last() {
        Some(mark) => is_end(*mark),
        None => false,
    }
}

// Has the ends of the instances before `count` taken.
fn end_all<G: MarkTake>(count: u32, take: &mut G) -> Result<(), Stopped>
    requires { count ≤ G.instances take.old }
    ensures took { (k : ℕ) × (k ≤ count) × OnOk result (k ≡ count)
        × TookEnds (G.took take.old) (G.took take.new) k }
    ensures takes { TakesUntil G.MarkTake false (not (is_ok result)) take.old take.new }
{
    for instance in 0..count {
        match take.take(instance, Mark::End) {
            Ok(()) => {}
            Err(Stopped) => return Err(Stopped),
        }
    }
    Ok(())
}

/// Has the ends taken, unless it was stopped.
pub(crate) fn finish<G: MarkTake>(count: u32, take: &mut G, stopped: bool) -> RunEnd
    requires { count ≤ G.instances take.old }
    ensures took { (k : ℕ) × (k ≤ count) × (result ≡ Ended → (k ≡ count) × (stopped ≡ false))
        × (stopped ≡ true → k ≡ 0) × TookEnds (G.took take.old) (G.took take.new) k }
    ensures takes { TakesUntil G.MarkTake stopped (not (is_ended result)) take.old take.new }
{
    if stopped {
        return RunEnd::Stopped;
    }
    match end_all(count, take) {
        Ok(()) => RunEnd::Ended,
        Err(Stopped) => RunEnd::Stopped,
    }
}
