// The stages of a tree, opened between the ends of its links, and taken apart again.
ghost use Rattle.std.specs.Prelude.{◌≡◌, ◌≤◌, ◌+◌, ◌++◌, List, vec_capacity, vec_len};
ghost use Rattle.std.specs.List.{All, AllZip};
ghost use Rattle.stack_threads.specs.Stages.{AllOver, HasEnds, IsOpened, Parted};
ghost use Rattle.stack_threads.specs.Wires.{AreNew};

use crate::wiring::StageEnds;
use decoder_core::Machine;
use stage_run::{Parts, Stage};

/// Opens a stage for each machine, with the ends at its place.
pub(crate) fn open_all<M: Machine + Drop>(
    machines: Vec<M>,
    ends: Vec<StageEnds>,
    stages: &mut Vec<Stage<M>>,
)
    requires each { vec_len ends ≡ vec_len machines }
    requires new { All AreNew ends.items }
    requires room { vec_len stages.old + vec_len machines ≤ vec_capacity stages.old }
    ensures stages { (made : List _) × (stages.new.items ≡ stages.old.items ++ made)
        × AllZip (IsOpened M.Machine) machines.items made × AllZip HasEnds ends.items made }
    ensures room { (vec_capacity stages.new ≡ vec_capacity stages.old)
        × (vec_len stages.new ≡ vec_len stages.old + vec_len machines) }
{
    let mut machines = machines;
    let mut ends = ends;
    let Some(machine) = machines.pop() else {
        return;
    };
    let Some(end) = ends.pop() else {
        unreachable!();
    };
    open_all(machines, ends, stages);
    stages.push_reserved(Stage::open(machine, end.input, end.children, end.marks));
}

/// Takes stages apart that are over, in their order.
#[tactic(auto, using(crate::proofs::Opening::over_front))]
pub(crate) fn take_apart<M: Machine + Drop>(stages: Vec<Stage<M>>, parts: &mut Vec<Parts<M>>)
    requires over { AllOver stages.items }
    requires room { vec_len parts.old + vec_len stages ≤ vec_capacity parts.old }
    ensures parts { (made : List _) × (parts.new.items ≡ parts.old.items ++ made)
        × AllZip (Parted M.Machine) stages.items made }
    ensures room { (vec_capacity parts.new ≡ vec_capacity parts.old)
        × (vec_len parts.new ≡ vec_len parts.old + vec_len stages) }
{
    let mut stages = stages;
    let Some(stage) = stages.pop() else {
        return;
    };
    take_apart(stages, parts);
    parts.push_reserved(stage.into_parts());
}
