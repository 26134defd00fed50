// Laws of trees. Nothing is done.
ghost use Rattle.std.specs.Prelude.{◌≡◌, ◌<◌, ℕ, [], length, map};
ghost use Rattle.tree_runs.specs.Machines.{Stand};
ghost use Rattle.tree_runs.specs.Passing.{IsForest};
ghost use Rattle.tree_runs.specs.Runs.{StandOn};

use decoder_core::Machine;

/// New machines stand for their inputs in a tree on no samples: where each has consumed nothing,
/// each has consumed what its parent gives on nothing.
pub fn new_machines_stand<M: Machine>(machines: &[M], parents: &[Option<u32>])
    requires forest { IsForest parents.now }
    requires each { length machines.now ≡ length parents.now }
    ensures { ((j : ℕ) → j < length parents.now → Stand M.consumed machines.now j [])
        → StandOn M.outputs (map M.setup machines.now) parents.now
        (Stand M.consumed machines.now) [] }
{}
