// A law of the parts of a capture, on a function that does nothing.
ghost use Rattle.std.specs.Prelude.{◌≡◌, ℕ, List, length, map};
ghost use Rattle.stack_words.specs.Accepting.{Accepted};
ghost use Rattle.tree_runs.specs.Passing.{IsForest};
ghost use Rattle.tree_runs.specs.Runs.{nodes_of};
ghost use Rattle.decode_job.specs.Together.{ListTheWhole};

use decoder_core::Machine;

/// The listings of the parts of a capture are together that of the whole, however it is cut and into
/// however many parts: put into the order of a listing, their lines are its lines, each once. (A law;
/// nothing is done.)
pub fn parts_list_the_whole<M: Machine>(machines: &[M], parents: &[Option<u32>])
    requires forest { IsForest parents.now }
    requires each { length machines.now ≡ length parents.now }
    ensures { (accepted : Accepted) (pieces : List (List ℕ))
        → ListTheWhole M.outputs accepted (nodes_of (map M.setup machines.now) parents.now) pieces }
{}
