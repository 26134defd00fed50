// Laws of the parts of a capture and of their checkpoints, each on a function that does nothing.
ghost use Rattle.std.specs.Prelude.{◌≡◌, ◌<◌, ℕ, List, [], Option, length, map};
ghost use Rattle.hex.specs.Hex.{encode_lower};
ghost use Rattle.tree_runs.specs.Passing.{IsForest};
ghost use Rattle.check_laws.specs.Parts.{all_of, given_on, parts_of};
ghost use Rattle.check_laws.specs.Resuming.{IsCheckBehind, IsCheckOn};

use decoder_core::{Keep, Machine};

/// Setups and samples make the checkpoint: two checkpoints of machines of the same setups, behind
/// the same samples, have the same bytes, and so the same word in lower case. (A law; nothing is
/// done.)
pub fn samples_make_the_check<M: Keep>(_of: &M)
    ensures { (setups : List M.Setup) (kinds : List ℕ) (parents : List (Option ℕ))
        (word another earlier : List ℕ) → length setups ≡ length parents
        → (one : IsCheckBehind M.setup M.outputs M.consumed M.saves kinds parents setups
        word earlier)
        → (other : IsCheckBehind M.setup M.outputs M.consumed M.saves kinds parents setups
        another earlier)
        → one.bytes ≡ other.bytes }
{}

/// The word that stands in the line of a checkpoint is one of that checkpoint: the next part goes on
/// behind it. (A law; nothing is done.)
pub fn a_written_word_is_taken<M: Keep>(_of: &M)
    ensures { (setups : List M.Setup) (kinds : List ℕ) (parents : List (Option ℕ))
        (bytes earlier : List ℕ)
        → IsCheckOn M.setup M.outputs M.consumed M.saves kinds parents setups bytes earlier
        → IsCheckBehind M.setup M.outputs M.consumed M.saves kinds parents setups
        (encode_lower bytes) earlier }
{}

/// What the parts of a capture add, one behind another, is together what each instance of a tree
/// gives on the whole, however it is cut and into however many parts. (A law; nothing is done.)
pub fn parts_are_the_whole<M: Machine>(machines: &[M], parents: &[Option<u32>])
    requires forest { IsForest parents.now }
    requires each { length machines.now ≡ length parents.now }
    ensures { (pieces : List (List ℕ)) (j : ℕ) → j < length parents.now
        → given_on M.outputs (map M.setup machines.now) parents.now (all_of pieces) j
        ≡ parts_of M.outputs (map M.setup machines.now) parents.now [] pieces j }
{}
