// A law of what runs write, on a function that does nothing.
ghost use Rattle.std.specs.Prelude.{◌≡◌, List, ◌∷◌, None};
ghost use Rattle.decoder_core.specs.Trees.{Node};
ghost use Rattle.decoder_set.specs.declared.setup.Setup.{Setup};
ghost use Rattle.stack_words.specs.Accepting.{Accepted};
ghost use Rattle.tree_runs.specs.Passing.{IsForest};
ghost use Rattle.ldecode.specs.Parts.{parents_on};
ghost use Rattle.ldecode.specs.Together.{ArePartRuns, PartRun, WriteTheWhole};

use decoder_core::Keep;
use decoder_set::AnyDecoder;

/// Runs over the parts of a capture, each given the word of the checkpoint that the run before
/// wrote, write together the listing of the whole: put into the order of a listing, their lines are
/// its lines, each once, however the capture is cut and into however many parts.
pub fn parts_write_the_whole()
    ensures { (accepted : Accepted) (nodes : List (Node Setup)) (first : PartRun)
        (others : List PartRun) → IsForest (parents_on nodes) → accepted.binary ≡ None
        → ArePartRuns ⟦<AnyDecoder as Keep>⟧.saves accepted nodes None (first ∷ others)
        → WriteTheWhole accepted nodes (first ∷ others) }
{}
