// Reads a checkpoint, and runs the tree on.
ghost use Rattle.std.specs.Prelude.{◌≡◌, ◌≤◌, ℕ, List, length, map};
ghost use Rattle.tree_runs.specs.Taking.{IsTree};
ghost use Rattle.check_laws.specs.Resuming.{IsCheckBehind, ResumesAs};

use check_point::{CheckFault, read_check};
use decoder_core::{Keep, RunEnd};
use stack_direct::run_direct;
use tree_io::{MarkTake, RunFeed};

/// Loads machines from a checkpoint, and runs their tree on; answers the number of samples that it
/// was made behind, and how the run ended. Where the word is a checkpoint of machines of their
/// setups, behind samples on which these stand, it isn't refused, the run gives what follows the
/// outputs on these samples, and the machines stand on the whole.
///
/// This is the law of a checkpoint by itself, over any feed and whatever takes the marks, for who
/// runs a tree in another way. The program's own promise of a part (`part` of `decode_job`) says the
/// same of what is written, and doesn't call it.
pub fn resume<M: Keep, F: RunFeed, G: MarkTake>(
    word: &str,
    machines: &mut [M],
    kinds: &[u8],
    parents: &[Option<u32>],
    feed: &mut F,
    take: &mut G,
) -> Result<(u64, RunEnd), CheckFault>
    requires short { length word.now ≤ 4096 }
    requires count { length kinds.now ≡ length machines.old }
    requires most { length kinds.now ≤ 8 }
    requires tree { IsTree parents.now (length machines.old) (G.instances take.old) }
    ensures resumes { (earlier : List ℕ)
        → IsCheckBehind M.setup M.outputs M.consumed M.saves kinds.now parents.now
        (map M.setup machines.old) word.now earlier
        → ResumesAs M.Machine F.RunFeed G.MarkTake parents.now machines.old machines.new
        feed.old feed.new take.old take.new earlier result }
{
    match read_check(word, machines, kinds) {
        Ok(samples) => Ok((samples, run_direct(machines, parents, feed, take))),
        Err(fault) => Err(fault),
    }
}
