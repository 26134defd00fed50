// The lister.
ghost use Rattle.std.specs.Prelude.{◌≡◌, IsSome, None, false, true};
ghost use Rattle.stack_words.specs.Stacks.{stack_meaning};

use crate::stop::ListStop;
use annot_merge::Merge;
use listing_out::NoteLine;
use stack_words::Stack;
use std::snapshot::Snapshot;

/// Takes the marks of the instances of a stack, and writes the line of each note of an instance
/// that is shown as soon as no later note can come before it, in the order of a listing; or, where
/// binary data is wanted, its bytes as they come. What looks on is shown each of these notes behind
/// its line, and nothing of binary data.
#[derive(Drop)]
pub struct Lister<'a, 'b, K, W> {
    pub(crate) stack: &'a Stack,
    /// The sink, to be taken back.
    pub sink: &'b mut K,
    /// What looks on, to be taken back.
    pub watch: W,
    pub(crate) merge: Merge,
    pub(crate) line: NoteLine,
    /// Why nothing more is written; none where there was no fault.
    pub cause: Option<ListStop>,
    pub(crate) stops: u64,
    // Each mark goes to the merge: notes are listed, and there was no fault.
    pub(crate) merges: bool,
    // What it was lent. Contracts alone read it.
    pub(crate) first: Snapshot<&'b mut K>,
    ghost quiet: { cause ≡ None → stops ≡ 0 },
    ghost going: { merges ≡ true → cause ≡ None },
    ghost notes: { merges ≡ true → (stack_meaning stack.now).binary ≡ None },
    ghost wanted: { merges ≡ false → cause ≡ None → IsSome (stack_meaning stack.now).binary },
}
