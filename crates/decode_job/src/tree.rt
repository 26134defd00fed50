// A tree of decoders, and what a part of a capture begins with.
use stack_words::Stack;

/// The machines of a stack's instances, on their places: a machine with no parent reads the samples,
/// each other one the packets of its parent.
#[derive(Drop)]
pub struct Tree<'a, M> {
    pub stack: &'a Stack,
    pub machines: Vec<M>,
    pub parents: &'a [Option<u32>],
}

/// What a part is decoded by, beside its machines: their stack and places, the numbers of their
/// kinds in a checkpoint, and how many samples they have consumed.
#[derive(Drop)]
pub struct PartStart<'a> {
    pub stack: &'a Stack,
    pub parents: &'a [Option<u32>],
    pub kinds: &'a [u8],
    pub earlier: u64,
}
