// How a store changes, and what is read of it.
ghost use Rattle.std.specs.Prelude.{◌≡◌, ◌++◌, IfOk, OnOk};
ghost use Rattle.std.specs.List.{filter};
ghost use Rattle.view_store.specs.Blocks.{notes_in, notes_of_block};
ghost use Rattle.view_store.specs.Listings.{is_between};
ghost use Rattle.view_store.specs.Stores.{content_of, with_change};

use super::{Change, Content, Store};
use crate::block::Block;
use la_base::{NoMemory, Note};
use left_right::Absorb;
use std::alloc::{AllocError, Global};

impl Absorb<Change> for Store {
    type State = Content;

    ghost state = { content_of };

    ghost applied = { with_change };

    fn absorb_first(&mut self, operation: &Change, _other: &Store) -> Result<(), AllocError> {
        match operation {
            Change::Add(block) => block.share(&mut self.blocks),
            Change::Keep(front) => {
                self.front = front.again();
                Ok(())
            }
        }
    }
}

// Adds a block, shared, where a note of it may start in a range.
fn share_within(
    block: &Block,
    start: u64,
    end: u64,
    blocks: &mut Vec<Block>,
) -> Result<(), NoMemory>
    ensures { OnOk result (filter (is_between start end) (notes_in blocks.new.items)
        ≡ filter (is_between start end) (notes_in blocks.old.items)
        ++ filter (is_between start end) (notes_of_block block.now)) }
{
    if !block.meets(start, end) {
        return Ok(());
    }
    match block.share(blocks) {
        Ok(()) => Ok(()),
        Err(AllocError) => Err(NoMemory),
    }
}

/// The blocks of which a note may start in a range, shared.
pub fn shared(alloc: Global, blocks: &[Block], start: u64, end: u64) -> Result<Vec<Block>, NoMemory>
    ensures { IfOk result (λ all. filter (is_between start end) (notes_in all.items)
        ≡ filter (is_between start end) (notes_in blocks.now)) }
{
    let mut all = Vec::new(alloc);
    for block in blocks {
        share_within(block, start, end, &mut all)?;
    }
    Ok(all)
}

/// The notes of blocks that start in a range.
pub fn between(
    alloc: Global,
    blocks: &[Block],
    start: u64,
    end: u64,
) -> Result<Vec<(u32, Note)>, NoMemory>
    ensures { IfOk result (λ notes. notes.items
        ≡ filter (is_between start end) (notes_in blocks.now)) }
{
    let mut found = Vec::new(alloc);
    for block in blocks {
        block.push_between(start, end, &mut found)?;
    }
    Ok(found)
}
