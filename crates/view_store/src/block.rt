// Notes in a row, which never change.
ghost use Rattle.std.specs.Prelude.{◌≡◌, ◌++◌, [], false, true, max, IfErr, IfOk, OnErr, OnOk};
ghost use Rattle.std.specs.Arc.{arc_value};
ghost use Rattle.std.specs.List.{filter, list_all};
ghost use Rattle.view_store.specs.Listings.{is_between};

use la_base::{NoMemory, Note};
use std::alloc::{AllocError, Global};
use std::sync::Arc;

/// Notes in a row, which both copies of a store share with whoever looks at it; and the least and
/// the greatest place at which one of them starts.
#[derive(Drop)]
pub struct Block {
    pub notes: Arc<Vec<(u32, Note)>>,
    pub first: u64,
    pub last: u64,
    pub ghost within: { list_all (is_between first last) (arc_value notes).items ≡ true },
}

// The greater of two places.
fn greater(one: u64, other: u64) -> u64
    ensures { result ≡ max one other }
{
    if one < other { other } else { one }
}

// The least and the greatest place at which a note starts.
fn bounds(notes: &[(u32, Note)]) -> (u64, u64)
    ensures { list_all (is_between result.0 result.1) notes.now ≡ true }
{
    let mut first = u64::MAX;
    let mut last = 0;
    for note in notes {
        first = first.min(note.1.start);
        last = greater(last, note.1.start);
    }
    (first, last)
}

impl Block {
    ghost use Rattle.view_store.specs.Blocks.{notes_in, notes_of_block};

    /// A block of these notes. Where there is no memory, they are handed back.
    pub fn new(alloc: Global, notes: Vec<(u32, Note)>) -> Result<Block, Vec<(u32, Note)>>
        ensures ok { IfOk result (λ block. notes_of_block block ≡ notes.items) }
        ensures err { IfErr result (λ back. back ≡ notes) }
    {
        let (first, last) = bounds(&notes);
        match Arc::new(alloc, notes) {
            Ok(notes) => Ok(Block { notes, first, last }),
            Err(failed) => Err(failed.value),
        }
    }

    // The same block, shared.
    fn again(&self) -> Result<Block, AllocError>
        ensures { IfOk result (λ block. notes_of_block block ≡ notes_of_block self.now) }
    {
        match Arc::try_clone(&self.notes) {
            Ok(notes) => Ok(Block {
                notes,
                first: self.first,
                last: self.last,
            }),
            Err(AllocError) => Err(AllocError),
        }
    }

    /// Adds it, shared, behind blocks.
    pub fn share(&self, blocks: &mut Vec<Block>) -> Result<(), AllocError>
        ensures ok { OnOk result (notes_in blocks.new.items
            ≡ notes_in blocks.old.items ++ notes_of_block self.now) }
        ensures err { OnErr result (notes_in blocks.new.items ≡ notes_in blocks.old.items) }
    {
        match self.again() {
            Ok(shared) => match blocks.push(shared) {
                Ok(()) => Ok(()),
                Err(_) => Err(AllocError),
            },
            Err(AllocError) => Err(AllocError),
        }
    }

    /// Whether a note of it may start in a range, both ends counted.
    pub fn meets(&self, start: u64, end: u64) -> bool
        ensures { result ≡ false
            → filter (is_between start end) (notes_of_block self.now) ≡ [] }
    {
        if self.last < start {
            return false;
        }
        self.first <= end
    }

    /// Appends the notes that start in a range.
    pub fn push_between(
        &self,
        start: u64,
        end: u64,
        into: &mut Vec<(u32, Note)>,
    ) -> Result<(), NoMemory>
        ensures { OnOk result (into.new.items
            ≡ into.old.items ++ filter (is_between start end) (notes_of_block self.now)) }
    {
        push_between(self.notes.as_slice(), start, end, into)
    }
}

// Appends those of some notes that start in a range.
fn push_between(
    notes: &[(u32, Note)],
    start: u64,
    end: u64,
    into: &mut Vec<(u32, Note)>,
) -> Result<(), NoMemory>
    ensures { OnOk result (into.new.items
        ≡ into.old.items ++ filter (is_between start end) notes.now) }
{
    for note in notes {
        if is_between(note, start, end) {
            into.push(*note)?;
        }
    }
    Ok(())
}

// Whether a note starts in a range.
fn is_between(note: &(u32, Note), start: u64, end: u64) -> bool
    ensures { result ≡ is_between start end note.now }
{
    start <= note.1.start && note.1.start <= end
}
