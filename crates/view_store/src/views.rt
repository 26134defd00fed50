// A shelf: its writer and its readers.
ghost use Rattle.std.specs.Prelude.{◌≡◌, ◌++◌, Some, fold, drop};
ghost use Rattle.left_right.specs.Sides.{view};
ghost use Rattle.view_store.specs.Blocks.{notes_held};
ghost use Rattle.view_store.specs.Histories.{head_of};
ghost use Rattle.view_store.specs.Stores.{IsTied, Owes, content_of, name_of, with_change};

use crate::block::Block;
use crate::front::Front;
use crate::history::Head;
use crate::rule::{StoreReader, StoreWriter};
use la_base::Note;
use std::alloc::Global;

mod ask;
mod make;
mod write;

pub use make::shelf;

/// What a reader is answered: the notes of a range with the numbers of their instances, how many
/// notes the listing had, and whether it was ended.
#[derive(Drop)]
pub struct Answer {
    pub notes: Vec<(u32, Note)>,
    pub seen: u64,
    pub ended: bool,
}

/// Adds to a listing and publishes what was added. It can't be dropped: `close` ends it.
pub struct ViewWriter {
    alloc: Global,
    writer: StoreWriter,
    head: Head,
    /// All that was added, published or not.
    front: Front,
    /// A block that is to be published next, if any.
    held: Option<Block>,
    /// The notes behind it.
    notes: Vec<(u32, Note)>,
    pub ghost headed: { head ≡ head_of front.seen.book },
    pub ghost named: { view writer.desk.place ≡ Some (name_of front.seen.book) },
    pub ghost same: { writer.desk.shown.value.front.seen.book ≡ front.seen.book },
    pub ghost tied: { IsTied (content_of writer.desk.shown.value) },
    pub ghost owed: { Owes
        ((fold with_change (content_of writer.desk.shown.value)
        (drop writer.behind writer.log.items)).notes ++ (notes_held held ++ notes.items))
        front.seen.log },
}

/// Asks for what is published.
#[derive(Drop)]
pub struct ViewReader {
    alloc: Global,
    reader: StoreReader,
    /// The longest listing that it saw or was told.
    front: Front,
    pub ghost named: { view reader.place ≡ Some (name_of front.seen.book) },
}

/// What a writer had published when it told this.
#[derive(Drop)]
pub struct Told {
    front: Front,
}
