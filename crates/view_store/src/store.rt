// What readers take.
use crate::block::Block;
use crate::front::Front;
use crate::history::Beginning;
use la_base::Note;

pub mod steps;

/// The notes of a listing so far, block by block, and the history that says so.
#[derive(Drop)]
pub struct Store {
    pub blocks: Vec<Block>,
    pub front: Front,
}

/// What changes a store: notes are added; or the history that says what was added is kept.
#[derive(Drop)]
pub enum Change {
    Add(Block),
    Keep(Front),
}

/// What two copies of a store have in common. No value of it is made.
pub struct Content {
    pub notes: [(u32, Note); 0],
    pub seen: Beginning,
}
