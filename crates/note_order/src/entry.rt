// A note and the instance that gave it.
use la_base::Note;

/// A note, and the number of the instance that gave it.
#[derive(Clone, Copy, PartialEq, Eq)]
pub struct Entry {
    pub instance: u32,
    pub note: Note,
}
