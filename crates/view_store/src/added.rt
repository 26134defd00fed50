// What is added to a listing.
use la_base::Note;

/// A note with the number of its instance, or the end.
#[derive(Clone, Copy)]
pub enum Added {
    Note((u32, Note)),
    End,
}
