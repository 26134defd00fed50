// What looks on, and counts the notes.
ghost use Rattle.std.specs.Prelude.{◌≡◌, [], length};

use la_base::NoMemory;
use note_lister::Watch;
use note_order::Entry;

/// Counts the notes that it is shown.
#[derive(Clone, Copy, PartialEq, Eq)]
pub(crate) struct NoteCount {
    count: u64,
}

impl NoteCount {
    /// It was shown nothing.
    pub(crate) fn new() -> NoteCount
        ensures { result.count ≡ 0 }
    {
        NoteCount { count: 0 }
    }

    /// How many notes it was shown.
    pub(crate) fn count(&self) -> u64
        ensures { result ≡ self.now.count }
    {
        self.count
    }
}

impl Watch for NoteCount {
    type Origin = ();

    ghost saw = { λ watch entries. watch.count ≡ length entries };

    ghost origin = { λ _. tt };

    /// Fails where the count is the largest of its type.
    fn see(&mut self, _entry: &Entry) -> Result<(), NoMemory> {
        match self.count.checked_add(1) {
            Some(count) => {
                self.count = count;
                Ok(())
            }
            None => Err(NoMemory),
        }
    }
}
