// What looks on as notes are listed.
ghost use Rattle.std.specs.Prelude.{◌≡◌, [], ◌∷◌, List, OnErr, OnOk};
ghost use Rattle.note_order.specs.declared.entry.Entry.{Entry};
ghost use Rattle.note_lister.specs.Watching.{Sees, SeesNone};

use la_base::NoMemory;
use note_order::Entry;

/// Looks on as notes are listed: it is shown each note whose line was written, in their order.
///
/// One that keeps notes back, to hand them on many at once, needs no more than these two calls: it
/// knows itself how many it keeps, so it hands them on in `see` once there are enough; and `pause`
/// tells it that it may be long until the next note comes. It isn't called behind each mark, since
/// it would hand on single notes there.
pub trait Watch {
    /// What it was made over, as plain data.
    type Origin;

    /// It was shown these notes.
    ghost saw: { Self → List Entry → Type 0 };

    /// What it was made over. No call changes it.
    ghost origin: { Self → Self.Origin };

    /// Is shown the next note. Where there is no memory for it, it has seen what it had seen, and
    /// no more.
    fn see(&mut self, entry: &Entry) -> Result<(), NoMemory>
        ensures ok { OnOk result (Sees (saw self.old) (saw self.new) (entry.now ∷ [])) }
        ensures err { OnErr result (SeesNone (saw self.old) (saw self.new)) }
        ensures origin { origin self.new ≡ origin self.old };

    /// It may be long until the next note comes: hands on what it keeps back, where it keeps
    /// anything back. Want of memory is told at the next note.
    fn pause(&mut self)
        ensures saw { SeesNone (saw self.old) (saw self.new) }
        ensures origin { origin self.new ≡ origin self.old }
    {}
}

/// Nobody looks on: it sees nothing, and costs nothing.
#[derive(Clone, Copy, PartialEq, Eq)]
pub struct Unwatched;

impl Watch for Unwatched {
    ghost use Rattle.std.specs.Prelude.{IsOk};

    type Origin = ();

    ghost saw = { λ _ _. Unit {0} };

    ghost origin = { λ _. tt };

    /// Never fails.
    #[inline(always)]
    fn see(&mut self, _entry: &Entry) -> Result<(), NoMemory>
        ensures { IsOk result }
    {
        Ok(())
    }
}
