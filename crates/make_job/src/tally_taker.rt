// What takes the marks of a made capture, and counts the notes among them.
ghost use Rattle.std.specs.Prelude.{◌≡◌, ◌≢◌, [], true};
ghost use Rattle.make_job.specs.Tallies.{Counted, with_note};

use la_base::{Mark, Note};
use listing_out::Tally;
use tree_io::{MarkTake, Stopped};

/// Takes the marks of two instances, a bus and a serial line, and counts the notes of each. It
/// keeps none of them, and never stops.
#[derive(Drop)]
pub struct TallyTaker {
    pub bus: Tally,
    pub line: Tally,
}

// One more note that is counted. The count may wrap; of a made capture it doesn't.
fn with_note(tally: Tally, note: Note) -> Tally
    ensures { result ≡ with_note tally note }
{
    Tally {
        count: tally.count.wrapping_add(1),
        sum: tally.sum.wrapping_add(note.a) % (1 << 32),
    }
}

impl TallyTaker {
    /// It has taken no mark.
    pub fn new() -> TallyTaker
        ensures { Counted result (λ _. []) }
    {
        let none = Tally { count: 0, sum: 0 };
        TallyTaker {
            bus: none,
            line: none,
        }
    }

    // Counts a note of an instance.
    fn count(&mut self, instance: u32, note: Note)
        ensures bus { instance ≡ 0 → (self.new.bus ≡ with_note self.old.bus note)
            × (self.new.line ≡ self.old.line) }
        ensures line { instance ≢ 0 → (self.new.line ≡ with_note self.old.line note)
            × (self.new.bus ≡ self.old.bus) }
    {
        if instance == 0 {
            self.bus = with_note(self.bus, note);
        } else {
            self.line = with_note(self.line, note);
        }
    }
}

impl MarkTake for TallyTaker {
    type Origin = ();

    ghost instances = { λ _. 2 };

    ghost took = { λ taker marks. Counted taker marks };

    ghost stops = { λ _. 0 };

    // It goes on at every mark.
    ghost going = { λ _ still. still ≡ true };

    ghost origin = { λ _. tt };

    #[inline(always)]
    fn take(&mut self, instance: u32, mark: Mark) -> Result<(), Stopped> {
        match mark {
            Mark::Note(note) => self.count(instance, note),
            Mark::Piece(_) | Mark::Floor(_) | Mark::End => {}
        }
        Ok(())
    }
}
