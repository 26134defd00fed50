// What takes turns.
use stage_run::{Peer, Peers, Turn};

/// Something that is run turn by turn until it is over.
pub trait Turns {
    ghost use Rattle.std.specs.Prelude.{◌≡◌, ◌≤◌, Bool, false};
    ghost use Rattle.stage_crew.specs.Ending.{tells_end};

    /// How one may go on from another: what a turn keeps.
    ghost goes_on: { Self → Self → Type 0 };

    /// Whether nothing is left to do.
    ghost over: { Self → Bool };

    /// Whether nothing is left to do.
    fn is_over(&self) -> bool
        ensures { result ≡ over self.now };

    /// Takes a turn: at most `budget` acts. It answers `Ended` exactly where nothing is left to do.
    fn turn(&mut self, budget: u32) -> Turn
        requires some { 1 ≤ budget }
        requires going { over self.old ≡ false }
        ensures goes { goes_on self.old self.new }
        ensures over { over self.new ≡ tells_end result };

    /// To whom it gave, or from whom it took, since this was asked last. Who is asked for it and isn't
    /// notified may sleep on.
    fn touched(&self) -> Peers;

    /// For whom it waits, where a turn gave and took nothing: nobody else wakes it.
    fn waits_for(&self) -> Peer;

    /// *Still*: what does nothing goes on.
    ghost still: { (one : Self) → goes_on one one };

    /// *On*: what goes on from what goes on goes on.
    ghost on: { (one two three : Self) → goes_on one two → goes_on two three → goes_on one three };
}

/// What does nothing goes on, and so does what goes on from what goes on. (A law; nothing is done.)
pub(crate) fn turns_go_on<S: Turns>()
    ensures still { (one : S) → S.goes_on one one }
    ensures on { (one two three : S) → S.goes_on one two → S.goes_on two three
        → S.goes_on one three }
{}
