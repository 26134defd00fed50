// What a tree of decoders reads from, and what takes its marks.
ghost use Rattle.std.specs.Prelude.{◌≡◌, ◌≢◌, ◌<◌, ◌≤◌, ◌^◌, ◌∷◌, [], List, ℕ, Bool, true, false};
ghost use Rattle.std.specs.Prelude.{OnErr};
ghost use Rattle.std.specs.Result.{is_ok};
ghost use Rattle.la_base.specs.declared.samples.Run.{Run};
ghost use Rattle.la_base.specs.declared.wires.Mark.{Mark};
ghost use Rattle.la_io.specs.Causes.{HasCause};
ghost use Rattle.tree_io.specs.Feeds.{Counts, GivesHeld, GivesRuns, TakesFront, TakesMark, TakesMarks};
ghost use Rattle.tree_io.specs.Feeds.{TellsMore, marks_of, real};

use la_base::{Mark, Out, Run};

/// Gives the runs that are to be decoded: at most 2^60 samples, so that every feed ends.
pub trait RunFeed {
    /// What it was made over, as plain data.
    type Origin;

    /// It has given these lists of runs so far, one for each call that had more to give.
    ghost gave: { Self → List (List Run) → Type 0 };

    /// A count that grows with each call that gives runs, as that of its samples; it has an end, so
    /// every feed ends. It is told also of a feed that stands for no runs.
    ghost given: { Self → ℕ };

    /// The runs that were given last.
    ghost held: { Self → List Run };

    /// The last call of `next_runs` answered that there are no more.
    ghost at_end: { Self → Bool };

    /// What it was made over. No call changes it.
    ghost origin: { Self → Self.Origin };

    /// Gives the next runs, as many as can be had at once, and answers whether there was more to
    /// give. Where there wasn't, the feed is at its end.
    fn next_runs(&mut self) -> bool
        ensures more { TellsMore result (at_end self.new) (held self.new) }
        ensures gives { GivesRuns result (gave self.old) (gave self.new) (held self.new) }
        ensures counts { Counts result (given self.old) (given self.new) }
        ensures origin { origin self.new ≡ origin self.old };

    /// Gives the next runs, as many as can be had without waiting for any, and answers whether there
    /// were some. Where there were none, nothing was given, and the runs that were given last are kept
    /// or let go. A feed that keeps nothing at hand gives none here.
    fn held_runs(&mut self) -> bool
        ensures gives { GivesHeld result (gave self.old) (gave self.new) (held self.old) (held self.new) }
        ensures grows { result ≡ true → given self.old < given self.new }
        ensures stays { given self.old ≤ given self.new }
        ensures within { result ≡ true → given self.new ≤ 2 ^ 60 }
        ensures more { result ≡ true → at_end self.new ≡ false }
        ensures none { result ≡ false → at_end self.new ≡ at_end self.old }
        ensures origin { origin self.new ≡ origin self.old }
    {
        false
    }

    /// The runs that the last call of `next_runs` or `held_runs` gave.
    fn runs(&self) -> &[Run]
        ensures { result.now ≡ held self.now };

    /// Whether a call of `next_runs` may have to wait for what it is to give, where nothing is at hand.
    fn may_wait(&self) -> bool {
        false
    }

    /// Whether it has to wait now, as far as that is known: what has come may not be enough. Asked only
    /// of a feed that may have to wait.
    fn waits_now(&self) -> bool {
        true
    }
}

/// The one that takes the marks wants no more of them: its count of stops rose. A mark that it was
/// handed in that call counts as taken.
#[derive(Clone, Copy, Debug, PartialEq, Eq)]
pub struct Stopped;

/// Takes the marks of each instance of a tree, by the instance's number from 0 on.
pub trait MarkTake {
    /// What it was made over, as plain data.
    type Origin;

    /// How many instances it takes marks of. No call changes it.
    ghost instances: { Self → ℕ };

    /// It has taken these marks of each instance.
    ghost took: { Self → (ℕ → List Mark) → Type 0 };

    /// How often it has stopped. It never falls.
    ghost stops: { Self → ℕ };

    /// With true: it has stopped in no call yet. With false: it stopped in the last call, and in none
    /// before. Of one that was called after a stop neither is known.
    ghost going: { Self → Bool → Type 0 };

    /// What it was made over. No call changes it.
    ghost origin: { Self → Self.Origin };

    /// Takes the next mark of an instance, also where it answers `Stopped`.
    fn take(&mut self, instance: u32, mark: Mark) -> Result<(), Stopped>
        requires { instance < instances self.old }
        ensures adds { TakesMark (took self.old) (took self.new) instance mark }
        ensures instances { instances self.new ≡ instances self.old }
        ensures cause { HasCause (stops self.old) (stops self.new) result }
        ensures going { going self.old true → going self.new (is_ok result) }
        ensures origin { origin self.new ≡ origin self.old };

    /// Takes an output of an instance as its next mark, where it is a note or a piece.
    fn take_out(&mut self, instance: u32, out: &Out) -> Result<(), Stopped>
        requires { instance < instances self.old }
        ensures adds { TakesMarks (took self.old) (took self.new) instance
            (marks_of (out.now ∷ [])) }
        ensures some { OnErr result (marks_of (out.now ∷ []) ≢ []) }
        ensures instances { instances self.new ≡ instances self.old }
        ensures cause { HasCause (stops self.old) (stops self.new) result }
        ensures going { going self.old true → going self.new (is_ok result) }
        ensures origin { origin self.new ≡ origin self.old }
    {
        match out {
            Out::Note(note) => self.take(instance, Mark::Note(*note)),
            Out::Piece(piece) => self.take(instance, Mark::Piece(*piece)),
            Out::Packet(_) => Ok(()),
        }
    }

    /// Takes a mark of an instance as its next, unless it is an end.
    fn take_real(&mut self, instance: u32, mark: Mark) -> Result<(), Stopped>
        requires { instance < instances self.old }
        ensures adds { TakesMarks (took self.old) (took self.new) instance (real (mark ∷ [])) }
        ensures some { OnErr result (real (mark ∷ []) ≢ []) }
        ensures instances { instances self.new ≡ instances self.old }
        ensures cause { HasCause (stops self.old) (stops self.new) result }
        ensures going { going self.old true → going self.new (is_ok result) }
        ensures origin { origin self.new ≡ origin self.old }
    {
        match mark {
            Mark::Note(note) => self.take(instance, Mark::Note(note)),
            Mark::Piece(piece) => self.take(instance, Mark::Piece(piece)),
            Mark::Floor(start) => self.take(instance, Mark::Floor(start)),
            Mark::End => Ok(()),
        }
    }

    /// Takes the notes and the pieces among these outputs of an instance as its next marks. Where it
    /// answers `Stopped`, it took them up to that at which it stopped, or further.
    fn take_outs(&mut self, instance: u32, outs: &[Out]) -> Result<(), Stopped>
        requires { instance < instances self.old }
        ensures adds { TakesFront (is_ok result) (took self.old) (took self.new) instance
            (marks_of outs.now) }
        ensures instances { instances self.new ≡ instances self.old }
        ensures cause { HasCause (stops self.old) (stops self.new) result }
        ensures going { going self.old true → going self.new (is_ok result) }
        ensures origin { origin self.new ≡ origin self.old }
    {
        for out in outs {
            match self.take_out(instance, out) {
                Ok(()) => {}
                Err(Stopped) => return Err(Stopped),
            }
        }
        Ok(())
    }

    /// Takes the next marks of an instance; an end among them isn't taken. Where it answers
    /// `Stopped`, it took them up to that at which it stopped, or further.
    fn take_marks(&mut self, instance: u32, marks: &[Mark]) -> Result<(), Stopped>
        requires { instance < instances self.old }
        ensures adds { TakesFront (is_ok result) (took self.old) (took self.new) instance
            (real marks.now) }
        ensures instances { instances self.new ≡ instances self.old }
        ensures cause { HasCause (stops self.old) (stops self.new) result }
        ensures going { going self.old true → going self.new (is_ok result) }
        ensures origin { origin self.new ≡ origin self.old }
    {
        for mark in marks {
            match self.take_real(instance, *mark) {
                Ok(()) => {}
                Err(Stopped) => return Err(Stopped),
            }
        }
        Ok(())
    }

    /// It may be long until the next mark comes: hands on what it keeps back, where it keeps
    /// anything back. `Stopped` comes where that failed.
    fn pause(&mut self) -> Result<(), Stopped>
        ensures took { (marks : ℕ → List Mark) → took self.old marks → took self.new marks }
        ensures instances { instances self.new ≡ instances self.old }
        ensures cause { HasCause (stops self.old) (stops self.new) result }
        ensures going { going self.old true → going self.new (is_ok result) }
        ensures origin { origin self.new ≡ origin self.old }
    {
        Ok(())
    }
}
