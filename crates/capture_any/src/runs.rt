// Several runs at once.
ghost use Rattle.std.specs.Prelude.{◌≡◌, ◌≤◌, ◌<◌, ◌+◌, ◌^◌, ◌∷◌, ◌++◌, [], List, length, take};
ghost use Rattle.std.specs.Prelude.{true, false, get_or, replicate};
ghost use Rattle.la_base.specs.Runs.{samples_of};
ghost use Rattle.capture_raw.specs.Reader.{SameForm, raw_given, raw_open};
ghost use Rattle.capture_any.specs.Taking.{RawGave};
ghost use Rattle.la_base.specs.declared.samples.Run.{Run};

use capture_raw::RawReader;
use la_base::Run;
use std::marker::Model;

/// How many runs are given at once.
pub const MOST_RUNS: usize = 256;

/// At most `MOST_RUNS` runs, in their order: room that is used again and again. Contracts see the
/// list of runs.
#[derive(Drop)]
pub struct Runs {
    // the runs, and what doesn't count behind them
    room: [Run; MOST_RUNS],
    count: usize,
}

impl Model for Runs {
    ghost Value = { List Run };

    ghost view = { λ s. take s.count s.room };

    ghost invariant = { λ s. s.count ≤ 256 };
}

impl Runs {
    /// No runs.
    pub fn new() -> Runs
        ensures { result ≡ [] }
    {
        Runs {
            room: [Run { value: 0, len: 1 }; MOST_RUNS],
            count: 0,
        }
    }

    /// The runs.
    pub fn list(&self) -> &[Run]
        ensures { result.now ≡ self.now }
    {
        &self.room[..self.count]
    }

    /// Whether there is no room for another.
    pub fn is_full(&self) -> bool
        ensures room { result ≡ false → length self.now < 256 }
        ensures full { result ≡ true → 256 ≤ length self.now }
    {
        self.list().len() >= MOST_RUNS
    }

    /// Lets all of them go.
    pub fn clear(&mut self)
        ensures { self.new ≡ [] }
    {
        self.count = 0;
    }

    /// Appends a run.
    pub fn push(&mut self, run: Run)
        requires { length self.old < 256 }
        ensures { self.new ≡ self.old ++ run ∷ [] }
    {
        self.room[self.count] = run;
        self.count += 1;
    }

    // Lets go what is behind the first runs.
    fn keep(&mut self, count: usize)
        requires { count ≤ length self.old }
        ensures few { length self.old ≤ 256 }
        ensures kept { self.new ≡ take count self.old }
    {
        self.count = count;
    }

    /// Lets go what is behind the first `left` samples of the run at a place.
    pub fn cut(&mut self, place: usize, left: u64)
        requires { place < length self.old }
        ensures { (d : Run) → samples_of self.new
            ≡ samples_of (take place self.old) ++ replicate left (get_or self.old place d).value }
    {
        let value = self.list()[place].value;
        self.keep(place);
        if left > 0 {
            self.push(Run { value, len: left });
        }
    }

    /// Appends the runs that a raw reader has read already, as far as there is room.
    #[inline(never)]
    pub fn take_raw(&mut self, reader: &mut RawReader)
        ensures gave { (new : List Run) × (self.new ≡ self.old ++ new)
            × RawGave reader.old reader.new (samples_of new)
            × (raw_given reader.old + length (samples_of new) ≤ raw_given reader.new) }
        ensures form { SameForm reader.old reader.new }
        ensures is_open { raw_open reader.new ≡ raw_open reader.old }
        ensures few { raw_given reader.new ≤ 2 ^ 60 }
    {
        self.count += reader.held_runs(&mut self.room[self.count..]);
    }
}
