// A bus with two EEPROMs: its samples, and what takes the marks of its decoders.
ghost use Rattle.std.specs.Prelude.{◌≡◌, ◌≤◌, ◌^◌, []};

use decoder_set::AnyDecoder;
use kind_table::{Kind, MOST_OPTIONS, OptValues};
use la_base::{Mark, Rate, Run, Word};
use std::alloc::{AllocError, Global};
use std::test::Fail;
use tree_io::{MarkTake, RunFeed, Stopped};

const RATE: Rate = Rate {
    num: 1_000_000,
    den: 1,
};

const MOST_CALLS: u64 = 1 << 60;

// Starts, stops, and bits with their clock: bytes are written to one EEPROM and read from the
// other, and then from the first one.
const SCRIPT: &str = "\
S 10100000 0 00000110 0 00000001 0 00000010 0 00000011 0 0P 1S 10100011 0 01000001 0 01000010 1 \
1S 10100001 0 01000011 1 0P";

/// Gives samples as runs, three at a time. It stands for no list: tests look at what is taken.
#[derive(Drop)]
pub struct Samples {
    pub all: Vec<Word>,
    next: usize,
    pub given: u64,
    held: Vec<Run>,
    pub ended: bool,
    ghost few: { given ≤ 2 ^ 60 },
}

/// The samples of a script of a bus, line 0 SCL and line 1 SDA: 0 and 1 are a bit, for which SCL is low, then high. Behind a 1
/// or at the front, S is SDA falling while SCL stays high: a START. Behind a 0, P is SDA rising so: a STOP.
pub fn waves_of(alloc: Global, script: &str) -> Result<Vec<Word>, AllocError> {
    let mut all = Vec::new(alloc);
    for letter in script.bytes() {
        let (first, second) = match letter {
            b'0' => (0, 1),
            b'1' => (2, 3),
            b'S' => (3, 1),
            b'P' => (1, 3),
            _ => continue,
        };
        all.push(first)?;
        all.push(second)?;
    }
    Ok(all)
}

impl Samples {
    pub fn new(alloc: Global) -> Result<Samples, AllocError> {
        Ok(Samples {
            all: waves_of(alloc, SCRIPT)?,
            next: 0,
            given: 0,
            held: Vec::new(alloc),
            ended: false,
        })
    }

    /// Lets go what was given last.
    pub fn let_go(&mut self)
        ensures { self.new.held.items ≡ [] }
    {
        self.held.clear();
    }
}

impl RunFeed for Samples {
    type Origin = ();

    ghost gave = { λ _ _. ⊥ };

    ghost given = { λ f. f.given };

    ghost held = { λ f. f.held.items };

    ghost at_end = { λ f. f.ended };

    ghost origin = { λ _. tt };

    fn next_runs(&mut self) -> bool {
        self.held.clear();
        if self.given >= MOST_CALLS || self.next >= self.all.len() {
            self.ended = true;
            return false;
        }
        for _ in 0..3u32 {
            if self.next < self.all.len() {
                let value = self.all[self.next];
                if self.held.push(Run { value, len: 1 }).is_ok() {
                    self.next += 1;
                }
            }
        }
        self.given += 1;
        self.ended = false;
        true
    }

    fn runs(&self) -> &[Run] {
        self.held.as_slice()
    }
}

/// Takes so many marks. It stands for no lists: tests look at what it holds.
#[derive(Drop)]
pub struct Marks {
    pub taken: Vec<(u32, Mark)>,
    pub most: usize,
    pub stops: u64,
}

impl MarkTake for Marks {
    type Origin = ();

    ghost instances = { λ _. 3 };

    ghost took = { λ _ _. ⊥ };

    ghost stops = { λ m. m.stops };

    ghost going = { λ _ _. ⊥ };

    ghost origin = { λ _. tt };

    fn take(&mut self, instance: u32, mark: Mark) -> Result<(), Stopped> {
        if self.taken.len() < self.most && self.taken.push((instance, mark)).is_ok() {
            return Ok(());
        }
        self.stops = self.stops.saturating_add(1);
        Err(Stopped)
    }
}

impl Marks {
    pub fn new(alloc: Global, most: usize) -> Marks {
        Marks {
            taken: Vec::new(alloc),
            most,
            stops: 0,
        }
    }

    /// The notes, pieces and the end of an instance.
    pub fn of(&self, alloc: Global, instance: u32) -> Result<Vec<Mark>, AllocError> {
        let mut found = Vec::new(alloc);
        for (own, mark) in &self.taken {
            if *own == instance && !matches!(mark, Mark::Floor(_)) {
                found.push(*mark)?;
            }
        }
        Ok(found)
    }
}

/// A decoder of a kind with its first two options.
pub fn opened(kind: Kind, first: Option<u64>, second: Option<u64>) -> Result<AnyDecoder, Fail> {
    let mut given = [None; MOST_OPTIONS];
    given[0] = first;
    given[1] = second;
    match AnyDecoder::open(kind, OptValues { given }, RATE) {
        Ok(decoder) => Ok(decoder),
        Err(_) => Err("not opened".into()),
    }
}
