// How the marks of all instances are gathered.
ghost use Rattle.std.specs.Prelude.{◌≡◌, ◌≤◌, ◌<◌, ℕ, Some, slice_get, true, vec_len};

use crate::MOST_STAGES;
use crate::counts::GatheredCounts;
use crate::marks::{ends, take_marks};
use la_base::Mark;
use stage_ring::Rx;
use tree_io::MarkTake;

const ROOM: usize = 64;

// How many rows are gathered before the links are looked at anew.
const ROWS: u32 = 64;

/// How far the marks were gathered: the instances of which the end was gathered, and whether no
/// more marks are wanted.
#[derive(Drop)]
pub(crate) struct Gatherer {
    pub(crate) over: [bool; MOST_STAGES],
    pub(crate) stopped: bool,
    // Where the last mark of each instance stands; behind all once its end was gathered.
    places: [u64; MOST_STAGES],
    room: [Mark; ROOM],
}

// Where the last of these marks stands, if it says so.
fn place_behind(marks: &[Mark], before: u64) -> u64 {
    match marks.last() {
        Some(Mark::Note(note)) => note.start,
        Some(Mark::Floor(start)) => *start,
        Some(Mark::End) => u64::MAX,
        Some(Mark::Piece(_)) => before,
        None => before,
    }
}

impl Gatherer {
    ghost use Rattle.std.specs.Prelude.{false, replicate};
    ghost use Rattle.stage_crew.specs.Gathering.{AreMarksOf, GathersFrom};

    pub(crate) fn new() -> Gatherer
        ensures over { result.over ≡ replicate 24 false }
        ensures going { result.stopped ≡ false }
    {
        Gatherer {
            over: [false; MOST_STAGES],
            stopped: false,
            places: [0; MOST_STAGES],
            room: [Mark::End; ROOM],
        }
    }

    // Gathers marks of one instance. Answers whether there were any.
    fn gather<G: MarkTake>(
        &mut self,
        take: &mut G,
        marks: &mut Vec<Rx<Mark>>,
        counts: &mut GatheredCounts,
        number: usize,
    ) -> bool
        requires within { number < vec_len marks.old }
        requires marks { AreMarksOf (G.instances take.old) marks.old }
        ensures { GathersFrom G.MarkTake take.old take.new self.old self.new marks.old marks.new }
    {
        if self.over[number] {
            return false;
        }
        let count = marks[number].take_some(&mut self.room);
        let came = &self.room[..count];
        let stopped = take_marks(take, number as u32, came, self.stopped);
        let over = ends(came);
        self.stopped = stopped;
        self.over[number] = over;
        self.places[number] = place_behind(came, self.places[number]);
        counts.add(number, count);
        count > 0
    }

    // The instance that is the furthest behind the others.
    fn hindmost(&self, count: usize) -> usize
        requires { (0 < count) × (count ≤ 24) }
        ensures { result < count }
    {
        let mut found = 0;
        for place in 1..count {
            if self.places[place] < self.places[found] {
                found = place;
            }
        }
        found
    }

    // Gathers marks of the instance that is the furthest behind, again and again, as long as there
    // are any. So few notes wait for those of others. Answers whether there were any.
    fn gather_hindmost<G: MarkTake>(
        &mut self,
        take: &mut G,
        marks: &mut Vec<Rx<Mark>>,
        counts: &mut GatheredCounts,
    ) -> bool
        requires marks { AreMarksOf (G.instances take.old) marks.old }
        ensures { GathersFrom G.MarkTake take.old take.new self.old self.new marks.old marks.new }
    {
        let count = marks.len();
        if count == 0 {
            return false;
        }
        let mut moved = false;
        for _ in 0..ROWS {
            let number = self.hindmost(count);
            if !self.gather(take, marks, counts, number) {
                return moved;
            }
            moved = true;
        }
        moved
    }

    // Gathers marks of all instances. Answers whether there were any.
    fn gather_each<G: MarkTake>(
        &mut self,
        take: &mut G,
        marks: &mut Vec<Rx<Mark>>,
        counts: &mut GatheredCounts,
    ) -> bool
        requires marks { AreMarksOf (G.instances take.old) marks.old }
        ensures { GathersFrom G.MarkTake take.old take.new self.old self.new marks.old marks.new }
    {
        let mut moved = false;
        for number in 0..marks.len() {
            if self.gather(take, marks, counts, number) {
                moved = true;
            }
        }
        moved
    }

    /// Gathers marks: of the instance that is the furthest behind, as long as it has any, and else
    /// of all. Answers whether there were any. Once it was stopped, they are gathered and let go.
    /// `counts` is told how many there were.
    pub(crate) fn gather_all<G: MarkTake>(
        &mut self,
        take: &mut G,
        marks: &mut Vec<Rx<Mark>>,
        counts: &mut GatheredCounts,
    ) -> bool
        requires marks { AreMarksOf (G.instances take.old) marks.old }
        ensures { GathersFrom G.MarkTake take.old take.new self.old self.new marks.old marks.new }
    {
        if self.gather_hindmost(take, marks, counts) {
            return true;
        }
        self.gather_each(take, marks, counts)
    }

    /// Whether the end of each instance before `count` was gathered.
    pub(crate) fn all_over(&self, count: usize) -> bool
        requires { count ≤ 24 }
        ensures { result ≡ true → (i : ℕ) → i < count → slice_get self.now.over i ≡ Some true }
    {
        for place in 0..count {
            if !self.over[place] {
                return false;
            }
        }
        true
    }
}
