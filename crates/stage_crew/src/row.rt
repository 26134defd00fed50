// A short row of half runs.
ghost use Rattle.std.specs.Prelude.{◌≡◌, ◌≤◌, ◌<◌, ◌++◌, ◌∷◌, [], List, length, map, take};
ghost use Rattle.stage_run.specs.declared.input.HalfRun.{HalfRun as HalfRunIs};
ghost use Rattle.stage_run.specs.Inputs.{half_run_of, upper_of};
ghost use Rattle.std.specs.List.{All};

use la_base::{Run, high_half};
use stage_run::HalfRun;
use std::marker::Model;

const ROOM: usize = 128;

/// What is to be sent to each root next. It takes no memory.
#[derive(Drop)]
pub(crate) struct SendRow {
    room: [HalfRun; ROOM],
    count: usize,
}

impl Model for SendRow {
    ghost Value = { List HalfRunIs };

    ghost view = { λ row. take row.count row.room };

    ghost invariant = { λ row. row.count ≤ 128 };
}

impl SendRow {
    pub(crate) fn new() -> SendRow
        ensures { result ≡ [] }
    {
        SendRow {
            room: [HalfRun::telling(0); ROOM],
            count: 0,
        }
    }

    pub(crate) fn push(&mut self, half_run: HalfRun)
        requires { length self.old < 128 }
        ensures { self.new ≡ self.old ++ half_run ∷ [] }
    {
        self.room[self.count] = half_run;
        self.count += 1;
    }

    pub(crate) fn list(&self) -> &[HalfRun]
        ensures { result.now ≡ self.now }
    {
        &self.room[..self.count]
    }

    pub(crate) fn len(&self) -> usize
        ensures { result ≡ length self.now }
    {
        self.list().len()
    }

    pub(crate) fn clear(&mut self)
        ensures { self.new ≡ [] }
    {
        self.count = 0;
    }

    /// Puts in the half runs of the first of these runs, as many as there is room for and have such
    /// an upper half of their lines, but at most so many; and answers how many.
    pub(crate) fn fill(&mut self, upper: u64, runs: &[Run], most: usize) -> usize
        requires { self.old ≡ [] }
        ensures within { result ≤ length runs.now }
        ensures row { self.new ≡ map half_run_of (take result runs.now) }
        ensures upper { All (λ run. upper_of run ≡ upper) (take result runs.now) }
    {
        self.count = first_half_runs(&mut self.room, upper, runs, most);
        self.count
    }
}

// The half runs of the first of these runs, as many as there is room for and have such an upper half
// of their lines, but at most so many, at the start of room for them; the answer is how many.
fn first_half_runs(room: &mut [HalfRun; ROOM], upper: u64, runs: &[Run], most: usize) -> usize
    ensures within { (result ≤ length runs.now) × (result ≤ 128) }
    ensures len { length room.new ≡ 128 }
    ensures row { take result room.new ≡ map half_run_of (take result runs.now) }
    ensures upper { All (λ run. upper_of run ≡ upper) (take result runs.now) }
{
    let count = runs.len().min(ROOM).min(most);
    for place in 0..count {
        let run = runs[place];
        if high_half(run.value) != upper {
            return place;
        }
        room[place] = HalfRun::of(run);
    }
    count
}
