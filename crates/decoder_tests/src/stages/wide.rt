// Runs of wide values and of every length, on three lines far apart, with a thread for each decoder:
// what each gives is what a run on one thread gives of it.
ghost use Rattle.std.specs.Prelude.{◌≡◌, ◌≤◌, ◌-◌, ◌^◌, drop, take, vec_len};

use super::bus::Marks;
use super::line::opened_line_on;
use dec_uart::Uart;
use decoder_core::{Driver, RunEnd};
use la_base::{Run, Word};
use stack_direct::run_direct;
use stack_threads::{InThreads, run_stages};
use stage_crew::PlainPacer;
use std::alloc::{AllocError, Global};
use std::sync::Wait;
use std::test::Fail;
use std::thread::Threads;
use tree_io::RunFeed;

// More marks than there are.
const ALL: usize = 100_000;

const MOST_CALLS: u64 = 1 << 60;

const AT_ONCE: usize = 5;

const LENGTHS: [u64; 4] = [1, (1 << 32) - 1, 1 << 32, 1 << 40];

const VALUES: [Word; 9] = [
    0,
    (1 << 16) - 1,
    1 << 16,
    1 << 127,
    (1 << 64) - 1,
    1 << 64,
    Word::MAX,
    (1 << 127) + (1 << 16),
    1,
];

// The lines that are read: one of each half, and the highest.
const LINES: [u32; 3] = [16, 64, 127];

/// Gives runs, a few at a time. It stands for no list: tests look at what is taken.
#[derive(Drop)]
struct Listed {
    all: Vec<Run>,
    from: usize,
    to: usize,
    given: u64,
    ended: bool,
    ghost within: { (from ≤ to) × (to ≤ vec_len all) },
    ghost few: { given ≤ 2 ^ 60 },
}

impl Listed {
    // Each value with each length.
    fn new(alloc: Global) -> Result<Listed, AllocError> {
        let mut all = Vec::new(alloc);
        for len in LENGTHS {
            for value in VALUES {
                all.push(Run {
                    value,
                    len: len.max(1),
                })?;
            }
        }
        Ok(Listed {
            all,
            from: 0,
            to: 0,
            given: 0,
            ended: false,
        })
    }
}

impl RunFeed for Listed {
    type Origin = ();

    ghost gave = { λ _ _. ⊥ };

    ghost given = { λ f. f.given };

    ghost held = { λ f. take (f.to - f.from) (drop f.from f.all.items) };

    ghost at_end = { λ f. f.ended };

    ghost origin = { λ _. tt };

    fn next_runs(&mut self) -> bool {
        if self.given >= MOST_CALLS || self.to >= self.all.len() {
            self.from = 0;
            self.to = 0;
            self.ended = true;
            return false;
        }
        self.given += 1;
        self.from = self.to;
        self.to = self.from + AT_ONCE.min(self.all.len() - self.from);
        self.ended = false;
        true
    }

    fn runs(&self) -> &[Run] {
        &self.all[self.from..self.to]
    }
}

// A decoder of each line.
fn opened_lines(alloc: Global) -> Result<Vec<Driver<Uart>>, Fail> {
    let mut machines = Vec::new(alloc);
    for line in LINES {
        machines.push(opened_line_on(line)?)?;
    }
    Ok(machines)
}

fn run_alone(alloc: Global) -> Result<Marks, Fail> {
    let mut machines = opened_lines(alloc)?;
    if machines.len() != 3 {
        return Err("three lines".into());
    }
    let mut feed = Listed::new(alloc)?;
    let mut take = Marks::new(alloc, ALL);
    match run_direct(&mut machines, &[None, None, None], &mut feed, &mut take) {
        RunEnd::Ended => Ok(take),
        RunEnd::Stopped => Err("stopped".into()),
    }
}

fn run_apart<R: Threads + Wait + Sync>(rt: &R, alloc: Global, slots: u32) -> Result<Marks, Fail> {
    let machines = opened_lines(alloc)?;
    if machines.len() != 3 {
        return Err("three lines".into());
    }
    let mut feed = Listed::new(alloc)?;
    let mut take = Marks::new(alloc, ALL);
    let way = InThreads {
        runtime: rt,
        alloc,
        slots: slots.clamp(1, 16384),
        pacer: &PlainPacer,
    };
    match run_stages(&way, machines, &[None, None, None], &mut feed, &mut take) {
        Ok(RunEnd::Ended) => Ok(take),
        Ok(RunEnd::Stopped) => Err("stopped".into()),
        Err(_) => Err("no memory".into()),
    }
}

#[test]
fn wide_values_and_long_runs_come_through(rt: HostRuntime) -> Result<(), Fail> {
    let alloc = rt.alloc();
    let alone = run_alone(alloc)?;
    for slots in [1u32, 3, 64] {
        let apart = run_apart(&rt, alloc, slots)?;
        for instance in 0..3u32 {
            let want = alone.of(alloc, instance)?;
            let found = apart.of(alloc, instance)?;
            assert!(rt; want.len() > 4);
            assert!(rt; found.as_slice() == want.as_slice(), "{slots} slots");
        }
    }
    Ok(())
}
