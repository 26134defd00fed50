// Pauses of a feed that has to wait, over a bus with two EEPROMs: with a thread for each decoder, and on
// one thread.
ghost use Rattle.std.specs.Prelude.{◌≡◌, ◌≤◌, ◌^◌};

use crate::stages::bus::{Samples, opened};
use decoder_core::RunEnd;
use kind_table::Kind;
use la_base::{Mark, Run};
use stack_direct::run_direct;
use stack_threads::{InThreads, run_stages};
use stage_crew::PlainPacer;
use std::alloc::{AllocError, Global};
use std::sync::Wait;
use std::sync::atomic::{AtomicU64, Ordering};
use std::test::Fail;
use std::thread::Threads;
use tree_io::{MarkTake, RunFeed, Stopped};

// More lists than there are.
const MOST_LISTS: u64 = 1 << 40;

// More pauses than there are.
const ALL: usize = 100_000;

// Has to wait for samples, each time for so many lists: the others are at hand then.
#[derive(Drop)]
struct Chunks {
    inner: Samples,
    given: u64,
    lists: usize,
    at_hand: usize,
    ended: bool,
    waits: usize,
    ghost few: { given ≤ 2 ^ 60 },
}

impl Chunks {
    fn new(alloc: Global, lists: usize) -> Result<Chunks, AllocError> {
        let inner = Samples::new(alloc)?;
        Ok(Chunks {
            inner,
            given: 0,
            lists,
            at_hand: 0,
            ended: false,
            waits: 0,
        })
    }
}

impl RunFeed for Chunks {
    type Origin = ();

    ghost gave = { λ _ _. ⊥ };

    ghost given = { λ f. f.given };

    ghost held = { λ f. f.inner.held.items };

    ghost at_end = { λ f. f.ended };

    ghost origin = { λ _. tt };

    fn next_runs(&mut self) -> bool {
        self.waits = self.waits.saturating_add(1);
        self.at_hand = self.lists.saturating_sub(1);
        if self.given >= MOST_LISTS {
            self.inner.let_go();
            self.ended = true;
            return false;
        }
        if !self.inner.next_runs() {
            self.ended = true;
            return false;
        }
        self.given += 1;
        self.ended = false;
        true
    }

    fn held_runs(&mut self) -> bool {
        if self.at_hand == 0 || self.given >= MOST_LISTS {
            return false;
        }
        self.at_hand -= 1;
        if !self.inner.next_runs() {
            return false;
        }
        self.given += 1;
        self.ended = false;
        true
    }

    fn runs(&self) -> &[Run] {
        self.inner.runs()
    }

    fn may_wait(&self) -> bool {
        true
    }
}

// Counts the marks, and how many of them had come at each pause; it stops at the pause after so many.
#[derive(Drop)]
struct Pauses {
    marks: usize,
    at: Vec<usize>,
    most: usize,
    stops: u64,
}

impl MarkTake for Pauses {
    type Origin = ();

    ghost instances = { λ _. 3 };

    ghost took = { λ _ _. ⊥ };

    ghost stops = { λ m. m.stops };

    ghost going = { λ _ _. ⊥ };

    ghost origin = { λ _. tt };

    fn take(&mut self, _instance: u32, mark: Mark) -> Result<(), Stopped> {
        if !matches!(mark, Mark::Floor(_)) {
            self.marks = self.marks.saturating_add(1);
        }
        Ok(())
    }

    fn pause(&mut self) -> Result<(), Stopped> {
        if self.at.len() < self.most && self.at.push(self.marks).is_ok() {
            return Ok(());
        }
        self.stops = self.stops.saturating_add(1);
        Err(Stopped)
    }
}

impl Pauses {
    fn new(alloc: Global, most: usize) -> Pauses {
        Pauses {
            marks: 0,
            at: Vec::new(alloc),
            most,
            stops: 0,
        }
    }
}

// A run that stops at the pause after so many.
fn run<R: Threads + Wait + Sync>(
    rt: &R,
    alloc: Global,
    threads: bool,
    lists: usize,
    most: usize,
) -> Result<(RunEnd, Chunks, Pauses), Fail> {
    let mut machines = Vec::new(alloc);
    machines.push(opened(Kind::I2c, Some(0), Some(1))?)?;
    machines.push(opened(Kind::Eeprom24, None, None)?)?;
    machines.push(opened(Kind::Eeprom24, Some(1), None)?)?;
    let parents = [None, Some(0), Some(0)];
    let mut feed = Chunks::new(alloc, lists)?;
    let mut take = Pauses::new(alloc, most);
    if !threads {
        let end = run_direct(&mut machines, &parents, &mut feed, &mut take);
        return Ok((end, feed, take));
    }
    let way = InThreads {
        runtime: rt,
        alloc,
        slots: 16,
        pacer: &PlainPacer,
    };
    match run_stages(&way, machines, &parents, &mut feed, &mut take) {
        Ok(end) => Ok((end, feed, take)),
        Err(_) => Err("no memory".into()),
    }
}

// Before each call that has to wait there is one pause, and by then all marks have come that one thread
// makes of what was given.
#[test]
fn all_marks_have_come_at_a_pause(rt: HostRuntime) -> Result<(), Fail> {
    let alloc = rt.alloc();
    for lists in [1usize, 3, 50, 1000] {
        let (end, feed, alone) = run(&rt, alloc, false, lists, ALL)?;
        assert!(rt; end == RunEnd::Ended && feed.waits == alone.at.len());
        let (end, feed, found) = run(&rt, alloc, true, lists, ALL)?;
        assert!(rt; end == RunEnd::Ended && feed.waits == found.at.len());
        assert!(rt; found.at.as_slice() == alone.at.as_slice(), "{lists} lists");
        assert!(rt; found.marks == alone.marks && found.stops == 0);
    }
    Ok(())
}

// A stop in a pause ends the run, and the feed isn't asked for more.
#[test]
fn a_stop_in_a_pause_ends_a_run(rt: HostRuntime) -> Result<(), Fail> {
    let alloc = rt.alloc();
    for threads in [false, true] {
        for most in [0usize, 1, 4] {
            let (end, feed, take) = run(&rt, alloc, threads, 7, most)?;
            assert!(rt; end == RunEnd::Stopped && take.stops == 1, "{most} pauses");
            assert!(rt; feed.waits == most && !feed.ended, "{most} pauses");
        }
    }
    Ok(())
}

// Something has come for each of its calls, but not enough: each waits until what takes the marks was
// told of a pause.
#[derive(Drop)]
struct Late<'a> {
    inner: Samples,
    pauses: &'a AtomicU64,
    waits: usize,
    in_vain: bool,
}

// Waits until there were so many pauses. Answers whether they came. A call waits for as many as there were
// calls, since its own may come before it looks at their count.
fn waits_for(pauses: &AtomicU64, count: usize) -> bool {
    for _ in 0..1_000_000_000u32 {
        if pauses.load(Ordering::SeqCst) >= count as u64 {
            return true;
        }
        std::hint::spin_loop();
    }
    false
}

impl RunFeed for Late<'_> {
    type Origin = ();

    ghost gave = { λ _ _. ⊥ };

    ghost given = { λ f. f.inner.given };

    ghost held = { λ f. f.inner.held.items };

    ghost at_end = { λ f. f.inner.ended };

    ghost origin = { λ _. tt };

    fn next_runs(&mut self) -> bool {
        self.waits = self.waits.saturating_add(1);
        if !waits_for(self.pauses, self.waits) {
            self.in_vain = true;
        }
        self.inner.next_runs()
    }

    fn runs(&self) -> &[Run] {
        self.inner.runs()
    }

    fn may_wait(&self) -> bool {
        true
    }

    fn waits_now(&self) -> bool {
        false
    }
}

// Counts its pauses for the feed, too.
#[derive(Drop)]
struct Counted<'a> {
    inner: Pauses,
    pauses: &'a AtomicU64,
}

impl MarkTake for Counted<'_> {
    type Origin = ();

    ghost instances = { λ _. 3 };

    ghost took = { λ _ _. ⊥ };

    ghost stops = { λ m. m.inner.stops };

    ghost going = { λ _ _. ⊥ };

    ghost origin = { λ _. tt };

    fn take(&mut self, instance: u32, mark: Mark) -> Result<(), Stopped> {
        self.inner.take(instance, mark)
    }

    fn pause(&mut self) -> Result<(), Stopped> {
        let paused = self.inner.pause();
        let _ = self.pauses.fetch_add(1, Ordering::SeqCst);
        paused
    }
}

// While a call waits for which something had come, there is a pause too, with all marks.
#[test]
fn all_marks_have_come_while_a_call_waits(rt: HostRuntime) -> Result<(), Fail> {
    let alloc = rt.alloc();
    let (_, _, alone) = run(&rt, alloc, false, 1, ALL)?;
    let pauses = AtomicU64::new(0);
    let mut feed = Late {
        inner: Samples::new(alloc)?,
        pauses: &pauses,
        waits: 0,
        in_vain: false,
    };
    let mut take = Counted {
        inner: Pauses::new(alloc, ALL),
        pauses: &pauses,
    };
    let mut machines = Vec::new(alloc);
    machines.push(opened(Kind::I2c, Some(0), Some(1))?)?;
    machines.push(opened(Kind::Eeprom24, None, None)?)?;
    machines.push(opened(Kind::Eeprom24, Some(1), None)?)?;
    let way = InThreads {
        runtime: &rt,
        alloc,
        slots: 16,
        pacer: &PlainPacer,
    };
    match run_stages(
        &way,
        machines,
        &[None, Some(0), Some(0)],
        &mut feed,
        &mut take,
    ) {
        Ok(end) => assert!(rt; end == RunEnd::Ended),
        Err(_) => return Err("no memory".into()),
    }
    assert!(rt; !feed.in_vain && feed.waits == take.inner.at.len());
    assert!(rt; take.inner.at.as_slice() == alone.at.as_slice());
    Ok(())
}
