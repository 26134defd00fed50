// What a thread does that finds nothing to do.
use crate::status::WorkerStatus;
use crossbeam_utils::Backoff;
use std::cell::Cell;
use std::sync::Wait;
use std::thread::{Threads, available_parallelism};

// How many cores there are for these threads.
fn cores<R: Threads>(rt: &R) -> usize {
    match available_parallelism(rt) {
        Ok(cores) => cores.get(),
        Err(_) => 1,
    }
}

/// How often a thread spins before it sleeps, each time twice as long up to 64 turns. Nobody yields:
/// beside programs that keep all cores busy, who yields comes last, and who has slept comes first.
pub(crate) fn spins_for<R: Threads>(rt: &R, threads: usize) -> u32 {
    if threads / 2 > cores(rt) { 3 } else { 7 }
}

/// The idle policy of one thread. It spins at first; then it notifies those who may go on by what it
/// did, prepares its wait, looks once more, and sleeps until it is notified.
#[derive(Drop)]
pub(crate) struct IdlePolicy {
    backoff: Backoff,
    // how often it has spun since something moved
    spun: Cell<u32>,
    // the turns in which something moved since it notified others
    turns: Cell<u32>,
    // for whom it has prepared to wait; 0 for nobody
    awaited: Cell<u32>,
    // the number of that wait
    number: Cell<u32>,
}

impl IdlePolicy {
    pub(crate) fn new() -> IdlePolicy {
        IdlePolicy {
            backoff: Backoff::new(),
            spun: Cell::new(0),
            turns: Cell::new(0),
            awaited: Cell::new(0),
            number: Cell::new(0),
        }
    }

    /// Something moved: it starts again. Answers whether it is to notify others now.
    #[inline]
    pub(crate) fn moved(&self, status: &WorkerStatus) -> bool {
        self.backoff.reset();
        self.spun.set(0);
        if self.awaited.get() != 0 {
            self.awaited.set(0);
            status.slot.cancel();
        }
        let turns = self.turns.get().saturating_add(1);
        if turns >= status.turns {
            self.turns.set(0);
            return true;
        }
        self.turns.set(turns);
        false
    }

    /// Spins, where that wasn't done often enough. Answers whether it did.
    pub(crate) fn spin(&self, status: &WorkerStatus) -> bool {
        let spun = self.spun.get();
        if spun >= status.spins {
            return false;
        }
        self.spun.set(spun + 1);
        self.backoff.spin();
        true
    }

    /// Prepares a wait for these threads, where it hasn't. Answers whether it did: it has to look once
    /// more then.
    pub(crate) fn prepare(&self, status: &WorkerStatus, threads: u32) -> bool {
        if self.awaited.get() == threads {
            return false;
        }
        let number = self.number.get().wrapping_add(1);
        self.number.set(number);
        self.awaited.set(threads);
        status.slot.prepare(threads, number);
        true
    }

    /// Whether it has prepared a wait, and so owes no notification.
    pub(crate) fn is_waiting(&self) -> bool {
        self.awaited.get() != 0
    }

    /// Says that it has looked once more. Answers whether it is to park.
    pub(crate) fn commit(&self, status: &WorkerStatus) -> bool {
        if status.slot.commit(self.awaited.get(), self.number.get()) {
            return true;
        }
        self.awaited.set(0);
        false
    }

    /// Sleeps until it is notified.
    pub(crate) fn park<R: Wait>(&self, rt: &R, status: &WorkerStatus) {
        status.slot.park(rt, self.awaited.get());
        self.awaited.set(0);
    }
}
