// A bus with two EEPROMs, with a thread for each decoder: what each instance gives is what a run on
// one thread gives of it.
ghost use Rattle.std.specs.Prelude.{◌≡◌, ◌≢◌, ◌≤◌};

use super::bus::{Marks, Samples, opened};
use decoder_core::RunEnd;
use kind_table::Kind;
use la_base::Mark;
use stack_direct::run_direct;
use stack_threads::{InThreads, run_stages};
use stage_crew::{Pacer, PlainPacer};
use std::alloc::Global;
use std::sync::Wait;
use std::sync::atomic::{AtomicBool, Ordering};
use std::test::Fail;
use std::thread::Threads;

// More marks than there are.
const ALL: usize = 100_000;

fn run_alone(alloc: Global) -> Result<Marks, Fail> {
    let mut machines = Vec::new(alloc);
    machines.push(opened(Kind::I2c, Some(0), Some(1))?)?;
    machines.push(opened(Kind::Eeprom24, None, None)?)?;
    machines.push(opened(Kind::Eeprom24, Some(1), None)?)?;
    let parents = [None, Some(0), Some(0)];
    let mut feed = Samples::new(alloc)?;
    let mut take = Marks::new(alloc, ALL);
    match run_direct(&mut machines, &parents, &mut feed, &mut take) {
        RunEnd::Ended => Ok(take),
        RunEnd::Stopped => Err("stopped".into()),
    }
}

// Runs it until so many marks were taken.
fn run_until<R: Threads + Wait + Sync, P: Pacer + Sync>(
    rt: &R,
    alloc: Global,
    slots: u32,
    most: usize,
    pacer: &P,
) -> Result<(RunEnd, Samples, Marks), Fail> {
    let mut machines = Vec::new(alloc);
    machines.push(opened(Kind::I2c, Some(0), Some(1))?)?;
    machines.push(opened(Kind::Eeprom24, None, None)?)?;
    machines.push(opened(Kind::Eeprom24, Some(1), None)?)?;
    let parents = [None, Some(0), Some(0)];
    let mut feed = Samples::new(alloc)?;
    let mut take = Marks::new(alloc, most);
    let slots = slots.clamp(1, 16384);
    let way = InThreads {
        runtime: rt,
        alloc,
        slots,
        pacer,
    };
    match run_stages(&way, machines, &parents, &mut feed, &mut take) {
        Ok(end) => Ok((end, feed, take)),
        Err(_) => Err("no memory".into()),
    }
}

// One act a turn, or two, by the turn.
struct Small;

impl Pacer for Small {
    fn turn(&self, _stage: u32, turn: u64) -> u32 {
        if turn % 2 == 0 { 1 } else { 2 }
    }
}

fn gives_the_same<R: Threads + Wait + Sync, P: Pacer + Sync>(
    rt: &R,
    alloc: Global,
    slots: u32,
    pacer: &P,
) -> Result<bool, Fail> {
    let alone = run_alone(alloc)?;
    let (end, feed, take) = run_until(rt, alloc, slots, ALL, pacer)?;
    for instance in 0..3u32 {
        let want = alone.of(alloc, instance)?;
        let found = take.of(alloc, instance)?;
        if want.len() < 4 || found.as_slice() != want.as_slice() {
            return Ok(false);
        }
    }
    Ok(end == RunEnd::Ended && feed.ended && take.stops == 0)
}

#[test]
fn threads_give_what_one_thread_gives(rt: HostRuntime) -> Result<(), Fail> {
    let alloc = rt.alloc();
    for slots in [1u32, 3, 64, 16_384] {
        assert!(rt;
            gives_the_same(&rt, alloc, slots, &PlainPacer)?,
            "{slots} slots"
        );
        assert!(rt;
            gives_the_same(&rt, alloc, slots, &Small)?,
            "{slots} slots, few acts"
        );
    }
    Ok(())
}

// On a bus that rests nothing is held back: once no phase is open, the floor of each device is that
// of the bus, which is the number of samples.
#[test]
fn devices_with_threads_hold_nothing_back_on_a_bus_that_rests(rt: HostRuntime) -> Result<(), Fail> {
    let alloc = rt.alloc();
    for slots in [1u32, 64] {
        let (end, feed, take) = run_until(&rt, alloc, slots, ALL, &PlainPacer)?;
        assert!(rt; end == RunEnd::Ended);
        let count = feed.all.len() as u64;
        for instance in 0..3u32 {
            let mut last = 0;
            for (own, mark) in &take.taken {
                if *own != instance {
                    continue;
                }
                if let Mark::Floor(floor) = mark {
                    last = *floor;
                }
            }
            assert!(rt; last == count, "{slots} slots, {instance}: {last}");
        }
    }
    Ok(())
}

// Of each instance a front of its marks, and none behind the one at which it stopped.
#[test]
fn nothing_is_taken_behind_a_stop(rt: HostRuntime) -> Result<(), Fail> {
    let alloc = rt.alloc();
    let alone = run_alone(alloc)?;
    for most in [0usize, 1, 7, 40] {
        let (end, _, take) = run_until(&rt, alloc, 4, most, &PlainPacer)?;
        assert!(rt; end == RunEnd::Stopped && take.stops == 1 && take.taken.len() == most);
        for instance in 0..3u32 {
            let whole = alone.of(alloc, instance)?;
            let found = take.of(alloc, instance)?;
            assert!(rt;
                whole.as_slice().starts_with(found.as_slice()),
                "{most} marks"
            );
        }
    }
    Ok(())
}

// Lets no stage of three go on before the others have begun.
#[derive(Drop)]
struct Gate {
    begun: [AtomicBool; 3],
    waited_out: AtomicBool,
}

impl Gate {
    fn all_begun(&self) -> bool {
        self.begun[0].load(Ordering::SeqCst)
            && self.begun[1].load(Ordering::SeqCst)
            && self.begun[2].load(Ordering::SeqCst)
    }
}

impl Pacer for Gate {
    fn turn(&self, stage: u32, turn: u64) -> u32 {
        if turn == 0 {
            if let Some(own) = self.begun.get(stage as usize) {
                own.store(true, Ordering::SeqCst);
            }
            for _ in 0..1_000_000_000u32 {
                if self.all_begun() {
                    return 64;
                }
                std::hint::spin_loop();
            }
            self.waited_out.store(true, Ordering::SeqCst);
        }
        64
    }
}

#[test]
fn decoders_run_side_by_side(rt: HostRuntime) -> Result<(), Fail> {
    let alloc = rt.alloc();
    let gate = Gate {
        begun: [
            AtomicBool::new(false),
            AtomicBool::new(false),
            AtomicBool::new(false),
        ],
        waited_out: AtomicBool::new(false),
    };
    assert!(rt; gives_the_same(&rt, alloc, 64, &gate)?);
    assert!(rt; gate.all_begun() && !gate.waited_out.load(Ordering::SeqCst));
    Ok(())
}
