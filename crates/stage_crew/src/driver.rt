// The driver: it gathers the marks, and runs what no thread took.
ghost use Rattle.std.specs.Prelude.{◌≡◌, ◌≤◌, [], List, ℕ, Some, false};
ghost use Rattle.la_base.specs.declared.wires.Mark.{Mark as MarkIs};
ghost use Rattle.stage_ring.specs.Link.{sent, tx_link};
ghost use Rattle.stage_crew.specs.Crew.{AllGoOn};
ghost use Rattle.stage_crew.specs.Gathering.{Gathers};
ghost use Rattle.stage_crew.specs.Working.{AreUnused, Drives};

use crate::MOST_STAGES;
use crate::counts::GatheredCounts;
use crate::crew::{Crew, DriverEnds};
use crate::gatherer::Gatherer;
use crate::idle::IdlePolicy;
use crate::marks::finish;
use crate::pacer::Pacer;
use crate::status::{ANY, CrewStatus, DRIVER, READER};
use crate::turns::{Turns, turns_go_on};
use crate::worker::notify_touched;
use decoder_core::RunEnd;
use la_base::Mark;
use stage_ring::{Rx, Tx};
use stage_run::Turn;
use std::sync::Wait;
use tree_io::{MarkTake, Stopped};

// A turn of what isn't over. Answers whether it moved.
fn turn_one<S: Turns>(stage: &mut S, budget: u32) -> bool
    requires some { 1 ≤ budget }
    ensures { S.goes_on stage.old stage.new }
{
    turns_go_on::<S>();
    if stage.is_over() {
        return false;
    }
    match stage.turn(budget) {
        Turn::Moved => true,
        Turn::Idle => false,
        Turn::Ended => true,
    }
}

// A turn of each that the driver runs itself; `numbers` are their places, that of the reader after
// all stages. Whoever may go on by a turn is notified. Answers whether any moved.
fn turn_own<S: Turns, P: Pacer>(
    own: &mut Vec<S>,
    numbers: &[u32; MOST_STAGES],
    turn: u64,
    crew: &CrewStatus,
    pacer: &P,
) -> bool
    ensures { AllGoOn S.goes_on own.old own.new }
{
    let mut moved = false;
    for place in 0..own.len() {
        let number = numbers[place.min(MOST_STAGES - 1)];
        if turn_one(&mut own[place], pacer.turn(number, turn).max(1)) {
            moved = true;
        }
        notify_touched(crew, crew.status(number as usize), &own[place]);
    }
    moved
}

// Tells the reader that no more is wanted, once it was stopped, and never again.
fn tell_stop(stop: &mut Tx<bool>, stopped: bool, stop_sent: &mut bool, crew: &CrewStatus)
    ensures link { tx_link stop.new ≡ tx_link stop.old }
    ensures untold { stopped ≡ false → sent stop.new ≡ sent stop.old }
{
    if stopped && !*stop_sent {
        *stop_sent = true;
        let _ = stop.offer(true);
        crew.notify(READER, DRIVER);
    }
}

// Where nothing is on its way any more, what takes the marks is told of the pause, and the reader may
// wait for its feed then, if it doesn't yet. It may not where that stopped it.
fn let_read<G: MarkTake>(take: &mut G, state: &mut Gatherer, crew: &CrewStatus, quiet: Option<u64>)
    ensures { (gathered : List (List MarkIs))
        → Gathers G.MarkTake take.old take.new state.old state.new gathered gathered }
{
    let Some(permit) = quiet else {
        return;
    };
    if state.stopped {
        return;
    }
    match take.pause() {
        Ok(()) => {
            crew.permit.grant(permit);
            crew.notify(READER, DRIVER);
        }
        Err(Stopped) => state.stopped = true,
    }
}

// Starts again where something moved; else it spins, or notifies those whose marks it gathered, looks
// once more, and sleeps.
fn rest<R: Wait>(
    rt: &R,
    counts: &mut GatheredCounts,
    policy: &IdlePolicy,
    crew: &CrewStatus,
    moved: bool,
) {
    let status = &crew.driver;
    if moved {
        policy.moved(status);
        counts.notify(crew, (crew.room / 4).max(1));
        return;
    }
    if policy.spin(status) {
        return;
    }
    counts.notify(crew, 1);
    if policy.prepare(status, ANY) {
        return;
    }
    if policy.commit(status) {
        policy.park(rt, status);
    }
}

/// Gathers the marks until the end of each instance has come, and then has these ends taken, unless
/// it was stopped; and takes turns of the reader and of the stages for which there is no thread.
pub(crate) fn drive<R: Wait, D: Turns, S: Turns, P: Pacer, G: MarkTake>(
    crew: Crew<R, P>,
    readers: &mut Vec<D>,
    own: &mut Vec<S>,
    ends: &mut DriverEnds,
    take: &mut G,
) -> RunEnd
    requires unused { AreUnused (G.instances take.old) ends.old }
    ensures drives { Drives G.MarkTake take.old take.new result ends.old ends.new }
    ensures readers { AllGoOn D.goes_on readers.old readers.new }
    ensures own { AllGoOn S.goes_on own.old own.new }
{
    turns_go_on::<D>();
    turns_go_on::<S>();
    let status = crew.status;
    let mut state = Gatherer::new();
    let mut counts = GatheredCounts::new();
    let refused = status.refused();
    let reader = [MOST_STAGES as u32; MOST_STAGES];
    let policy = IdlePolicy::new();
    let mut stop_sent = false;
    let mut turn: u64 = 0;
    for _ in crew.runtime.forever() {
        let mut quiet = None;
        if !state.stopped && policy.is_waiting() {
            quiet = status.quiet_permit();
        }
        let looked = quiet.is_some();
        let read = turn_own(readers, &reader, turn, status, &status.plain);
        let gathered = state.gather_all(take, &mut ends.marks, &mut counts);
        let turned = turn_own(own, &refused, turn, status, crew.pacer);
        turn = turn.wrapping_add(1);
        let moved = read || gathered || turned;
        if moved {
            quiet = None;
        }
        let_read(take, &mut state, status, quiet);
        tell_stop(&mut ends.stop, state.stopped, &mut stop_sent, status);
        if state.all_over(ends.marks.len()) {
            return finish(ends.marks.len() as u32, take, state.stopped);
        }
        rest(crew.runtime, &mut counts, &policy, status, moved || looked);
    }
    unreachable!()
}
