// The thread of one stage.
ghost use Rattle.std.specs.Prelude.{◌≡◌};
ghost use Rattle.stage_crew.specs.Crew.{Ends};

use crate::crew::Crew;
use crate::idle::IdlePolicy;
use crate::status::{CrewStatus, WorkerStatus};
use crate::{Pacer, Turns};
use stage_run::Turn;
use std::snapshot::Snapshot;
use std::sync::Wait;
use std::thread::Promise;

/// What a worker gives back of its stage.
#[derive(Drop)]
pub(crate) struct Back<S> {
    pub(crate) was: Snapshot<S>,
}

impl<S: Turns> Promise<S> for Back<S> {
    ghost kept_by = { λ p r. S.goes_on p.was.value r };
}

/// A worker: it runs its stage until it is over, or gives it back untouched where it was refused.
pub(crate) fn work<R: Wait, S: Turns, P: Pacer>(
    crew: Crew<R, P>,
    stage: S,
    number: u32,
    status: &WorkerStatus,
) -> S
    ensures { S.goes_on stage result }
{
    if status.is_refused() {
        return stage;
    }
    run_out(crew, stage, number, status)
}

/// Notifies those who may go on by what a stage gave and took.
pub(crate) fn notify_touched<S: Turns>(crew: &CrewStatus, status: &WorkerStatus, stage: &S) {
    crew.notify(status.threads(stage.touched()), status.own);
}

// Something moved: others are notified, where that is to be done now.
fn go_on<S: Turns>(crew: &CrewStatus, status: &WorkerStatus, policy: &IdlePolicy, stage: &S) {
    if policy.moved(status) {
        notify_touched(crew, status, stage);
    }
}

// Nothing moved: it spins, or looks once more, or sleeps. It may return at once.
fn rest<R: Wait, S: Turns>(
    rt: &R,
    crew: &CrewStatus,
    status: &WorkerStatus,
    policy: &IdlePolicy,
    stage: &S,
) {
    if policy.spin(status) {
        return;
    }
    notify_touched(crew, status, stage);
    if policy.prepare(status, status.thread(stage.waits_for())) {
        return;
    }
    if policy.commit(status) {
        crew.tell_asleep();
        policy.park(rt, status);
    }
}

/// Runs a stage until it is over.
pub(crate) fn run_out<R: Wait, S: Turns, P: Pacer>(
    crew: Crew<R, P>,
    stage: S,
    number: u32,
    status: &WorkerStatus,
) -> S
    ensures { Ends S.goes_on S.over stage result }
{
    let mut stage = stage;
    let policy = IdlePolicy::new();
    let mut turn: u64 = 0;
    for _ in crew.runtime.forever() {
        if stage.is_over() {
            return stage;
        }
        let budget = crew.pacer.turn(number, turn).max(1);
        turn = turn.wrapping_add(1);
        match stage.turn(budget) {
            Turn::Ended => {
                notify_touched(crew.status, status, &stage);
                return stage;
            }
            Turn::Moved => go_on(crew.status, status, &policy, &stage),
            Turn::Idle => rest(crew.runtime, crew.status, status, &policy, &stage),
        }
    }
    unreachable!()
}
