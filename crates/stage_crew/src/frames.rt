// One worker for the reader, and one for each stage.
ghost use Rattle.std.specs.Prelude.{◌≡◌, ◌≤◌, vec_len, IfOk, IfErr};
ghost use Rattle.stage_crew.specs.Crew.{Each, Ends};
ghost use Rattle.stage_crew.specs.Working.{AreUnused, CanRun, Drives, HasRoom, WorksOff};

use crate::crew::{Crew, DriverEnds, Work};
use crate::driver::drive;
use crate::pacer::Pacer;
use crate::status::WorkerStatus;
use crate::turns::{Turns, turns_go_on};
use crate::worker::{Back, run_out, work};
use decoder_core::RunEnd;
use std::snapshot::Snapshot;
use std::sync::Wait;
use std::thread::{PromisedHandle, Scope, Threads};
use tree_io::MarkTake;

// Starts a worker for a stage, or hands the stage back.
fn start<'s, E, R: Wait + Sync, S: Turns + Send + Drop + 's, P: Pacer + Sync>(
    scope: &'s Scope<'s, E>,
    crew: Crew<'s, R, P>,
    stage: S,
    number: u32,
    status: &'s WorkerStatus,
) -> Result<PromisedHandle<S, Back<S>>, S>
    ensures started { IfOk result (λ child. child.promise.was.value ≡ stage) }
    ensures refused { IfErr result (λ back. S.goes_on stage back) }
{
    let was = Snapshot::of(&stage);
    match scope.spawn_with(Back { was }, move || work(crew, stage, number, status)) {
        Ok(child) => Ok(child),
        Err(spawn) => {
            status.refuse();
            Err((spawn.value)())
        }
    }
}

/// Starts a worker for the last stage, and runs the other stages and the driver beside it. The
/// stages come back in order, each over. Where no thread can be started for a stage, the driver
/// takes turns of it.
pub(crate) fn frame<
    's,
    E,
    R: Threads + Wait + Sync,
    D: Turns,
    S: Turns + Send + Drop + 's,
    P: Pacer + Sync,
    G: MarkTake,
>(
    scope: &'s Scope<'s, E>,
    crew: Crew<'s, R, P>,
    work: &mut Work<D, S>,
    ends: &mut DriverEnds,
    take: &mut G,
) -> RunEnd
    requires room { HasRoom work.old }
    requires few { vec_len work.old.todo ≤ vec_len crew.status.now.workers }
    requires unused { AreUnused (G.instances take.old) ends.old }
    ensures drives { Drives G.MarkTake take.old take.new result ends.old ends.new }
    ensures works { WorksOff D.goes_on S.goes_on S.over work.old work.new }
{
    turns_go_on::<S>();
    let Some(stage) = work.todo.pop() else {
        return drive(crew, &mut work.readers, &mut work.own, ends, take);
    };
    let number = work.todo.len() as u32;
    let status = &crew.status.workers[work.todo.len()];
    let (back, end) = match start(scope, crew, stage, number, status) {
        Ok(child) => {
            let end = frame(scope, crew, work, ends, take);
            (child.join(crew.runtime), end)
        }
        Err(stage) => {
            work.own.push_reserved(stage);
            let end = frame(scope, crew, work, ends, take);
            let Some(stage) = work.own.pop() else {
                unreachable!();
            };
            (stage, end)
        }
    };
    work.done.push_reserved(run_out(crew, back, number, status));
    end
}

/// Starts a worker for the reader, and runs the stages and the driver beside it. Gives the reader
/// back, over, and the stages likewise. Where no thread can be started for the reader, the driver
/// takes turns of it.
pub(crate) fn lead<
    's,
    E,
    R: Threads + Wait + Sync,
    D: Turns + Send + Drop + 's,
    S: Turns + Send + Drop + 's,
    P: Pacer + Sync,
    G: MarkTake,
>(
    scope: &'s Scope<'s, E>,
    crew: Crew<'s, R, P>,
    reader: D,
    work: &mut Work<D, S>,
    ends: &mut DriverEnds,
    take: &mut G,
) -> (D, RunEnd)
    requires { CanRun (vec_len crew.status.now.workers) (G.instances take.old) work.old ends.old }
    ensures drives { Drives G.MarkTake take.old take.new result.1 ends.old ends.new }
    ensures reader { Ends D.goes_on D.over reader result.0 }
    ensures done { Each (Ends S.goes_on S.over) work.old.todo.items work.new.done.items }
{
    turns_go_on::<D>();
    let status = &crew.status.reader;
    let paced = Crew {
        runtime: crew.runtime,
        status: crew.status,
        pacer: &crew.status.plain,
    };
    let (back, end) = match start(scope, paced, reader, 0, status) {
        Ok(child) => {
            let end = frame(scope, crew, work, ends, take);
            (child.join(crew.runtime), end)
        }
        Err(reader) => {
            work.readers.push_reserved(reader);
            let end = frame(scope, crew, work, ends, take);
            let Some(reader) = work.readers.pop() else {
                unreachable!();
            };
            (reader, end)
        }
    };
    (run_out(paced, back, 0, status), end)
}
