// The outermost frame: a scope for the workers.
ghost use Rattle.std.specs.Prelude.{◌≡◌, ◌≤◌, [], vec_len, IfOk, OnErr};
ghost use Rattle.stage_ring.specs.Link.{IsLink, sent};
ghost use Rattle.stage_crew.specs.Driving.{Fresh};
ghost use Rattle.stage_crew.specs.Gathering.{AreMarksOf};
ghost use Rattle.stage_crew.specs.Working.{CanRun, CrewRuns, FramesRan, IsReady};

use crate::crew::{Crew, CrewEnds, DriverEnds, FrameResult, Ran, Supplies, Work};
use crate::frames::lead;
use crate::idle::spins_for;
use crate::permit::ReadPermit;
use crate::reader::Reader;
use crate::status::{CrewStatus, DRIVER, READER, WorkerStatus};
use crate::{MOST_STAGES, Pacer, PlainPacer, Turns};
use la_base::NoMemory;
use stage_ring::{Rx, Tx, link, settle};
use std::alloc::Global;
use std::sync::Wait;
use std::thread;
use std::thread::Threads;
use tree_io::{MarkTake, RunFeed};

// Opens a scope for the workers, and hands back what it was lent.
fn within_scope<
    'a,
    R: Threads + Wait + Sync,
    D: Turns + Send + Drop,
    S: Turns + Send + Drop,
    P: Pacer + Sync,
    G: MarkTake,
>(
    crew: Crew<R, P>,
    reader: D,
    work: Work<D, S>,
    ends: DriverEnds,
    take: &'a mut G,
) -> FrameResult<'a, D, S, G>
    requires { CanRun (vec_len crew.status.now.workers) (G.instances take.old) work ends }
    ensures runs { FramesRan G.MarkTake D.Turns S.Turns take.old reader work ends result }
    ensures same { result.take.ghost_name ≡ take.entry.ghost_name }
{
    thread::scope(
        thread::scope_env(),
        crew.runtime,
        move |scope| -> FrameResult<D, S, G>
            requires { CanRun (vec_len crew.status.now.workers) (G.instances take.now) work ends }
            ensures runs { FramesRan G.MarkTake D.Turns S.Turns take.entry.now reader work ends
                result }
            ensures same { result.take.ghost_name ≡ take.entry.ghost_name }
        {
            let mut work = work;
            let mut ends = ends;
            let (reader, end) = lead(scope, crew, reader, &mut work, &mut ends, take);
            FrameResult {
                take,
                reader,
                done: work.done,
                ends,
                end,
            }
        },
    )
}

// What was lent to a crew, and what it gives back.
struct CrewResult<'a, 'b, S, F, G> {
    feed: &'a mut F,
    take: &'b mut G,
    ran: Ran<S>,
}

// Lends the feed to a reader, and has it and the stages run.
fn read_within<
    'a,
    'b,
    'c,
    R: Threads + Wait + Sync,
    S: Turns + Send + Drop,
    P: Pacer + Sync,
    F: RunFeed + Send,
    G: MarkTake,
>(
    crew: Crew<'c, R, P>,
    work: Work<Reader<'a, 'c, F>, S>,
    ends: CrewEnds,
    stop: (Tx<bool>, Rx<bool>),
    feed: &'a mut F,
    take: &'b mut G,
) -> CrewResult<'a, 'b, S, F, G>
    requires ready { IsReady work }
    requires few { vec_len work.todo ≤ vec_len crew.status.now.workers }
    requires marks { AreMarksOf (G.instances take.old) ends.marks }
    requires fresh { Fresh ends.feeds.items ends.marks.items }
    requires stop { IsLink stop.0 stop.1 × (sent stop.0 ≡ []) }
    ensures runs { CrewRuns F.RunFeed G.MarkTake S.Turns feed.old result.feed.now take.old
        result.take.now work.entry.todo.items ends result.ran }
    ensures same { (result.feed.ghost_name ≡ feed.entry.ghost_name)
        × (result.take.ghost_name ≡ take.entry.ghost_name) }
{
    let (stop, stopped) = stop;
    let reader = Reader::new(feed, ends.feeds, stopped, crew.status);
    let ends = DriverEnds {
        marks: ends.marks,
        stop,
    };
    let FrameResult {
        take,
        reader,
        done,
        mut ends,
        end,
    } = within_scope(crew, reader, work, ends, take);
    let Reader {
        feed,
        feeds,
        stop: mut stopped,
        ..
    } = reader;
    settle(&mut ends.stop, &mut stopped);
    CrewResult {
        feed,
        take,
        ran: Ran {
            stages: done,
            ends: CrewEnds {
                feeds,
                marks: ends.marks,
            },
            end,
        },
    }
}

// What was lent goes back as it is.
fn goes_back<T>(lent: &mut T)
    ensures { lent.new ≡ lent.old }
{}

// A stage in a set of threads.
fn bit(place: usize) -> u32 {
    1u32.wrapping_shl(place.min(31) as u32)
}

// The stages that stand on this one, or on nothing, as a set of threads.
fn children_of(parents: &[Option<u32>], parent: Option<u32>) -> u32 {
    let mut found = 0;
    for place in 0..parents.len() {
        if parents[place] == parent {
            found |= bit(place);
        }
    }
    found
}

// From whom a stage receives.
fn upstream_of(parents: &[Option<u32>], place: usize) -> u32 {
    match parents.get(place) {
        Some(Some(parent)) => bit(*parent as usize),
        Some(None) => READER,
        None => READER,
    }
}

// After how many turns in which something moved the reader notifies the roots: a turn is 64 steps,
// most of which send 128 runs to one root, so that each was sent a fourth of what a link has room for.
fn reader_turns(parents: &[Option<u32>], room: usize) -> u32 {
    let mut roots: usize = 0;
    for parent in parents {
        if parent.is_none() {
            roots = roots.saturating_add(1);
        }
    }
    let turns = roots.min(MOST_STAGES) * room.min(16_384) / 32_768;
    turns.clamp(1, 64) as u32
}

// The same of a stage, whose turn is about a thousand items.
fn stage_turns(room: usize) -> u32 {
    if room >= 4_096 { 3 } else { 1 }
}

// The statuses of the workers of so many stages.
fn statuses_of(
    alloc: Global,
    parents: &[Option<u32>],
    count: usize,
    spins: u32,
    turns: u32,
) -> Result<Vec<WorkerStatus>, NoMemory>
    requires { count ≤ 24 }
    ensures { IfOk result (λ workers. vec_len workers ≡ count) }
{
    let mut workers = Vec::with_capacity(alloc, count)?;
    for place in 0..count {
        let upstream = upstream_of(parents, place);
        let children = children_of(parents, Some(place as u32));
        workers.push(WorkerStatus::new(bit(place), upstream, children, spins, turns))?;
    }
    Ok(workers)
}

// The statuses of a crew of so many stages, with links of this room.
fn status_of<R: Threads>(
    rt: &R,
    alloc: Global,
    parents: &[Option<u32>],
    count: usize,
    room: usize,
) -> Result<CrewStatus, NoMemory>
    requires { count ≤ 24 }
    ensures { IfOk result (λ status. vec_len status.workers ≡ count) }
{
    // the stages, the reader and the driver
    let spins = spins_for(rt, count + 2);
    let workers = statuses_of(alloc, parents, count, spins, stage_turns(room))?;
    let roots = children_of(parents, None);
    Ok(CrewStatus {
        workers,
        reader: WorkerStatus::new(READER, 0, roots, spins, reader_turns(parents, room)),
        driver: WorkerStatus::new(DRIVER, 0, 0, spins, 1),
        permit: ReadPermit::new(),
        plain: PlainPacer,
        room,
    })
}

// The room of a link to a root.
fn room_of(ends: &CrewEnds) -> usize {
    match ends.feeds.first() {
        Some(link) => link.room(),
        None => 0,
    }
}

// Stages to be run, with all the room that is needed.
fn work_of<D, S: Drop>(alloc: Global, stages: Vec<S>) -> Result<Work<D, S>, NoMemory>
    requires { vec_len stages ≤ 24 }
    ensures { IfOk result (λ work. (work.todo ≡ stages) × IsReady work) }
{
    let count = stages.len();
    Ok(Work {
        todo: stages,
        done: Vec::with_capacity(alloc, count)?,
        own: Vec::with_capacity(alloc, count)?,
        readers: Vec::with_capacity(alloc, 1)?,
    })
}

/// Runs each stage in a thread of its own, one worker each, and in one more the reader, which sends
/// all runs of the feed to each root, and then the end. The driver, in this thread, gathers the marks
/// of each instance up to its end. Before a call of the feed that has to wait, or while it waits, what
/// takes the marks is told of the pause, once nothing is on its way any more.
///
/// Who has nothing to do sleeps, and is woken by those at the other ends of its links: `parents` tells
/// of each stage on which one it stands, and `ends` are the other ends of the stages' links.
///
/// `Stopped` is answered where `take` stopped, at the last mark that it was handed or in a pause after
/// it: none is taken then. Once the reader has heard of that, the feed isn't read on, but what it gave
/// is sent, and the stages run to their ends. Where no thread can be started for a stage, or the
/// reader, the driver takes turns of it. No thread is left behind. At `NoMemory` nothing was done.
pub fn run_crew<
    R: Threads + Wait + Sync,
    S: Turns + Send + Drop,
    P: Pacer + Sync,
    F: RunFeed + Send,
    G: MarkTake,
>(
    supplies: Supplies<R, P>,
    stages: Vec<S>,
    parents: &[Option<u32>],
    ends: CrewEnds,
    feed: &mut F,
    take: &mut G,
) -> Result<Ran<S>, NoMemory>
    requires few { vec_len stages ≤ 24 }
    requires marks { AreMarksOf (G.instances take.old) ends.marks }
    requires fresh { Fresh ends.feeds.items ends.marks.items }
    ensures runs { IfOk result (λ ran. CrewRuns F.RunFeed G.MarkTake S.Turns feed.old feed.new
        take.old take.new stages.items ends ran) }
    ensures none { OnErr result ((feed.new ≡ feed.old) × (take.new ≡ take.old)) }
{
    let Supplies {
        runtime,
        alloc,
        pacer,
    } = supplies;
    let work = work_of(alloc, stages)?;
    let stop = link(alloc, 1)?;
    let status = status_of(runtime, alloc, parents, work.todo.len(), room_of(&ends))?;
    let crew = Crew {
        runtime,
        status: &status,
        pacer,
    };
    let CrewResult {
        feed: lent,
        take: given,
        ran,
    } = read_within(crew, work, ends, stop, feed, take);
    goes_back(lent);
    goes_back(given);
    Ok(ran)
}
