// A run of a tree, with a thread for each decoder.
ghost use Rattle.std.specs.Prelude.{◌≡◌, IfOk, OnErr, vec_len};
ghost use Rattle.decoder_core.specs.Promises.{KeepsFront};
ghost use Rattle.tree_runs.specs.Taking.{IsTree};
ghost use Rattle.stack_threads.specs.Runs.{RunsTree};

use crate::in_threads::InThreads;
use crate::rooms::rooms_of;
use crate::settle::settle_tree;
use crate::stages::{open_all, take_apart};
use crate::wiring::{Wires, wire};
use decoder_core::{Machine, RunEnd};
use la_base::NoMemory;
use stack_laws::laws::{machines_are_a_tree, machines_tell_their_inputs, settled_ends_fit};
use stage_crew::{CrewEnds, Pacer, Ran, Supplies, run_crew};
use std::sync::Wait;
use std::thread::Threads;
use tree_io::{MarkTake, RunFeed};

// The outputs of more input begin with those of less. (A law; nothing is done.)
fn keeps_front<M: Machine>()
    ensures { (machine : M) → KeepsFront (M.outputs (M.setup machine)) }
{}

/// Runs a tree of decoders, each in a thread of its own, with links between them. Each run of the
/// feed is sent to the machines that stand on nothing, and each packet to those that stand on the
/// machine that put it out; notes and pieces are taken as marks, with a floor behind each batch of
/// what a machine consumed, and at the end of the feed the end of each instance. The marks of one
/// instance are taken in their order, those of several as they come.
///
/// `parents` tells of each machine on which one it stands. Each link has room for one item in its
/// first slot, and in each other for 24 where runs are sent on it and for 8 where packets or marks
/// are, but for no more than 16,384.
///
/// The machines may already stand for samples: what is taken is what follows. A packet that doesn't
/// count for a machine is passed over by it. `Stopped` is answered where `take` stopped, at the
/// last mark that it was handed: none is taken behind it, and the feed isn't read on. All memory is
/// taken before anything is read: at `NoMemory` nothing was read or taken.
pub fn run_stages<
    M: Machine + Send + Drop,
    F: RunFeed + Send,
    G: MarkTake,
    P: Pacer + Sync,
    R: Threads + Wait + Sync,
>(
    way: &InThreads<R, P>,
    machines: Vec<M>,
    parents: &[Option<u32>],
    feed: &mut F,
    take: &mut G,
) -> Result<RunEnd, NoMemory>
    requires tree { IsTree parents.now (vec_len machines) (G.instances take.old) }
    ensures runs { IfOk result (λ end. RunsTree M.Machine F.RunFeed G.MarkTake parents.now
        machines.items feed.old feed.new take.old take.new end) }
    ensures none { OnErr result ((feed.new ≡ feed.old) × (take.new ≡ take.old)) }
{
    keeps_front::<M>();
    settled_ends_fit();
    machines_are_a_tree(&machines, parents);
    machines_tell_their_inputs(&machines, parents);
    let alloc = way.alloc;
    let count = machines.len();
    let Wires { ends, feeds, marks } = wire(alloc, rooms_of(way.slots), parents)?;
    let mut stages = Vec::with_capacity(alloc, count)?;
    let mut parts = Vec::with_capacity(alloc, count)?;
    open_all(machines, ends, &mut stages);
    let supplies = Supplies {
        runtime: way.runtime,
        alloc,
        pacer: way.pacer,
    };
    let ends = CrewEnds { feeds, marks };
    let Ran {
        stages,
        mut ends,
        end,
    } = run_crew(supplies, stages, parents, ends, feed, take)?;
    take_apart(stages, &mut parts);
    settle_tree(&mut parts, parents, &mut ends.feeds, &mut ends.marks);
    Ok(end)
}
