// The links of a tree, made before anything else is done.
ghost use Rattle.std.specs.Prelude.{◌≡◌, ◌<◌, IfOk, IfSome, vec_len};
ghost use Rattle.tree_runs.specs.Passing.{IsForest};
ghost use Rattle.stack_threads.specs.Wires.{AreWired, Grows, Joins};

use crate::rooms::Rooms;
use la_base::{Feed, Mark, NoMemory};
use stage_ring::{Rx, Tx, link};
use stage_run::{HalfRun, Input};
use std::alloc::Global;

/// The ends of links that the stage of an instance gets.
#[derive(Drop)]
pub(crate) struct StageEnds {
    pub(crate) input: Input,
    pub(crate) children: Vec<Tx<Feed>>,
    pub(crate) marks: Tx<Mark>,
}

/// The ends of the links of a tree: those of each stage, and the driver's, to each root and for
/// the marks of each instance.
#[derive(Drop)]
pub(crate) struct Wires {
    pub(crate) ends: Vec<StageEnds>,
    pub(crate) feeds: Vec<Tx<HalfRun>>,
    pub(crate) marks: Vec<Rx<Mark>>,
}

// Makes the link of a new input, and hands its other end to the driver or to the parent.
fn join(
    alloc: Global,
    rooms: Rooms,
    parent: Option<u32>,
    ends: &mut Vec<StageEnds>,
    feeds: &mut Vec<Tx<HalfRun>>,
) -> Result<Input, NoMemory>
    requires within { IfSome parent (λ p. p < vec_len ends.old) }
    ensures { IfOk result (λ input. Joins rooms parent input ends.old.items ends.new.items
        feeds.old.items feeds.new.items) }
{
    match parent {
        None => {
            let (sends, receives) = link(alloc, rooms.half_runs)?;
            feeds.push(sends)?;
            Ok(Input::Samples(receives))
        }
        Some(parent) => {
            let (sends, receives) = link(alloc, rooms.others)?;
            ends[parent as usize].children.push(sends)?;
            Ok(Input::Packets(receives))
        }
    }
}

// Makes the links of one more instance.
fn add(alloc: Global, rooms: Rooms, parent: Option<u32>, wires: &mut Wires) -> Result<(), NoMemory>
    requires within { IfSome parent (λ p. p < vec_len wires.old.ends) }
    ensures { IfOk result (λ _. Grows rooms parent wires.old wires.new) }
{
    let (sends, receives) = link(alloc, rooms.others)?;
    let input = join(alloc, rooms, parent, &mut wires.ends, &mut wires.feeds)?;
    wires.ends.push(StageEnds {
        input,
        children: Vec::new(alloc),
        marks: sends,
    })?;
    wires.marks.push(receives)?;
    Ok(())
}

/// Makes the links of a tree, of these rooms. After `NoMemory` none are left.
pub(crate) fn wire(alloc: Global, rooms: Rooms, parents: &[Option<u32>]) -> Result<Wires, NoMemory>
    requires forest { IsForest parents.now }
    ensures { IfOk result (λ wires. AreWired rooms parents.now wires) }
{
    let mut wires = Wires {
        ends: Vec::new(alloc),
        feeds: Vec::new(alloc),
        marks: Vec::new(alloc),
    };
    for parent in parents {
        add(alloc, rooms, *parent, &mut wires)?;
    }
    Ok(wires)
}
