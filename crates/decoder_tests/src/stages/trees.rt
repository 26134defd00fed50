// A serial line with two decoders that stand on it, as stages over small links, run in turn on one
// thread: what each gives is what it gives alone.
ghost use Rattle.std.specs.Prelude.{◌≡◌, [], IfOk};
ghost use Rattle.stage_ring.specs.Link.{received, sent};

use super::alone::{given_alone, shown};
use super::line::{BYTES, half_runs_of, opened_line, opened_midi, opened_modbus, runs_of};
use decoder_core::Machine;
use la_base::{Feed, Mark, Run};
use stage_ring::{Rx, Tx, link};
use stage_run::{HalfRun, Input, Stage};
use std::alloc::{AllocError, Global};
use std::test::Fail;

// A turn, where the stage hasn't ended.
fn go_on<M: Machine>(stage: &mut Stage<M>, budget: u32) {
    if !stage.is_over() {
        stage.turn(budget.max(1));
    }
}

// Takes what there is.
fn gather(marks: &mut Rx<Mark>, into: &mut Vec<Mark>) -> Result<(), AllocError> {
    for _ in 0..200u32 {
        let Some(mark) = marks.take() else { break };
        into.push(mark)?;
    }
    Ok(())
}

// Sends what is next of a list, where there is room.
fn pump(feeds: &mut Tx<HalfRun>, all: &[HalfRun], at: usize) -> usize {
    let Some(next) = all.get(at) else { return at };
    if feeds.offer(*next).is_ok() {
        at.saturating_add(1)
    } else {
        at
    }
}

// The ends of a new link.
fn links_of<T: Copy + Send>(alloc: Global, slots: u32) -> Result<(Tx<T>, Rx<T>), Fail>
    ensures { IfOk result (λ ends. (sent ends.0 ≡ []) × (received ends.1 ≡ [])) }
{
    match link::<T>(alloc, slots.clamp(1, 16384)) {
        Ok(ends) => Ok(ends),
        Err(_) => Err("no memory".into()),
    }
}

// Whether marks are these notes and pieces, with some floors between them, and the end last.
fn are(alloc: Global, marks: &[Mark], want: &[Mark]) -> Result<bool, AllocError> {
    let (notes, floors) = shown(alloc, marks)?;
    let ended = matches!(marks.last(), Some(Mark::End));
    Ok(notes.as_slice() == want && floors > 0 && ended)
}

// What three decoders gave: a line, and two that stand on it.
#[derive(Drop)]
struct Gave {
    line: Vec<Mark>,
    midi: Vec<Mark>,
    modbus: Vec<Mark>,
}

// What they give alone, one after the other.
fn give_alone(alloc: Global, runs: &[Run]) -> Result<Gave, Fail> {
    let mut fed = Vec::new(alloc);
    for run in runs {
        fed.push(Feed::Run(*run))?;
    }
    let line = given_alone(alloc, &mut opened_line()?, fed.as_slice())?;
    let packets = line.feeds.as_slice();
    let midi = given_alone(alloc, &mut opened_midi()?, packets)?;
    let modbus = given_alone(alloc, &mut opened_modbus()?, packets)?;
    Ok(Gave {
        line: line.marks,
        midi: midi.marks,
        modbus: modbus.marks,
    })
}

// What they give as stages.
fn run_tree(alloc: Global, runs: &[Run], slots: u32, budget: u32) -> Result<Gave, Fail> {
    let half_runs = half_runs_of(alloc, runs)?;
    let (mut feeds, input) = links_of::<HalfRun>(alloc, slots)?;
    let (to_midi, midi_input) = links_of::<Feed>(alloc, slots)?;
    let (to_modbus, modbus_input) = links_of::<Feed>(alloc, slots)?;
    let (line_sends, mut line_marks) = links_of::<Mark>(alloc, slots)?;
    let (midi_sends, mut midi_marks) = links_of::<Mark>(alloc, slots)?;
    let (modbus_sends, mut modbus_marks) = links_of::<Mark>(alloc, slots)?;
    let mut children = Vec::new(alloc);
    children.push(to_midi)?;
    children.push(to_modbus)?;
    let mut line = Stage::open(opened_line()?, Input::Samples(input), children, line_sends);
    let none = Vec::new(alloc);
    let mut midi = Stage::open(opened_midi()?, Input::Packets(midi_input), none, midi_sends);
    let none = Vec::new(alloc);
    let mut modbus = Stage::open(
        opened_modbus()?,
        Input::Packets(modbus_input),
        none,
        modbus_sends,
    );
    let mut gave = Gave {
        line: Vec::new(alloc),
        midi: Vec::new(alloc),
        modbus: Vec::new(alloc),
    };
    let mut at = 0;
    for _ in 0..20_000u32 {
        at = pump(&mut feeds, half_runs.as_slice(), at);
        go_on(&mut line, budget);
        go_on(&mut midi, budget);
        go_on(&mut modbus, budget);
        gather(&mut line_marks, &mut gave.line)?;
        gather(&mut midi_marks, &mut gave.midi)?;
        gather(&mut modbus_marks, &mut gave.modbus)?;
        if line.is_over() && midi.is_over() && modbus.is_over() {
            break;
        }
    }
    Ok(gave)
}

// Of one slot, of a few, and of more than a stage takes at once; one act a turn, and many.
#[test]
fn stages_give_what_decoders_give_alone(rt: HostRuntime) -> Result<(), Fail> {
    let alloc = rt.alloc();
    let runs = runs_of(alloc, &BYTES)?;
    let want = give_alone(alloc, &runs)?;
    assert!(rt; want.line.len() > 39 && want.midi.len() > 9 && want.modbus.len() > 39);
    for (slots, budget) in [(1, 1), (1, 50), (2, 3), (64, 1), (64, 1000), (1024, 7)] {
        let gave = run_tree(alloc, &runs, slots, budget)?;
        assert!(rt;
            are(alloc, &gave.line, &want.line)?,
            "{slots} slots, {budget} acts"
        );
        assert!(rt;
            are(alloc, &gave.midi, &want.midi)?,
            "{slots} slots, {budget} acts"
        );
        assert!(rt;
            are(alloc, &gave.modbus, &want.modbus)?,
            "{slots} slots, {budget} acts"
        );
    }
    Ok(())
}
