// Decoders that are fed with samples.
ghost use Rattle.std.specs.Prelude.{◌≤◌, ◌<◌, []};

use decoder_core::{Driver, LogicMachine, Machine, Outs};
use la_base::{Feed, Out, Run, Word};
use std::alloc::{AllocError, Global};

/// All outputs of some samples, and the floor behind them.
#[derive(Drop)]
pub struct Told {
    pub outs: Vec<Out>,
    pub near: u64,
}

/// The list of so many samples below `base` that has a number: its digits, the lowest first.
pub fn list_of(alloc: Global, number: u32, base: u32, count: u32) -> Result<Vec<Word>, AllocError>
    requires { 0 < base }
{
    let mut samples = Vec::new(alloc);
    let mut rest = number;
    for _ in 0..count {
        samples.push(Word::from(rest % base))?;
        rest /= base;
    }
    Ok(samples)
}

/// Samples as runs of at most so many: equal neighbours are one.
pub fn runs_of(alloc: Global, samples: &[Word], most: u64) -> Result<Vec<Run>, AllocError> {
    let mut runs: Vec<Run> = Vec::new(alloc);
    for sample in samples {
        let value = *sample;
        match runs.last_mut() {
            Some(run) if run.value == value && run.len < most => run.len += 1,
            _ => runs.push(Run { value, len: 1 })?,
        }
    }
    Ok(runs)
}

/// What a decoder that stands for no samples gives of some runs.
pub fn decoded<L: LogicMachine + Drop>(
    alloc: Global,
    machine: L,
    runs: &[Run],
) -> Result<Told, AllocError>
    requires { L.stands machine [] }
{
    let mut all = Vec::new(alloc);
    let mut driver = Driver::new(machine);
    let mut outs = Outs::new();
    for run in runs {
        let mut feed = Feed::Run(*run);
        // each step takes a sample at least
        for _ in 0..run.len {
            outs.clear();
            let rest = driver.step(feed, &mut outs);
            all.extend_from_slice(outs.list())?;
            match rest {
                Some(rest) => feed = rest,
                None => break,
            }
        }
    }
    Ok(Told {
        outs: all,
        near: driver.floor(0),
    })
}
