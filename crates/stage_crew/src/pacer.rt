// How much a stage does in a turn.

/// Asked before each turn of each stage, in the thread that runs it.
pub trait Pacer {
    /// The budget of that turn, in acts; 0 is read as 1. `stage` is the place of the stage in the
    /// list that was handed in, and `turn` counts its turns from 0 on.
    fn turn(&self, stage: u32, turn: u64) -> u32;
}

/// The same budget always.
#[derive(Clone, Copy, PartialEq, Eq)]
pub struct PlainPacer;

impl Pacer for PlainPacer {
    fn turn(&self, _stage: u32, _turn: u64) -> u32 {
        64
    }
}
