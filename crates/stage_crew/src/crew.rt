// What a crew shares, and what it works on.
ghost use Rattle.std.specs.Prelude.{◌≡◌, ⊤};

use crate::status::CrewStatus;
use decoder_core::RunEnd;
use la_base::Mark;
use stage_ring::{Rx, Tx};
use stage_run::HalfRun;
use std::alloc::{AllocError, Global};

/// What a crew is run with: its threads, its memory, and how much each stage does in a turn.
#[derive(Drop)]
pub struct Supplies<'a, R, P> {
    pub runtime: &'a R,
    pub alloc: Global,
    pub pacer: &'a P,
}

/// What all threads of a crew share.
pub(crate) struct Crew<'s, R, P> {
    pub(crate) runtime: &'s R,
    pub(crate) status: &'s CrewStatus,
    pub(crate) pacer: &'s P,
}

impl<R, P> Clone for Crew<'_, R, P> {
    ghost is_clone = { λ x y. y ≡ x };

    ghost is_infallible = { λ _. ⊤ };

    fn clone(&self) -> Result<Self, AllocError> {
        Ok(*self)
    }
}

impl<R, P> Copy for Crew<'_, R, P> {}

/// The ends of a crew's links that no stage has: those to the roots, and those of the marks of all
/// instances, in their order.
#[derive(Drop)]
pub struct CrewEnds {
    pub feeds: Vec<Tx<HalfRun>>,
    pub marks: Vec<Rx<Mark>>,
}

/// Those of the driver: on `stop` it tells the reader that no more is wanted.
#[derive(Drop)]
pub(crate) struct DriverEnds {
    pub(crate) marks: Vec<Rx<Mark>>,
    pub(crate) stop: Tx<bool>,
}

/// The stages that are still to be run and those that came back, in their order, with room for the
/// stages and the reader that no thread took.
#[derive(Drop)]
pub(crate) struct Work<D, S> {
    pub(crate) todo: Vec<S>,
    pub(crate) done: Vec<S>,
    pub(crate) own: Vec<S>,
    pub(crate) readers: Vec<D>,
}

/// What was lent to the frames, and what they give back.
pub(crate) struct FrameResult<'a, D, S, G> {
    pub(crate) take: &'a mut G,
    pub(crate) reader: D,
    pub(crate) done: Vec<S>,
    pub(crate) ends: DriverEnds,
    pub(crate) end: RunEnd,
}

/// The stages, each over, and the ends of the links that were handed in, in their order.
#[derive(Drop)]
pub struct Ran<S> {
    pub stages: Vec<S>,
    pub ends: CrewEnds,
    pub end: RunEnd,
}
