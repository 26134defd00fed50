// A stage takes turns.
use crate::Turns;
use decoder_core::Machine;
use stage_run::{Peer, Peers, Stage, Turn};

impl<M: Machine> Turns for Stage<M> {
    ghost use Rattle.stage_run.specs.Stages.{is_over};
    ghost use Rattle.stage_crew.specs.Staged.{StageGoesOn, stage_further, stage_still};

    ghost goes_on = { StageGoesOn M.Machine };

    ghost over = { λ stage. is_over stage };

    fn is_over(&self) -> bool {
        self.is_over()
    }

    fn turn(&mut self, budget: u32) -> Turn {
        self.turn(budget)
    }

    fn touched(&self) -> Peers {
        self.touched()
    }

    fn waits_for(&self) -> Peer {
        self.waits_for()
    }

    ghost still = { stage_still };

    ghost on = { stage_further };
}
