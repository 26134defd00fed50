// A decoder of any kind as a machine.
ghost use Rattle.decoder_set.specs.Setups.{outs_of, near_of};
ghost use Rattle.decoder_set.specs.Opening.{HasConsumed, IsAsleep, opened_by, setup_of};
ghost use Rattle.kind_table.specs.Kinds.{kind_row};
ghost use Rattle.decoder_set.specs.laws.KindLaws.{promises_of};

use crate::stepping::{floor_any, step_any, step_run_any, step_runs_any};
use crate::{AnyDecoder, Setup};
use decoder_core::{Machine, Outs, Taken};
use kind_table::input_of;
use la_base::{Feed, Run, Wire};

impl Machine for AnyDecoder {
    type Setup = Setup;

    ghost setup = { λ d. setup_of d };

    ghost outputs = { λ setup input. outs_of setup input };

    ghost near = { λ setup input above. near_of setup input above };

    ghost wire = { λ setup. (kind_row setup.kind).input };

    ghost gives = { λ setup. (kind_row setup.kind).output };

    ghost consumed = { λ d input. HasConsumed d input };

    ghost sleeps = { λ d input more. IsAsleep d input more };

    fn wants(&self) -> Wire {
        input_of(self.setup.kind)
    }

    fn step(&mut self, feed: Feed, into: &mut Outs) -> Option<Feed> {
        step_any(&mut self.machine, feed, into)
    }

    #[inline(always)]
    fn step_runs(&mut self, runs: &[Run], into: &mut Outs) -> Taken {
        step_runs_any(&mut self.machine, runs, into)
    }

    #[inline(always)]
    fn step_run(&mut self, run: Run, into: &mut Outs) -> Option<Run> {
        step_run_any(&mut self.machine, run, into)
    }

    fn floor(&self, above: u64) -> u64 {
        floor_any(&self.machine, above)
    }

    ghost nothing = { λ d. (promises_of (setup_of d) (opened_by d)).nothing };

    ghost prefix = { λ d. (promises_of (setup_of d) (opened_by d)).prefix };

    ghost order = { λ d. (promises_of (setup_of d) (opened_by d)).order };

    ghost few = { λ d. (promises_of (setup_of d) (opened_by d)).few };

    ghost on_wire = { λ d. (promises_of (setup_of d) (opened_by d)).on_wire };
}
