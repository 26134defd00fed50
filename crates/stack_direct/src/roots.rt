// Handing runs to those machines of a tree that read samples.
ghost use Rattle.std.specs.Prelude.{◌≡◌, ◌<◌, ◌≤◌, ◌∷◌, [], ℕ, List, IfOk, None, OnOk};
ghost use Rattle.std.specs.Prelude.{length, map};
ghost use Rattle.la_base.specs.Samples.{samples};
ghost use Rattle.decoder_core.specs.Inputs.{Item, Sample};
ghost use Rattle.tree_runs.specs.Machines.{taken_of};
ghost use Rattle.tree_runs.specs.Runs.{run_items};
ghost use Rattle.stack_direct.specs.Trees.{SameTree, TakesAll, TakesOn, TreeConsumes, TreeFeeds};
ghost use Rattle.stack_direct.specs.Trees.{TreeGives, TreeHands, parents_of};

use crate::parts::{mark, same_place, step_run_at, step_runs_at};
use crate::tree::Tree;
use decoder_core::{Machine, Outs};
use la_base::{Mark, Run};
use tree_io::{MarkTake, Stopped};

impl<M: Machine> Tree<'_, '_, M> {
    // Gives the outputs of one machine, and lets them go. Most steps put out nothing, so that is
    // looked at first.
    #[inline(always)]
    fn give_all<G: MarkTake>(
        &mut self,
        instance: u32,
        outs: &mut Outs,
        rooms: &mut [Outs],
        take: &mut G,
    ) -> Result<(), Stopped>
        requires all { TakesAll G.MarkTake self.old take.old }
        requires within { instance < length (parents_of self.old) }
        ensures same { SameTree M.Machine self.old self.new }
        ensures gives { TreeGives M.Machine G.MarkTake self.old self.new take.old take.new result
            instance outs.old }
        ensures empty { OnOk result (outs.new ≡ []) }
        ensures takes { TakesOn G.MarkTake take.old take.new result }
    {
        if outs.list().is_empty() {
            return Ok(());
        }
        match self.give(instance, outs.list(), rooms, take) {
            Ok(()) => {
                outs.clear();
                Ok(())
            }
            Err(Stopped) => Err(Stopped),
        }
    }

    // Hands what is left of a run to one machine, stop by stop, and what it puts out to those that
    // stand on it.
    #[inline(never)]
    fn pass_rest<G: MarkTake>(
        &mut self,
        instance: u32,
        run: Run,
        outs: &mut Outs,
        rooms: &mut [Outs],
        take: &mut G,
    ) -> Result<(), Stopped>
        requires all { TakesAll G.MarkTake self.old take.old }
        requires within { instance < length (parents_of self.old) }
        requires empty { outs.old ≡ [] }
        ensures same { SameTree M.Machine self.old self.new }
        ensures consumes { TreeConsumes M.Machine G.MarkTake self.old self.new take.old take.new
            result instance (map Sample (samples run)) }
        ensures empty { OnOk result (outs.new ≡ []) }
        ensures takes { TakesOn G.MarkTake take.old take.new result }
    {
        let mut rest = Some(run);
        while let Some(run) = rest {
            rest = step_run_at(self.machines, instance, run, outs);
            match self.give_all(instance, outs, rooms, take) {
                Ok(()) => {}
                Err(Stopped) => return Err(Stopped),
            }
        }
        Ok(())
    }

    // Hands some of the runs to one machine, and what it puts out to those that stand on it; the
    // answer is how many.
    #[inline(always)]
    fn pass_some<G: MarkTake>(
        &mut self,
        instance: u32,
        runs: &[Run],
        outs: &mut Outs,
        rooms: &mut [Outs],
        take: &mut G,
    ) -> Result<usize, Stopped>
        requires all { TakesAll G.MarkTake self.old take.old }
        requires within { instance < length (parents_of self.old) }
        requires empty { outs.old ≡ [] }
        requires some { 0 < length runs.now }
        ensures same { SameTree M.Machine self.old self.new }
        ensures count { IfOk result (λ count. (0 < count) × (count ≤ length runs.now)) }
        ensures consumes { TreeConsumes M.Machine G.MarkTake self.old self.new take.old take.new
            result instance (run_items (taken_of result runs.now)) }
        ensures empty { IfOk result (λ count. outs.new ≡ []) }
        ensures takes { TakesOn G.MarkTake take.old take.new result }
    {
        let taken = step_runs_at(self.machines, instance, runs, outs);
        match self.give_all(instance, outs, rooms, take) {
            Ok(()) => {}
            Err(Stopped) => return Err(Stopped),
        }
        match taken.rest {
            Some(rest) => match self.pass_rest(instance, rest, outs, rooms, take) {
                Ok(()) => Ok(taken.count),
                Err(Stopped) => Err(Stopped),
            },
            None => Ok(taken.count),
        }
    }

    // Hands all of them on. It isn't inlined, so that its loop has the registers that it needs.
    #[inline(never)]
    fn pass_all<G: MarkTake>(
        &mut self,
        instance: u32,
        runs: &[Run],
        outs: &mut Outs,
        rooms: &mut [Outs],
        take: &mut G,
    ) -> Result<(), Stopped>
        requires all { TakesAll G.MarkTake self.old take.old }
        requires within { instance < length (parents_of self.old) }
        requires empty { outs.old ≡ [] }
        ensures same { SameTree M.Machine self.old self.new }
        ensures consumes { TreeConsumes M.Machine G.MarkTake self.old self.new take.old take.new
            result instance (run_items runs.now) }
        ensures empty { OnOk result (outs.new ≡ []) }
        ensures takes { TakesOn G.MarkTake take.old take.new result }
    {
        let mut at = 0;
        while at < runs.len() {
            match self.pass_some(instance, &runs[at..], outs, rooms, take) {
                Ok(count) => at += count,
                Err(Stopped) => return Err(Stopped),
            }
        }
        Ok(())
    }

    // The same, and then its floor is told.
    fn pass_runs<G: MarkTake>(
        &mut self,
        instance: u32,
        runs: &[Run],
        outs: &mut Outs,
        rooms: &mut [Outs],
        take: &mut G,
    ) -> Result<(), Stopped>
        requires all { TakesAll G.MarkTake self.old take.old }
        requires within { instance < length (parents_of self.old) }
        requires empty { outs.old ≡ [] }
        ensures same { SameTree M.Machine self.old self.new }
        ensures feeds { TreeFeeds M.Machine G.MarkTake self.old self.new take.old take.new result
            instance (run_items runs.now) }
        ensures empty { OnOk result (outs.new ≡ []) }
        ensures takes { TakesOn G.MarkTake take.old take.new result }
    {
        match self.pass_all(instance, runs, outs, rooms, take) {
            Ok(()) => {
                let floor = self.floor_of(instance);
                mark(take, instance, Mark::Floor(floor))
            }
            Err(Stopped) => Err(Stopped),
        }
    }

    /// Hands runs to each machine that stands on nothing, one machine after another, and what these
    /// put out to those that stand on them. `outs` is room for the outputs of a step, and has none
    /// before and behind; `rooms` is such room for the machines below.
    pub fn hand_runs<G: MarkTake>(
        &mut self,
        runs: &[Run],
        outs: &mut Outs,
        rooms: &mut [Outs],
        take: &mut G,
    ) -> Result<(), Stopped>
        requires all { TakesAll G.MarkTake self.old take.old }
        requires empty { outs.old ≡ [] }
        ensures same { SameTree M.Machine self.old self.new }
        ensures hands { TreeHands M.Machine G.MarkTake self.old self.new take.old take.new result
            None (run_items runs.now) }
        ensures empty { OnOk result (outs.new ≡ []) }
        ensures takes { TakesOn G.MarkTake take.old take.new result }
    {
        let parents = self.parents;
        for (place, parent) in parents.iter().enumerate() {
            if !same_place(*parent, None) {
                continue;
            }
            match self.pass_runs(place as u32, runs, outs, rooms, take) {
                Ok(()) => {}
                Err(Stopped) => return Err(Stopped),
            }
        }
        Ok(())
    }
}
