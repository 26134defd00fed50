// A tree of machines.
ghost use Rattle.std.specs.Prelude.{◌≡◌, ◌≤◌, length};
ghost use Rattle.tree_runs.specs.Passing.{IsForest};

use decoder_core::Machine;

/// Machines that were lent, and the places on which they stand: each behind its own, at most 24.
#[derive(Drop)]
pub struct Tree<'a, 'b, M> {
    pub machines: &'a mut [M],
    pub parents: &'b [Option<u32>],
    ghost forest: { IsForest parents.now },
    ghost few: { length parents.now ≤ 24 },
    ghost each: { length machines.now ≡ length parents.now },
}

impl<M: Machine> Tree<'_, '_, M> {
    ghost use Rattle.std.specs.Prelude.{◌<◌, List};
    ghost use Rattle.decoder_core.specs.Inputs.{Item};
    ghost use Rattle.decoder_core.specs.Packets.{IsFloorOver};
    ghost use Rattle.decoder_core.specs.Promises.{IsFloor};
    ghost use Rattle.std.specs.Prelude.{map, slice_get};
    ghost use Rattle.tree_runs.specs.Machines.{near_at};
    ghost use Rattle.stack_direct.specs.Trees.{defined_in, machines_of, parents_of, stand_in};

    /// The floor of one machine, where nothing is known of what comes.
    pub fn floor_of(&self, instance: u32) -> u64
        requires within { instance < length (parents_of self.now) }
        ensures floor { (input : List Item) → stand_in M.Machine self.now instance input
            → IsFloor ((defined_in M.Machine self.now).whole instance) input result }
        ensures near { (input : List Item) → stand_in M.Machine self.now instance input
            → (defined_in M.Machine self.now).near instance input ≤ result }
    {
        self.floor_over(instance, 0)
    }

    /// The floor of one machine, where each packet that comes to it starts at `above` or later.
    pub fn floor_over(&self, instance: u32, above: u64) -> u64
        requires within { instance < length (parents_of self.now) }
        ensures floor { (input : List Item) → stand_in M.Machine self.now instance input
            → IsFloorOver above ((defined_in M.Machine self.now).whole instance) input result }
        ensures near { (input : List Item) → stand_in M.Machine self.now instance input
            → near_at M.near (slice_get (map M.setup (machines_of self.now)) instance) input above
            ≤ result }
    {
        let machines = &*self.machines;
        machines[instance as usize].floor(above)
    }
}
