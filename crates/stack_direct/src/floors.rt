// Floors that go down a tree.
ghost use Rattle.std.specs.Prelude.{◌≡◌, ◌<◌, ◌≤◌, ℕ, List, OnOk, Some, length, slice_get};
ghost use Rattle.std.specs.Result.{is_ok};
ghost use Rattle.stack_direct.specs.Trees.{TakesAll, TakesOn, TreeKnows, TreeLeast, TreeLow};
ghost use Rattle.stack_direct.specs.Trees.{TreeStands, TreeTells, parents_of};

use crate::parts::mark;
use crate::tree::Tree;
use decoder_core::Machine;
use la_base::Mark;
use tree_io::{MarkTake, Stopped};

impl<M: Machine> Tree<'_, '_, M> {
    // The floor of one machine, by that of the one that it stands on.
    fn floor_by(&self, instance: u32, above: Option<u32>, floors: &[u64]) -> u64
        requires within { instance < length (parents_of self.now) }
        requires at { slice_get (parents_of self.now) instance ≡ Some above }
        requires room { length (parents_of self.now) ≤ length floors.now }
        requires known { TreeKnows M.Machine self.now floors.now instance }
        ensures low { (samples : List ℕ) → TreeStands M.Machine self.now samples
            → TreeLow M.Machine self.now samples instance result }
        ensures least { (samples : List ℕ) → TreeStands M.Machine self.now samples
            → TreeLeast M.Machine self.now floors.now samples instance result }
    {
        match above {
            Some(parent) => self.floor_over(instance, floors[parent as usize]),
            None => self.floor_over(instance, 0),
        }
    }

    /// Tells the floor of each machine, by that of the one that it stands on, in their order.
    /// `floors` is room for one of each.
    pub fn tell_floors<G: MarkTake>(&self, floors: &mut [u64], take: &mut G) -> Result<(), Stopped>
        requires all { TakesAll G.MarkTake self.now take.old }
        requires room { length (parents_of self.now) ≤ length floors.old }
        ensures len { length floors.new ≡ length floors.old }
        ensures known { OnOk result (TreeKnows M.Machine self.now floors.new
            (length (parents_of self.now))) }
        ensures tells { TreeTells M.Machine self.now (is_ok result)
            (G.took take.old) (G.took take.new) floors.new }
        ensures takes { TakesOn G.MarkTake take.old take.new result }
    {
        let parents = self.parents;
        for (place, parent) in parents.iter().enumerate() {
            let floor = self.floor_by(place as u32, *parent, floors);
            floors[place] = floor;
            match mark(take, place as u32, Mark::Floor(floor)) {
                Ok(()) => {}
                Err(Stopped) => return Err(Stopped),
            }
        }
        Ok(())
    }
}
