// Handing a packet down a tree.
ghost use Rattle.std.specs.Prelude.{◌≡◌, ◌≢◌, ◌<◌, ◌≤◌, ◌∷◌, [], ℕ, List, length};
ghost use Rattle.decoder_core.specs.Inputs.{Item, Pack};
ghost use Rattle.stack_direct.specs.Trees.{SameTree, TakesAll, TakesOn, TreeFeeds, TreeGives};
ghost use Rattle.stack_direct.specs.Trees.{TreeHands, handed_of, parents_of};

use crate::parts::{has_child, mark, same_place, step_packet_at, tell};
use crate::tree::Tree;
use decoder_core::{Machine, Outs};
use la_base::{Mark, Out, Packet};
use tree_io::{MarkTake, Stopped};

impl<M: Machine> Tree<'_, '_, M> {
    /// Hands a packet to each machine that stands on `above`, and what these put out to those that
    /// stand on them. `rooms` is room for the outputs of steps, one for each depth as far as it
    /// reaches: to make room anew for each packet fills it with default values.
    #[cycle(tree)]
    #[inline(always)]
    pub fn hand<G: MarkTake>(
        &mut self,
        above: Option<u32>,
        packet: &Packet,
        rooms: &mut [Outs],
        take: &mut G,
    ) -> Result<(), Stopped>
        requires all { TakesAll G.MarkTake self.old take.old }
        ensures same { SameTree M.Machine self.old self.new }
        ensures hands { TreeHands M.Machine G.MarkTake self.old self.new take.old take.new result
            above (Pack packet.now ∷ []) }
        ensures takes { TakesOn G.MarkTake take.old take.new result }
    {
        let parents = self.parents;
        for (place, parent) in parents.iter().enumerate() {
            if !same_place(*parent, above) {
                continue;
            }
            match self.pass(place as u32, packet, rooms, take) {
                Ok(()) => {}
                Err(Stopped) => return Err(Stopped),
            }
        }
        Ok(())
    }

    /// Hands a packet to one machine, and what it puts out to those that stand on it; then its
    /// floor is told.
    #[cycle(tree)]
    #[inline(never)]
    pub fn pass<G: MarkTake>(
        &mut self,
        instance: u32,
        packet: &Packet,
        rooms: &mut [Outs],
        take: &mut G,
    ) -> Result<(), Stopped>
        requires all { TakesAll G.MarkTake self.old take.old }
        requires within { instance < length (parents_of self.old) }
        ensures same { SameTree M.Machine self.old self.new }
        ensures feeds { TreeFeeds M.Machine G.MarkTake self.old self.new take.old take.new result
            instance (Pack packet.now ∷ []) }
        ensures takes { TakesOn G.MarkTake take.old take.new result }
    {
        match rooms.split_first_mut() {
            Some((outs, deeper)) => {
                outs.clear();
                self.pass_in(instance, packet, outs, deeper, take)
            }
            None => self.pass_anew(instance, packet, take),
        }
    }

    /// The same, with room that is made anew.
    #[cycle(tree)]
    #[inline(never)]
    pub fn pass_anew<G: MarkTake>(
        &mut self,
        instance: u32,
        packet: &Packet,
        take: &mut G,
    ) -> Result<(), Stopped>
        requires all { TakesAll G.MarkTake self.old take.old }
        requires within { instance < length (parents_of self.old) }
        ensures same { SameTree M.Machine self.old self.new }
        ensures feeds { TreeFeeds M.Machine G.MarkTake self.old self.new take.old take.new result
            instance (Pack packet.now ∷ []) }
        ensures takes { TakesOn G.MarkTake take.old take.new result }
    {
        let mut rooms = [Outs::new(), Outs::new(), Outs::new()];
        self.pass(instance, packet, &mut rooms, take)
    }

    /// The same, with room for its outputs.
    #[cycle(tree)]
    #[inline(always)]
    pub fn pass_in<G: MarkTake>(
        &mut self,
        instance: u32,
        packet: &Packet,
        outs: &mut Outs,
        rooms: &mut [Outs],
        take: &mut G,
    ) -> Result<(), Stopped>
        requires all { TakesAll G.MarkTake self.old take.old }
        requires within { instance < length (parents_of self.old) }
        requires empty { outs.old ≡ [] }
        ensures same { SameTree M.Machine self.old self.new }
        ensures feeds { TreeFeeds M.Machine G.MarkTake self.old self.new take.old take.new result
            instance (Pack packet.now ∷ []) }
        ensures takes { TakesOn G.MarkTake take.old take.new result }
    {
        step_packet_at(self.machines, instance, *packet, outs);
        match self.give(instance, outs.list(), rooms, take) {
            Ok(()) => {}
            Err(Stopped) => return Err(Stopped),
        }
        let floor = self.floor_of(instance);
        mark(take, instance, Mark::Floor(floor))
    }

    /// Gives the outputs of one machine: notes and pieces as marks, packets to those that stand on
    /// it.
    #[cycle(tree)]
    #[inline(always)]
    pub fn give<G: MarkTake>(
        &mut self,
        instance: u32,
        outs: &[Out],
        rooms: &mut [Outs],
        take: &mut G,
    ) -> Result<(), Stopped>
        requires all { TakesAll G.MarkTake self.old take.old }
        requires within { instance < length (parents_of self.old) }
        ensures same { SameTree M.Machine self.old self.new }
        ensures gives { TreeGives M.Machine G.MarkTake self.old self.new take.old take.new result
            instance outs.now }
        ensures takes { TakesOn G.MarkTake take.old take.new result }
    {
        match tell(take, instance, outs) {
            Ok(()) => {
                if !has_child(self.parents, instance) {
                    return Ok(());
                }
                self.hand_each(instance, outs, rooms, take)
            }
            Err(Stopped) => Err(Stopped),
        }
    }

    /// Hands the packets among outputs of a machine to those that stand on it.
    #[cycle(tree)]
    #[inline(always)]
    pub fn hand_each<G: MarkTake>(
        &mut self,
        instance: u32,
        outs: &[Out],
        rooms: &mut [Outs],
        take: &mut G,
    ) -> Result<(), Stopped>
        requires all { TakesAll G.MarkTake self.old take.old }
        requires within { instance < length (parents_of self.old) }
        ensures same { SameTree M.Machine self.old self.new }
        ensures gives { TreeGives M.Machine G.MarkTake self.old self.new take.old take.new result
            instance (handed_of outs.now) }
        ensures takes { TakesOn G.MarkTake take.old take.new result }
    {
        for out in outs {
            match self.hand_one(instance, out, rooms, take) {
                Ok(()) => {}
                Err(Stopped) => return Err(Stopped),
            }
        }
        Ok(())
    }

    /// Hands an output of a machine, where it is a packet, to those that stand on it.
    #[cycle(tree)]
    #[inline(always)]
    pub fn hand_one<G: MarkTake>(
        &mut self,
        instance: u32,
        out: &Out,
        rooms: &mut [Outs],
        take: &mut G,
    ) -> Result<(), Stopped>
        requires all { TakesAll G.MarkTake self.old take.old }
        requires within { instance < length (parents_of self.old) }
        ensures same { SameTree M.Machine self.old self.new }
        ensures gives { TreeGives M.Machine G.MarkTake self.old self.new take.old take.new result
            instance (handed_of (out.now ∷ [])) }
        ensures takes { TakesOn G.MarkTake take.old take.new result }
    {
        match out {
            Out::Note(_) => Ok(()),
            Out::Piece(_) => Ok(()),
            Out::Packet(packet) => self.hand(Some(instance), packet, rooms, take),
        }
    }
}
