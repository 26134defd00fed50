// What a decoder is, by the outputs of its whole input.
ghost use Rattle.std.specs.Prelude.{◌≡◌, ◌≤◌, ◌<◌, ◌+◌, ◌^◌, [], ◌∷◌, ◌++◌, ℕ, List, length, take};
ghost use Rattle.std.specs.Prelude.{false, ◌≢◌};
ghost use Rattle.la_base.specs.Runs.{samples_of};
ghost use Rattle.la_base.specs.declared.wires.Out.{Out};
ghost use Rattle.la_base.specs.declared.wires.Wire.{Wire};
ghost use Rattle.wait_cond.specs.declared.alt.Alt.{Alt};
ghost use Rattle.wait_cond.specs.Conds.{IsFall, IsTimer, cond_alts};
ghost use Rattle.wait_cond.specs.Waiting.{Waits, alts_of, wait_from, consumed_by, last_of};
ghost use Rattle.decoder_core.specs.Inputs.{Item, left_feed};
ghost use Rattle.decoder_core.specs.Promises.{IsFloor, GivesFrom, GivesNothing, GivesOn};
ghost use Rattle.decoder_core.specs.Promises.{KeepsFront};
ghost use Rattle.decoder_core.specs.Promises.{PacketsInOrder, AddsFew, Rests, IsQuiet, IsLoud};
ghost use Rattle.decoder_core.specs.Promises.{StandsThere, OneMachine, OneLastStop};
ghost use Rattle.la_base.specs.declared.wires.Packet.{Packet};
ghost use Rattle.decoder_core.specs.Packets.{AllCount, IsFloorOver, IsPacketFloor};
ghost use Rattle.decoder_core.specs.Packets.{OnePacketMachine};
ghost use Rattle.decoder_core.specs.Packets.{PacketsStayInOrder, last_start};
ghost use Rattle.decoder_core.specs.Driving.{LeavesFewer, ReachesStop, Steps, StepsRuns, StopsFirst};

use crate::Outs;
use la_base::{Feed, Packet, Run, Wire, Word};
use wait_cond::{Cond, Waiter};

/// What is set when a machine is opened, and stays from then on.
pub trait Configured {
    /// Kind, options and rate, as plain data.
    type Setup;

    /// Its kind, options and rate. No call changes them.
    ghost setup: { Self → Self.Setup };
}

/// A decoder of samples, between two stops. It waits for a condition; what it does at a sample that
/// meets it is all that it does. Every call is safe for every value of the type, also for one that
/// stands for no samples; what is said of samples is said of all those that the value stands for.
pub trait LogicMachine: Configured {
    /// The outputs of a whole list of samples, by the decoder's definition.
    ghost outs: { Self.Setup → List ℕ → List Out };

    /// Where what has begun in these samples and isn't given yet starts; their number where nothing
    /// has.
    ghost near: { Self.Setup → List ℕ → ℕ };

    /// The wire of the packets that it puts out; Nothing where it puts none out.
    ghost gives: { Self.Setup → Wire };

    /// It stands for these samples, the last of which is its last stop.
    ghost stands: { Self → List ℕ → Type 0 };

    /// The alternatives that it waits for.
    ghost alts: { Self → List Alt };

    /// The condition of its next stop.
    fn cond(&self) -> Cond
        ensures { cond_alts result ≡ alts self.now };

    /// Begins the wait for its next stop. The last sample that was consumed must be the last stop.
    fn wait(&self, waiter: &mut Waiter)
        requires { wait_from waiter.old ≡ consumed_by waiter.old }
        ensures waits { (list : List ℕ) → Waits waiter.old list → Waits waiter.new list }
        ensures from { wait_from waiter.new ≡ wait_from waiter.old }
        ensures alts { alts_of waiter.new ≡ alts self.now }
        ensures consumed { consumed_by waiter.new ≡ consumed_by waiter.old }
        ensures last { last_of waiter.new ≡ last_of waiter.old };

    /// Takes the stop at sample number `at`, whose value is `value`; bit i of `met` says whether it
    /// meets alternative i. *Loud*: the outputs grow by those that are put into `into`, behind those
    /// that are there, in their order, and by nothing else. Answers whether it may wait for
    /// something else now; where it doesn't, `wait` isn't called.
    fn resume(&mut self, at: u64, value: Word, met: u8, into: &mut Outs) -> bool
        requires room { length into.old ≤ 16 }
        requires early { at < 2 ^ 60 }
        ensures setup { Self.setup self.new ≡ Self.setup self.old }
        ensures stands { StandsThere (stands self.old) (stands self.new)
            (alts self.old) at value met }
        ensures loud { IsLoud (outs (Self.setup self.old)) (stands self.old)
            (alts self.old) at value met into.old into.new }
        ensures waits { result ≡ false → alts self.new ≡ alts self.old };

    /// The samples that it skips up to its next stop, where it waits for a time alone; else 0, and
    /// it may answer 0 there too. It is for speed alone.
    #[inline(always)]
    fn skip(&self) -> u64
        ensures timer { result ≢ 0 → IsTimer (alts self.now) result }
    {
        0
    }

    /// The lines of the lower half of a sample that must all fall at its next stop, where it waits
    /// for that alone; else 0, and it may answer 0 there too. It is for speed alone.
    #[inline(always)]
    fn falls(&self) -> u64
        ensures fall { result ≢ 0 → IsFall (alts self.now) result }
    {
        0
    }

    /// At most the start of every note and of every packet that is still to come, where `next` is
    /// the number of samples consumed so far; and at least the start of what has begun and isn't
    /// given yet.
    fn floor(&self, next: u64) -> u64
        ensures floor { (seen more : List ℕ) → stands self.now seen
            → Rests (alts self.now) seen more
            → next ≡ length (seen ++ more)
            → IsFloor (outs (Self.setup self.now)) (seen ++ more) result }
        ensures packets { (seen more : List ℕ) → stands self.now seen
            → Rests (alts self.now) seen more
            → next ≡ length (seen ++ more)
            → GivesFrom (outs (Self.setup self.now)) (seen ++ more) result }
        ensures near { (seen more : List ℕ) → stands self.now seen → Rests (alts self.now) seen more
            → next ≡ length (seen ++ more) → near (Self.setup self.now) (seen ++ more) ≤ result };

    /// *Quiet*: samples that don't meet the condition leave the outputs as they were.
    ghost quiet: { (machine : Self)
        → IsQuiet (outs (Self.setup machine)) (stands machine) (alts machine) };

    /// *Nothing*: no samples give nothing.
    ghost nothing: { (machine : Self) → GivesNothing (outs (Self.setup machine)) };

    /// *Prefix*: the outputs of more samples begin with those of fewer.
    ghost prefix: { (machine : Self) → KeepsFront (outs (Self.setup machine)) };

    /// *Order*: the starts of the packets never fall.
    ghost order: { (machine : Self) → PacketsInOrder (outs (Self.setup machine)) };

    /// *Few*: one more sample adds at most 16 outputs.
    ghost few: { (machine : Self) → AddsFew (outs (Self.setup machine)) };

    /// *Wire*: each packet that is put out is of that wire.
    ghost on_wire: { (machine : Self)
        → GivesOn (gives (Self.setup machine)) (outs (Self.setup machine)) };

    /// *One machine*: two machines of one setup that stand for the same samples are equal.
    ghost one_machine: { OneMachine Self.setup stands };

    /// *One stop*: the samples and the setup fix the place of the last stop. Where one machine has
    /// no further stop, another of its setup has none either.
    ghost one_stop: { OneLastStop Self.setup stands alts };
}

/// A decoder of packets, between two packets that count. Every call is safe for every value of the
/// type, also for one that stands for no packets; what is said of packets is said of all those that
/// the value stands for, and speaks of packets that all count.
pub trait PacketMachine: Configured {
    /// The wire of the packets that it wants.
    ghost wire: { Self.Setup → Wire };

    /// The wire of the packets that it puts out; Nothing where it puts none out.
    ghost gives: { Self.Setup → Wire };

    /// The outputs of a whole list of packets that count, by the decoder's definition.
    ghost outs: { Self.Setup → List Packet → List Out };

    /// Where what has begun in these packets and may still give notes starts; where nothing has,
    /// the place from which on all that come start.
    ghost near: { Self.Setup → List Packet → ℕ → ℕ };

    /// It stands for these packets.
    ghost stands: { Self → List Packet → Type 0 };

    /// The wire of the packets that it wants.
    fn wants(&self) -> Wire
        ensures { result ≡ wire (Self.setup self.now) };

    /// Takes the next packet that counts. *Loud*: the outputs grow by those that are put into
    /// `into`, in their order, and by nothing else.
    fn accept(&mut self, packet: Packet, into: &mut Outs)
        requires empty { into.old ≡ [] }
        ensures setup { Self.setup self.new ≡ Self.setup self.old }
        ensures stands { (seen : List Packet) → stands self.old seen
            → AllCount (wire (Self.setup self.old)) (seen ++ packet ∷ [])
            → stands self.new (seen ++ packet ∷ []) }
        ensures loud { (seen : List Packet) → stands self.old seen
            → AllCount (wire (Self.setup self.old)) (seen ++ packet ∷ [])
            → outs (Self.setup self.old) (seen ++ packet ∷ [])
            ≡ outs (Self.setup self.old) seen ++ into.new };

    /// At most the start of every note and of every packet that is still to come, where all packets
    /// that come start at `from` or later, which is no earlier than the last one; and at least the
    /// start of what has begun and may still give notes, or `from`.
    fn floor(&self, from: u64) -> u64
        ensures floor { (seen : List Packet) → stands self.now seen → last_start 0 seen ≤ from
            → IsPacketFloor (wire (Self.setup self.now)) (outs (Self.setup self.now)) seen from
            result }
        ensures near { (seen : List Packet) → stands self.now seen → last_start 0 seen ≤ from
            → near (Self.setup self.now) seen from ≤ result };

    /// *Nothing*: no packets give nothing.
    ghost nothing: { (machine : Self) → GivesNothing (outs (Self.setup machine)) };

    /// *Prefix*: the outputs of more packets begin with those of fewer.
    ghost prefix: { (machine : Self) → KeepsFront (outs (Self.setup machine)) };

    /// *Order*: where the packets count, the starts of those that are put out never fall.
    ghost order: { (machine : Self)
        → PacketsStayInOrder (wire (Self.setup machine)) (outs (Self.setup machine)) };

    /// *Few*: one more packet adds at most 16 outputs.
    ghost few: { (machine : Self) → AddsFew (outs (Self.setup machine)) };

    /// *Wire*: each packet that is put out is of the wire that it gives.
    ghost on_wire: { (machine : Self)
        → GivesOn (gives (Self.setup machine)) (outs (Self.setup machine)) };

    /// *One machine*: two machines of one setup that stand for the same packets are equal.
    ghost one_machine: { OnePacketMachine Self.setup stands };
}

/// What was taken of runs: how many, and what is left of the last of them, if anything is.
#[derive(Clone, Copy, PartialEq, Eq)]
pub struct Taken {
    pub count: usize,
    pub rest: Option<Run>,
}

/// A decoder of any input, stop by stop. What is said of inputs is said of all those that the
/// machine has consumed; the rest holds of every value of the type.
pub trait Machine {
    /// Kind, options and rate, as plain data.
    type Setup;

    /// Its kind, options and rate. No call changes them.
    ghost setup: { Self → Self.Setup };

    /// The outputs of a whole input, by the decoder's definition.
    ghost outputs: { Self.Setup → List Item → List Out };

    /// Where what has begun in this input and isn't given yet starts, where all packets that come
    /// start at this sample or later.
    ghost near: { Self.Setup → List Item → ℕ → ℕ };

    /// The wire that it wants.
    ghost wire: { Self.Setup → Wire };

    /// The wire of the packets that it puts out; Nothing where it puts none out.
    ghost gives: { Self.Setup → Wire };

    /// It has consumed this input.
    ghost consumed: { Self → List Item → Type 0 };

    /// Behind an input that it has consumed, no item of the second list is a stop.
    ghost sleeps: { Self → List Item → List Item → Type 0 };

    /// The wire that it wants.
    fn wants(&self) -> Wire
        ensures { result ≡ wire (setup self.now) };

    /// Consumes a feed up to its first stop, and whole where it has none; puts the outputs of that
    /// stop into `into`, and answers what is left of a run, if anything is. What doesn't count for
    /// this decoder is consumed whole and gives nothing. `End` gives nothing and answers None.
    fn step(&mut self, feed: Feed, into: &mut Outs) -> Option<Feed>
        requires { into.old ≡ [] }
        ensures setup { setup self.new ≡ setup self.old }
        ensures step { Steps (consumed self.old) (consumed self.new)
            (outputs (setup self.old)) feed result into.new }
        ensures stops { StopsFirst (consumed self.old) (sleeps self.old) feed result };

    /// Takes runs, from the first one on, at least one where there is one, and consumes their
    /// samples but for what it answers as left of the last of them, which isn't all. The outputs of what was
    /// consumed are put into `into`. How far it goes is speed alone; no clause says it.
    fn step_runs(&mut self, runs: &[Run], into: &mut Outs) -> Taken
        requires { into.old ≡ [] }
        ensures setup { setup self.new ≡ setup self.old }
        ensures within { result.count ≤ length runs.now }
        ensures some { 0 < length runs.now → 0 < result.count }
        ensures steps { StepsRuns (consumed self.old) (consumed self.new) (outputs (setup self.old))
            (samples_of (take result.count runs.now)) result.rest into.new }
        ensures fewer { LeavesFewer (samples_of (take result.count runs.now)) result.rest };

    /// As `step`, for the feed of a run; but it may go on behind the first stop, as far as there is
    /// no other. So mostly nothing is left.
    fn step_run(&mut self, run: Run, into: &mut Outs) -> Option<Run>
        requires { into.old ≡ [] }
        ensures setup { setup self.new ≡ setup self.old }
        ensures step { Steps (consumed self.old) (consumed self.new) (outputs (setup self.old))
            (Feed.Run run) (left_feed result) into.new }
        ensures stops { ReachesStop (consumed self.old) (sleeps self.old) (Feed.Run run)
            (left_feed result) };

    /// At most the start of every note and of every packet that is still to come, where all packets
    /// that come start at `above` or later; and at least the start of what has begun and isn't
    /// given yet.
    fn floor(&self, above: u64) -> u64
        ensures floor { (input : List Item) → consumed self.now input
            → IsFloorOver above (outputs (setup self.now)) input result }
        ensures near { (input : List Item) → consumed self.now input
            → near (setup self.now) input above ≤ result };

    /// *Nothing*: no input gives nothing.
    ghost nothing: { (machine : Self) → GivesNothing (outputs (setup machine)) };

    /// *Prefix*: the outputs of a longer input begin with those of a shorter one.
    ghost prefix: { (machine : Self) → KeepsFront (outputs (setup machine)) };

    /// *Order*: the starts of the packets never fall.
    ghost order: { (machine : Self) → PacketsInOrder (outputs (setup machine)) };

    /// *Few*: one more sample or packet adds at most 16 outputs.
    ghost few: { (machine : Self) → AddsFew (outputs (setup machine)) };

    /// *Wire*: each packet that is put out is of the wire that it gives.
    ghost on_wire: { (machine : Self) → GivesOn (gives (setup machine)) (outputs (setup machine)) };
}
