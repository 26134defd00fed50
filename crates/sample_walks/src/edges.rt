// A small decoder: what a decoder has to give and to show.
ghost use Rattle.std.specs.Prelude.{◌≡◌, true, [], ◌∷◌, List, ℕ, length};
ghost use Rattle.std.proofs.Common.{refl};
ghost use Rattle.wait_cond.specs.declared.alt.Alt.{Alt};
ghost use Rattle.la_base.specs.declared.wires.Wire.TheVariants.{Nothing};
ghost use Rattle.la_base.specs.Samples.{is_high};
ghost use Rattle.list_cuts.specs.Bits.{bit_of};
ghost use Rattle.sample_walks.specs.Edges.{edge_notes, edge_alts, EndsAtEdge};
ghost use Rattle.sample_walks.specs.laws.EdgeLaws.{edges};
ghost use Rattle.sample_walks.specs.laws.EventDecoders.{one_stop_of, promises_of};
ghost use Rattle.sample_walks.specs.laws.EventDecoders.{quiet_of};

use decoder_core::{Configured, Driver, LogicMachine, Outs, is_send, note_at};
use la_base::{Word, pin};
use wait_cond::{Alt, Cond, Waiter};

/// Gives a note for each edge of line 0: class 0, the place of the edge as start and end, and the
/// level behind it as `a`. It shows what a decoder of samples has to prove.
#[derive(Drop)]
pub struct Edges {}

impl Edges {
    /// It stands for no samples.
    pub fn new() -> Edges
        ensures { EndsAtEdge [] }
    {
        Edges {}
    }
}

// The level of line 0 as a number.
fn level(value: Word) -> u64
    ensures { result ≡ bit_of (is_high value 0) }
{
    pin(value, 0) as u64
}

impl Configured for Edges {
    type Setup = ();

    ghost setup = { λ _. tt };
}

impl LogicMachine for Edges {
    ghost outs = { λ _ list. edge_notes list };

    ghost near = { λ _ list. length list };

    ghost gives = { λ _. Nothing };

    ghost stands = { λ _ list. EndsAtEdge list };

    ghost alts = { λ _. edge_alts };

    fn cond(&self) -> Cond {
        Cond::one(Alt {
            low: 0,
            high: 0,
            rise: 0,
            fall: 0,
            edge: 1,
            steady: 0,
            skip: 0,
        })
    }

    fn wait(&self, waiter: &mut Waiter) {
        waiter.renew(self.cond());
    }

    fn resume(&mut self, at: u64, value: Word, _met: u8, into: &mut Outs) -> bool {
        into.push(note_at(0, at, level(value)));
        false
    }

    fn floor(&self, next: u64) -> u64 {
        next
    }

    ghost quiet = { λ _ seen more ends rests. quiet_of edges tt seen more (ends, refl) rests };

    ghost nothing = { λ _. (promises_of edges).nothing };

    ghost prefix = { λ _. (promises_of edges).prefix };

    ghost order = { λ _. (promises_of edges).order };

    ghost few = { λ _. (promises_of edges).few };

    ghost on_wire = { λ _. (promises_of edges).on_wire };

    ghost one_machine = { λ _ _ _ _ _ _. refl };

    ghost one_stop = { λ _ _ seen more _ ends also rests.
        one_stop_of edges tt seen more (ends, refl) rests also };
}

// It may move to another thread, and so may what drives it.
fn machine_is_send() {
    is_send::<Driver<Edges>>();
}
