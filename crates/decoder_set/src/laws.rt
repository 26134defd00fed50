// Laws of decoders of any kind.
ghost use Rattle.std.specs.Prelude.{ℕ, ◌≡◌, List, Option};
ghost use Rattle.la_base.specs.declared.samples.Rate.{Rate};
ghost use Rattle.decoder_core.specs.Inputs.{Item};
ghost use Rattle.kind_table.specs.Kinds.{kind_row};
ghost use Rattle.kind_table.specs.declared.kinds.Kind.{Kind};
ghost use Rattle.decoder_set.specs.Opening.{HasConsumed, IsOfSetup, setup_of};
ghost use Rattle.decoder_set.specs.Setups.{outs_by};
ghost use Rattle.decoder_set.specs.Whole.{SameDecoder, carried};

use crate::AnyDecoder;

/// Each kind reads the wire that its row says: what this doesn't carry changes nothing of what it
/// gives. (A law; nothing is done.)
pub fn kinds_read_their_wires()
    ensures { (kind : Kind) (values : List (Option ℕ)) (rate : Rate) (input : List Item)
        → outs_by kind values rate (carried (kind_row kind).input input)
        ≡ outs_by kind values rate input }
{}

/// A decoder's machine is of the kind that its setup names, with the options and the rate of the
/// setup. (A law; nothing is done.)
pub fn machine_is_of_its_setup(decoder: &AnyDecoder)
    ensures { IsOfSetup decoder.now }
{}

/// The input makes the decoder: two decoders of one setup that have consumed the same input hold
/// the same. (A law; nothing is done.)
pub fn one_input_makes_one_decoder(one: &AnyDecoder, other: &AnyDecoder)
    ensures { (input : List Item) → setup_of one.now ≡ setup_of other.now
        → HasConsumed one.now input → HasConsumed other.now input
        → SameDecoder one.now other.now }
{}

// Takes what may move to another thread.
fn is_send<T: Send>(_: &T) {}

/// A decoder may move to another thread. (A law; nothing is done.)
pub fn decoder_is_send(decoder: &AnyDecoder) {
    is_send(decoder);
}
