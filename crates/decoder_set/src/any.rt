// A decoder of any kind.
ghost use Rattle.std.specs.Prelude.{◌≡◌, None};
ghost use Rattle.la_base.specs.declared.samples.TheConstants.{MOST_PINS};
ghost use Rattle.decoder_set.specs.Faults.{open_fault};
ghost use Rattle.decoder_set.specs.Owning.{IsOwn};
ghost use Rattle.decoder_set.specs.laws.OwnLaws.{own_prop};

use crate::Setup;
use crate::any_machine::AnyMachine;

/// A decoder of any kind, with its kind, options and rate.
#[derive(Drop)]
pub struct AnyDecoder {
    pub(crate) setup: Setup,
    pub(crate) machine: AnyMachine,
    ghost own: { IsOwn setup machine } by { own_prop setup machine },
    ghost opened: { open_fault MOST_PINS setup.kind setup.values.given setup.rate ≡ None },
}
