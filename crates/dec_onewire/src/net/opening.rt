// How a decoder of the network is opened.
ghost use Rattle.std.specs.Prelude.{[]};
ghost use Rattle.dec_onewire.specs.Opening.{NetOpens};

use super::{OwNet, OwNetOpts};
use decoder_core::OptFault;
use la_base::Rate;
use packet_walks::Walking;

/// Opens a decoder at any rate; it stands for no packets. There is nothing to refuse.
pub fn open(opts: OwNetOpts, _rate: Rate) -> Result<OwNet, OptFault>
    ensures { NetOpens result }
{
    Ok(Walking::new(opts))
}
