// What is set when a decoder of messages is opened.
ghost use Rattle.std.specs.Prelude.{◌≡◌};
ghost use Rattle.dec_modbus.specs.Modbus.{gap_of};

use crate::ModbusOpts;
use la_base::Rate;

/// The options, and the rate of the samples. The gap in samples is that of the options at the rate;
/// it is held, so that it isn't worked out at each packet.
#[derive(Drop)]
pub struct Line {
    pub(crate) opts: ModbusOpts,
    pub(crate) rate: Rate,
    pub(crate) gap: u64,
    ghost gap_is: { gap ≡ gap_of opts rate },
}
