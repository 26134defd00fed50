// How a decoder is opened.
ghost use Rattle.std.specs.Prelude.{◌≤◌, ◌^◌, MatchBool};
ghost use Rattle.dec_modbus.specs.Opening.{InRange, Opens};

use crate::{Line, Modbus, ModbusOpts};
use decoder_core::OptFault;
use la_base::Rate;
use packet_walks::Walking;
use rate_math::samples_of_ns;

const MOST_NS: u64 = 1_000_000_000;

// Whether the option is in its range.
fn in_range(opts: ModbusOpts) -> bool
    ensures { MatchBool result (InRange opts) (¬ InRange opts) }
{
    opts.gap >= 1 && opts.gap <= MOST_NS
}

/// Opens a decoder of these options at this rate; it stands for no packets. Answers Range exactly
/// where `gap` isn't 1 to 10^9 ns, and never Rate.
pub fn open(opts: ModbusOpts, rate: Rate) -> Result<Modbus, OptFault>
    requires { rate.num ≤ 10 ^ 15 }
    ensures { Opens opts rate result }
{
    if !in_range(opts) {
        return Err(OptFault::Range);
    }
    Ok(Walking::new(Line {
        opts,
        rate,
        gap: samples_of_ns(rate, opts.gap),
    }))
}
