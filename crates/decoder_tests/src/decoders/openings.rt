// What becomes of settings, by each decoder's own call.
ghost use Rattle.std.specs.Prelude.{◌≤◌, ◌^◌};

use super::feeds::setup_of;
use dec_i2c::{I2c, I2cOpts};
use dec_modbus::ModbusOpts;
use dec_onewire::{OwLink, OwLinkOpts};
use dec_spi::{Spi, SpiOpts};
use dec_uart::{Uart, UartOpts};
use decoder_core::OptFault;
use kind_table::{Kind, OptValues};
use la_base::Rate;
use std::test::Fail;

// A row for each opening: the kind, its values, with a hyphen for one that isn't given, the rate, and what becomes of it. Each
// option at the ends of its range and right behind them; and rates that are just high enough and just not: of a serial line
// also a million samples a second as a fraction whose parts are as large as they can be, of a 1-Wire line such at which a 0
// has one sample, two, and as many as a reset.
const OPENINGS: &str = "\
i2c 0 1 at 1000000/1 > opens
i2c 127 127 at 1000000/1 > opens
i2c 128 1 at 1000000/1 > range
i2c 1 128 at 1000000/1 > range
i2c 4294967295 4294967295 at 1000000/1 > range
spi 128 - 127 127 1 1 32 3 at 1000000/1 > range
spi 127 128 127 127 1 1 32 3 at 1000000/1 > range
spi 0 1 128 2 1 1 8 0 at 1000000/1 > range
spi 127 - 127 128 1 1 32 3 at 1000000/1 > range
spi 127 - 127 127 2 1 32 3 at 1000000/1 > range
spi 127 - 127 127 1 2 32 3 at 1000000/1 > range
spi 127 - 127 127 1 1 0 3 at 1000000/1 > range
spi 127 - 127 127 1 1 33 3 at 1000000/1 > range
spi 127 - 127 127 1 1 32 4 at 1000000/1 > range
spi 127 - - 127 1 1 32 3 at 1000000/1 > range
spi 127 - 127 127 1 1 32 3 at 1000000/1 > opens
uart 127 500 9 4 2 50 at 1000/1 > opens
uart 128 500 8 0 1 50 at 1000/1 > range
uart 0 0 8 0 1 50 at 1000/1 > range
uart 0 10000001 8 0 1 50 at 1000/1 > range
uart 0 500 4 0 1 50 at 1000/1 > range
uart 0 500 10 0 1 50 at 1000/1 > range
uart 0 500 8 5 1 50 at 1000/1 > range
uart 0 500 8 0 0 50 at 1000/1 > range
uart 0 500 8 0 3 50 at 1000/1 > range
uart 0 500 8 0 1 0 at 1000/1 > range
uart 0 500 8 0 1 100 at 1000/1 > range
uart 0 501 8 0 1 50 at 1000/1 > rate
uart 0 9600 8 0 1 50 at 1000/1 > rate
uart 0 10000000 8 0 1 50 at 20000000/1 > opens
uart 0 10000000 8 0 1 50 at 19999999/1 > rate
uart 0 500000 8 0 1 50 at 1000000000000000/1000000000 > opens
uart 0 500001 8 0 1 50 at 1000000000000000/1000000000 > rate
uart 0 990000 8 0 1 99 at 1000000000000000/1000000000 > opens
uart 0 990001 8 0 1 99 at 1000000000000000/1000000000 > rate
uart 0 10000000 8 0 1 99 at 1/18446744073709551615 > rate
onewire_link 0 480000 100000 20000 at 1000000/1 > opens
onewire_link 127 1000000000 1000000000 20000 at 1000000/1 > opens
onewire_link 128 480000 100000 20000 at 1000000/1 > range
onewire_link 0 0 100000 20000 at 1000000/1 > range
onewire_link 0 1000000001 100000 20000 at 1000000/1 > range
onewire_link 0 480000 0 20000 at 1000000/1 > range
onewire_link 0 480000 1000000001 20000 at 1000000/1 > range
onewire_link 0 480000 100000 0 at 1000000/1 > range
onewire_link 0 480000 100000 1000000001 at 1/1 > range
onewire_link 0 480000 100000 20000 at 50000/1 > rate
onewire_link 0 480000 100000 20000 at 50001/1 > opens
onewire_link 0 480000 100000 20000 at 100001/2 > opens
onewire_link 0 480000 100000 20000 at 100000/2 > rate
onewire_link 0 20000 100000 20000 at 1000000/1 > rate
onewire_link 0 20001 100000 20000 at 1000000/1 > opens
onewire_link 0 19999 100000 20000 at 1000000/1 > rate
onewire_link 0 1000000000 1 999999999 at 1000000000000000/1 > opens
modbus 0 at 1000000/1 > range
modbus 1 at 1000000/1 > opens
modbus 1000000000 at 1000000/1 > opens
modbus 1000000001 at 1000000/1 > range
modbus 0 at 1/1000 > range
modbus 1 at 1/1000 > opens
modbus 1000000000 at 1/1000 > opens
modbus 1000000001 at 1/1000 > range
modbus 0 at 1000000000000000/1 > range
modbus 1 at 1000000000000000/1 > opens
modbus 1000000000 at 1000000000000000/1 > opens
modbus 1000000001 at 1000000000000000/1 > range";

// What came of a call.
fn told<T: Drop + Send>(opened: Result<T, OptFault>) -> &'static str {
    match opened {
        Ok(_) => "opens",
        Err(OptFault::Range) => "range",
        Err(OptFault::Rate) => "rate",
    }
}

// The number that an option has, and the line.
fn value(values: &OptValues, place: usize) -> u64 {
    values.at(place).unwrap_or(0)
}

fn line(values: &OptValues, place: usize) -> Option<u32> {
    u32::try_from(values.at(place)?).ok()
}

fn becomes(kind: Kind, v: &OptValues, rate: Rate) -> &'static str
    requires { rate.num ≤ 10 ^ 15 }
{
    let first = line(v, 0).unwrap_or(0);
    match kind {
        Kind::I2c => {
            let sda = line(v, 1).unwrap_or(0);
            told(I2c::open(I2cOpts { scl: first, sda }, rate))
        }
        Kind::Spi => {
            let opts = SpiOpts {
                sck: first,
                mosi: line(v, 1),
                miso: line(v, 2),
                cs: line(v, 3),
                cpol: value(v, 4),
                cpha: value(v, 5),
                bits: value(v, 6),
                mode: value(v, 7),
            };
            told(Spi::open(opts, rate))
        }
        Kind::Uart => {
            let opts = UartOpts {
                rx: first,
                baud: value(v, 1),
                bits: value(v, 2),
                parity: value(v, 3),
                stop: value(v, 4),
                sp: value(v, 5),
            };
            told(Uart::open(opts, rate))
        }
        Kind::OwLink => {
            let opts = OwLinkOpts {
                dq: first,
                reset: value(v, 1),
                window: value(v, 2),
                bit: value(v, 3),
            };
            told(OwLink::open(opts, rate))
        }
        _ => told(dec_modbus::open(ModbusOpts { gap: value(v, 0) }, rate)),
    }
}

// The rate that a fraction is.
fn rate_of(text: &str) -> Rate
    ensures { result.num ≤ 10 ^ 15 }
{
    let (num, den) = text.split_once('/').unwrap_or((text, "1"));
    Rate {
        num: num.parse().unwrap_or(0_u64).clamp(1, 1_000_000_000_000_000),
        den: den.parse().unwrap_or(0_u64).max(1),
    }
}

#[test]
fn settings_open_or_are_refused(rt: HostRuntime) -> Result<(), Fail> {
    for row in OPENINGS.split('\n') {
        let (left, want) = row.split_once(" > ").unwrap_or(("", "?"));
        let (setup, rate) = left.split_once(" at ").unwrap_or(("", ""));
        let (kind, values) = setup_of(setup)?;
        assert!(rt; becomes(kind, &values, rate_of(rate)) == want, "{row}");
    }
    Ok(())
}
