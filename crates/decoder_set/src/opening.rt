// How a decoder of any kind is opened.
ghost use Rattle.std.specs.Prelude.{◌≡◌, ◌≤◌, ◌^◌, true, false, [], IfOk, IfErr, OnErr, OnOk};
ghost use Rattle.la_base.specs.declared.samples.TheConstants.{MOST_PINS};
ghost use Rattle.decoder_core.specs.declared.faults.OptFault.TheVariants.{Rate as TooSlow};
ghost use Rattle.decoder_set.specs.Faults.{too_slow};
ghost use Rattle.decoder_set.specs.Opening.{Consumed, ConsumedAs, Opens};
ghost use Rattle.decoder_set.specs.declared.any_machine.AnyMachine.TheVariants as AnyMachine;
ghost use Rattle.kind_table.specs.Values.{in_range};

use crate::any_machine::AnyMachine;
use crate::options::{
    clock_options, eeprom_options, i2c_options, link_options, lm75_options, modbus_options,
    spi_options, uart_options,
};
use crate::{AnyDecoder, Setup};
use dec_i2c::I2c;
use dec_midi::MidiOpts;
use dec_onewire::{OwLink, OwNetOpts, net};
use dec_spi::Spi;
use dec_uart::Uart;
use decoder_core::{Driver, Follower, OptFault};
use dev_ds18b20::{Probe, ProbeOpts};
use dev_ds1307::Clock;
use dev_eeprom24::Eeprom;
use dev_flash25::{Flash, FlashOpts};
use dev_lm75::Lm75;
use kind_table::{Kind, OptValues, in_range};
use la_base::Rate;

// A decoder of a serial line with values in range. Its rate is compared by two products, so that
// this is shown by itself.
fn open_uart(values: &OptValues, rate: Rate) -> Result<Driver<Uart>, OptFault>
    requires range { in_range MOST_PINS Kind.Uart values.now.given ≡ true }
    requires rate { rate.num ≤ 10 ^ 15 }
    ensures opens { IfOk result
        (λ driver. ConsumedAs values.now.given rate (AnyMachine.Uart driver) []) }
    ensures fast { OnOk result (too_slow Kind.Uart values.now.given rate ≡ false) }
    ensures slow { OnErr result (too_slow Kind.Uart values.now.given rate ≡ true) }
    ensures fault { IfErr result (λ fault. fault ≡ TooSlow) }
{
    match Uart::open(uart_options(values), rate) {
        Ok(machine) => Ok(Driver::new(machine)),
        Err(fault) => Err(fault),
    }
}

// A machine of a kind, of values in range.
fn open_machine(kind: Kind, values: &OptValues, rate: Rate) -> Result<AnyMachine, OptFault>
    requires range { in_range MOST_PINS kind values.now.given ≡ true }
    requires rate { rate.num ≤ 10 ^ 15 }
    ensures opens { IfOk result (λ machine. Consumed kind values.now.given rate machine []) }
    ensures fast { OnOk result (too_slow kind values.now.given rate ≡ false) }
    ensures slow { OnErr result (too_slow kind values.now.given rate ≡ true) }
    ensures fault { IfErr result (λ fault. fault ≡ TooSlow) }
{
    match kind {
        Kind::I2c => Ok(AnyMachine::I2c(Driver::new(I2c::open(i2c_options(values), rate)?))),
        Kind::Spi => Ok(AnyMachine::Spi(Driver::new(Spi::open(spi_options(values), rate)?))),
        Kind::Uart => Ok(AnyMachine::Uart(open_uart(values, rate)?)),
        Kind::OwLink => Ok(AnyMachine::OwLink(Driver::new(OwLink::open(
            link_options(values),
            rate,
        )?))),
        Kind::OwNet => Ok(AnyMachine::OwNet(Follower::new(net::open(OwNetOpts {}, rate)?))),
        Kind::Eeprom24 => Ok(AnyMachine::Eeprom24(Follower::new(Eeprom::open(
            eeprom_options(values),
            rate,
        )?))),
        Kind::Ds1307 => Ok(AnyMachine::Ds1307(Follower::new(Clock::open(
            clock_options(values),
            rate,
        )?))),
        Kind::Lm75 => Ok(AnyMachine::Lm75(Follower::new(Lm75::open(lm75_options(values), rate)?))),
        Kind::Ds18b20 => Ok(AnyMachine::Ds18b20(Follower::new(Probe::open(ProbeOpts {}, rate)?))),
        Kind::Flash25 => Ok(AnyMachine::Flash25(Follower::new(Flash::open(FlashOpts {}, rate)?))),
        Kind::Modbus => Ok(AnyMachine::Modbus(Follower::new(dec_modbus::open(
            modbus_options(values),
            rate,
        )?))),
        Kind::Midi => Ok(AnyMachine::Midi(Follower::new(dec_midi::open(MidiOpts {}, rate)?))),
    }
}

impl AnyDecoder {
    /// Opens a decoder of a kind with these options at a rate; it has consumed nothing. `Range`
    /// comes exactly where an option isn't in its range: a channel that is required and not given,
    /// or that isn't one of the bits of a sample; a number that is too small or too large; a place
    /// behind the words of a choice; or where of some options at least one has to be given, and
    /// none is. `Rate` comes where the options are in range and the rate is too low for them: only
    /// a serial line and the link of a 1-Wire line ask for one.
    pub fn open(kind: Kind, values: OptValues, rate: Rate) -> Result<AnyDecoder, OptFault>
        requires { rate.num ≤ 10 ^ 15 }
        ensures { Opens MOST_PINS kind values rate result }
    {
        if !in_range(kind, &values) {
            return Err(OptFault::Range);
        }
        match open_machine(kind, &values, rate) {
            Ok(machine) => {
                let setup = Setup { kind, values, rate };
                Ok(AnyDecoder { setup, machine })
            }
            Err(fault) => Err(fault),
        }
    }
}
