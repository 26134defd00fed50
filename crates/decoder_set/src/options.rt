// The options of each kind by their names.
ghost use Rattle.std.specs.Prelude.{◌≡◌, true};
ghost use Rattle.la_base.specs.declared.samples.TheConstants.{MOST_PINS};
ghost use Rattle.dec_i2c.specs.Opening.{InRange};
ghost use Rattle.dec_modbus.specs.Opening.{InRange as ModbusInRange};
ghost use Rattle.dec_spi.specs.Opening.{InRange as SpiInRange};
ghost use Rattle.dec_uart.specs.Ranges.{InRange as UartInRange};
ghost use Rattle.dec_onewire.specs.Opening.{LinkInRange};
ghost use Rattle.dev_ds1307.specs.Opening.{InRange as ClockInRange};
ghost use Rattle.dev_eeprom24.specs.Opening.{InRange as EepromInRange};
ghost use Rattle.dev_lm75.specs.Opening.{InRange as Lm75InRange};
ghost use Rattle.decoder_set.specs.Options.{clock_options, eeprom_options, i2c_options};
ghost use Rattle.decoder_set.specs.Options.{link_options, lm75_options, modbus_options};
ghost use Rattle.decoder_set.specs.Options.{spi_options, uart_options};
ghost use Rattle.kind_table.specs.Values.{in_range};

use dec_i2c::I2cOpts;
use dec_modbus::ModbusOpts;
use dec_onewire::OwLinkOpts;
use dec_spi::SpiOpts;
use dec_uart::UartOpts;
use dev_ds1307::ClockOpts;
use dev_eeprom24::EepromOpts;
use dev_lm75::Lm75Opts;
use kind_table::{Kind, OptValues, options_of};

/// The lines of an I2C bus.
pub fn i2c_options(values: &OptValues) -> I2cOpts
    requires { in_range MOST_PINS Kind.I2c values.now.given ≡ true }
    ensures options { result ≡ i2c_options values.now.given }
    ensures within { InRange MOST_PINS result }
{
    I2cOpts {
        scl: values.channel(0),
        sda: values.channel(1),
    }
}

/// The lines and the settings of an SPI bus.
pub fn spi_options(values: &OptValues) -> SpiOpts
    requires { in_range MOST_PINS Kind.Spi values.now.given ≡ true }
    ensures options { result ≡ spi_options values.now.given }
    ensures within { SpiInRange MOST_PINS result }
{
    let rows = options_of(Kind::Spi);
    SpiOpts {
        sck: values.channel(0),
        mosi: values.maybe_channel(1),
        miso: values.maybe_channel(2),
        cs: values.maybe_channel(3),
        cpol: values.number(rows, 4),
        cpha: values.number(rows, 5),
        bits: values.number(rows, 6),
        mode: values.number(rows, 7),
    }
}

/// The settings of a serial line.
pub fn uart_options(values: &OptValues) -> UartOpts
    requires { in_range MOST_PINS Kind.Uart values.now.given ≡ true }
    ensures options { result ≡ uart_options values.now.given }
    ensures within { UartInRange MOST_PINS result }
{
    let rows = options_of(Kind::Uart);
    UartOpts {
        rx: values.channel(0),
        baud: values.number(rows, 1),
        bits: values.number(rows, 2),
        parity: values.number(rows, 3),
        stop: values.number(rows, 4),
        sp: values.number(rows, 5),
    }
}

/// The address and the sizes of an EEPROM.
pub fn eeprom_options(values: &OptValues) -> EepromOpts
    requires { in_range MOST_PINS Kind.Eeprom24 values.now.given ≡ true }
    ensures options { result ≡ eeprom_options values.now.given }
    ensures within { EepromInRange result }
{
    let rows = options_of(Kind::Eeprom24);
    EepromOpts {
        addr: values.number(rows, 0),
        size: values.number(rows, 1),
        page: values.number(rows, 2),
        gcall: values.number(rows, 3),
    }
}

/// The line of 1-Wire and its times.
pub fn link_options(values: &OptValues) -> OwLinkOpts
    requires { in_range MOST_PINS Kind.OwLink values.now.given ≡ true }
    ensures options { result ≡ link_options values.now.given }
    ensures within { LinkInRange MOST_PINS result }
{
    let rows = options_of(Kind::OwLink);
    OwLinkOpts {
        dq: values.channel(0),
        reset: values.number(rows, 1),
        window: values.number(rows, 2),
        bit: values.number(rows, 3),
    }
}

/// Whether a clock takes a general call's reset.
pub fn clock_options(values: &OptValues) -> ClockOpts
    requires { in_range MOST_PINS Kind.Ds1307 values.now.given ≡ true }
    ensures options { result ≡ clock_options values.now.given }
    ensures within { ClockInRange result }
{
    let rows = options_of(Kind::Ds1307);
    ClockOpts {
        gcall: values.number(rows, 0),
    }
}

/// The address of an LM75, and whether it takes a general call's reset.
pub fn lm75_options(values: &OptValues) -> Lm75Opts
    requires { in_range MOST_PINS Kind.Lm75 values.now.given ≡ true }
    ensures options { result ≡ lm75_options values.now.given }
    ensures within { Lm75InRange result }
{
    let rows = options_of(Kind::Lm75);
    Lm75Opts {
        addr: values.number(rows, 0),
        gcall: values.number(rows, 1),
    }
}

/// The silence that parts the messages of a serial line.
pub fn modbus_options(values: &OptValues) -> ModbusOpts
    requires { in_range MOST_PINS Kind.Modbus values.now.given ≡ true }
    ensures options { result ≡ modbus_options values.now.given }
    ensures within { ModbusInRange result }
{
    let rows = options_of(Kind::Modbus);
    ModbusOpts {
        gap: values.number(rows, 0),
    }
}
