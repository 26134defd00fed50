// A machine of any kind.
use dec_i2c::I2c;
use dec_midi::Midi;
use dec_modbus::Modbus;
use dec_onewire::{OwLink, OwNet};
use dec_spi::Spi;
use dec_uart::Uart;
use decoder_core::{Driver, Follower};
use dev_ds18b20::Probe;
use dev_ds1307::Clock;
use dev_eeprom24::Eeprom;
use dev_flash25::Flash;
use dev_lm75::Lm75;
use i2c_phases::Phased;

/// A driver or a follower of a machine of any kind.
#[derive(Drop)]
pub enum AnyMachine {
    I2c(Driver<I2c>),
    Spi(Driver<Spi>),
    Uart(Driver<Uart>),
    OwLink(Driver<OwLink>),
    OwNet(Follower<OwNet>),
    Eeprom24(Follower<Phased<Eeprom>>),
    Ds1307(Follower<Phased<Clock>>),
    Lm75(Follower<Phased<Lm75>>),
    Ds18b20(Follower<Probe>),
    Flash25(Follower<Flash>),
    Modbus(Follower<Modbus>),
    Midi(Follower<Midi>),
}

// What one expression answers of a machine, whichever it is.
macro_rules! each {
    ($machine:expr, $held:ident => $answer:expr) => {
        match $machine {
            AnyMachine::I2c($held) => $answer,
            AnyMachine::Spi($held) => $answer,
            AnyMachine::Uart($held) => $answer,
            AnyMachine::OwLink($held) => $answer,
            AnyMachine::OwNet($held) => $answer,
            AnyMachine::Eeprom24($held) => $answer,
            AnyMachine::Ds1307($held) => $answer,
            AnyMachine::Lm75($held) => $answer,
            AnyMachine::Ds18b20($held) => $answer,
            AnyMachine::Flash25($held) => $answer,
            AnyMachine::Modbus($held) => $answer,
            AnyMachine::Midi($held) => $answer,
        }
    };
}

pub(crate) use each;
