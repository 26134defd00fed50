//! Devices as reference programs: slow, by their definitions.
#![tactic(auto)]

mod ds1307;
mod ds18b20;
mod eeprom24;
mod flash25;
mod lm75;
mod midi;
mod midi_bytes;
mod modbus;
mod onewire_link;
mod onewire_net;
mod phases;
mod transactions;

pub use ds18b20::outputs_of as probe_outputs_of;
pub use ds1307::clock_outputs_of;
pub use eeprom24::outputs_of as eeprom_outputs_of;
pub use flash25::outputs_of as flash_outputs_of;
pub use lm75::lm75_outputs_of;
pub use midi::outputs_of as midi_outputs_of;
pub use modbus::outputs_of as modbus_outputs_of;
pub use onewire_link::outputs_of as link_outputs_of;
pub use onewire_net::outputs_of as net_outputs_of;
