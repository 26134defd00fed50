//! The phases of an I2C bus, as a device sees them.
#![tactic(auto)]

mod bytes;
mod device;
mod kept;
mod phased;
mod tracker;

pub use bytes::{byte_note, byte_of, byte_piece};
pub use device::I2cDevice;
pub use kept::HeldDevice;
pub use phased::Phased;
pub use tracker::{Event, Role, Track};
