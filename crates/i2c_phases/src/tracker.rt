// What is kept of the phases of a bus, and what a packet is to a device.
ghost use Rattle.std.specs.Prelude.{◌≡◌, ◌==◌, Bool, true, false, if◌then◌else◌};
ghost use Rattle.i2c_phases.specs.Phases.{byte_of, is_start, is_stop, is_address, is_data, is_ack};
ghost use Rattle.i2c_phases.specs.laws.Tracking.{asked, answered, inside, told, event, track_next};
ghost use Rattle.i2c_phases.specs.laws.Tracking.{no_phase};

use la_base::{Packet, PacketKind};

/// How far the open phase has come, for one device.
#[derive(Clone, Copy, PartialEq, Eq)]
pub enum Role {
    /// No address has come, and no data.
    Fresh,
    /// No address has come, but data has.
    Late,
    /// The address has come, to be written; no acknowledge bit.
    AskedWrite,
    /// The address has come, to be read; no acknowledge bit.
    AskedRead,
    /// A general call has come before any data, and this device takes resets; no acknowledge bit.
    AskedCall,
    /// Bytes are written to the device.
    Writing,
    /// Bytes are read from the device.
    Reading,
    /// A general call was acknowledged before any data.
    Called,
    /// It was reset by this phase.
    WasReset,
    /// No phase is open, or nothing more can come of it.
    Other,
}

/// What a packet is to a device.
#[derive(Clone, Copy, PartialEq, Eq)]
pub enum Event {
    /// A phase begins.
    Begins,
    /// A byte is written to it.
    WriteByte,
    /// A byte is read from it.
    ReadByte,
    /// It is reset.
    Resets,
    /// Nothing.
    Passes,
}

/// Whether a phase is open, where it starts, and how far it has come.
#[derive(Clone, Copy, PartialEq, Eq)]
pub struct Track {
    pub begun: bool,
    pub start: u64,
    pub role: Role,
}

fn is_start(kind: PacketKind) -> bool
    ensures { result ≡ is_start kind }
{
    matches!(kind, PacketKind::I2cStart)
}

fn is_stop(kind: PacketKind) -> bool
    ensures { result ≡ is_stop kind }
{
    matches!(kind, PacketKind::I2cStop)
}

fn is_address(kind: PacketKind) -> bool
    ensures { result ≡ is_address kind }
{
    matches!(kind, PacketKind::I2cAddress)
}

fn is_data(kind: PacketKind) -> bool
    ensures { result ≡ is_data kind }
{
    matches!(kind, PacketKind::I2cData)
}

fn is_ack(kind: PacketKind) -> bool
    ensures { result ≡ is_ack kind }
{
    matches!(kind, PacketKind::I2cAck)
}

// No phase is open.
pub(crate) fn no_phase() -> Track
    ensures { result ≡ no_phase }
{
    Track {
        begun: false,
        start: 0,
        role: Role::Other,
    }
}

// What an address asks of the device; `first` says that no data stands before it.
fn asked(device: u64, resets: bool, first: bool, packet: Packet) -> Role
    ensures { result ≡ asked device resets first packet }
{
    if packet.a == device && packet.b == 0 {
        Role::AskedWrite
    } else if packet.a == device && packet.b == 1 {
        Role::AskedRead
    } else if resets && (first && (packet.a == 0 && packet.b == 0)) {
        Role::AskedCall
    } else {
        Role::Other
    }
}

// Whether a general call's command is a reset.
fn asks_reset(packet: Packet) -> bool
    ensures { result ≡ (byte_of packet == 6) }
{
    packet.a % 256 == 6
}

// What an acknowledge bit makes of a phase.
fn answered(packet: Packet, role: Role) -> Role
    ensures { result ≡ answered packet role }
{
    if packet.a == 0 { role } else { Role::Other }
}

// How far a phase without an address has come behind one more packet; `first` says that it has no
// data.
fn seeking(device: u64, resets: bool, first: bool, packet: Packet) -> Role
    ensures fresh { first ≡ true → result ≡ inside device resets Role.Fresh packet }
    ensures late { first ≡ false → result ≡ inside device resets Role.Late packet }
{
    if is_address(packet.kind) {
        return asked(device, resets, first, packet);
    }
    if first && !is_data(packet.kind) {
        return Role::Fresh;
    }
    Role::Late
}

// How far a phase has come whose address waits for its acknowledge bit: `role` without it, `next`
// with it.
fn answered_by(packet: Packet, role: Role, next: Role) -> Role
    ensures { result ≡ (if is_ack packet.kind then answered packet next else role) }
{
    if is_ack(packet.kind) {
        answered(packet, next)
    } else {
        role
    }
}

// How far a general call has come behind one more packet.
fn calling(device: u64, resets: bool, packet: Packet) -> Role
    ensures { result ≡ inside device resets Role.AskedCall packet }
{
    if is_data(packet.kind) {
        return Role::Other;
    }
    answered_by(packet, Role::AskedCall, Role::Called)
}

// How far a general call that was acknowledged has come behind one more packet.
fn commanded(device: u64, resets: bool, packet: Packet) -> Role
    ensures { result ≡ inside device resets Role.Called packet }
{
    if !is_data(packet.kind) {
        return Role::Called;
    }
    if asks_reset(packet) {
        return Role::WasReset;
    }
    Role::Other
}

// How far the phase has come behind a packet that is no start or stop.
fn inside(device: u64, resets: bool, role: Role, packet: Packet) -> Role
    ensures { result ≡ inside device resets role packet }
{
    match role {
        Role::Fresh => seeking(device, resets, true, packet),
        Role::Late => seeking(device, resets, false, packet),
        Role::AskedWrite => answered_by(packet, role, Role::Writing),
        Role::AskedRead => answered_by(packet, role, Role::Reading),
        Role::AskedCall => calling(device, resets, packet),
        Role::Called => commanded(device, resets, packet),
        Role::Writing => role,
        Role::Reading => role,
        Role::WasReset => role,
        Role::Other => role,
    }
}

// What a packet that is no start or stop is to the device.
fn told(role: Role, packet: Packet) -> Event
    ensures { result ≡ told role packet }
{
    let data = is_data(packet.kind);
    match role {
        Role::Writing => {
            if data {
                Event::WriteByte
            } else {
                Event::Passes
            }
        }
        Role::Reading => { if data { Event::ReadByte } else { Event::Passes } }
        Role::Called => {
            if data {
                if asks_reset(packet) {
                    Event::Resets
                } else {
                    Event::Passes
                }
            } else {
                Event::Passes
            }
        }
        Role::Fresh => Event::Passes,
        Role::Late => Event::Passes,
        Role::AskedWrite => Event::Passes,
        Role::AskedRead => Event::Passes,
        Role::AskedCall => Event::Passes,
        Role::WasReset => Event::Passes,
        Role::Other => Event::Passes,
    }
}

impl Track {
    /// What a packet is to the device.
    pub(crate) fn event(self, packet: Packet) -> Event
        ensures { result ≡ event self.role packet }
    {
        if is_start(packet.kind) {
            Event::Begins
        } else if is_stop(packet.kind) {
            Event::Passes
        } else {
            told(self.role, packet)
        }
    }

    /// What is kept behind a packet.
    pub(crate) fn next(self, device: u64, resets: bool, packet: Packet) -> Track
        ensures { result ≡ track_next device resets self packet }
    {
        if is_start(packet.kind) {
            Track {
                begun: true,
                start: packet.start,
                role: Role::Fresh,
            }
        } else if is_stop(packet.kind) {
            no_phase()
        } else {
            Track {
                begun: self.begun,
                start: self.start,
                role: inside(device, resets, self.role, packet),
            }
        }
    }
}
