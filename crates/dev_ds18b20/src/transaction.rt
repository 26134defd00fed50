// A transaction, packet by packet.
ghost use Rattle.std.specs.Prelude.{◌≡◌, ◌≤◌, [], if◌then◌else◌};
ghost use Rattle.dev_ds18b20.specs.Probe.{is_byte, is_own};
ghost use Rattle.dev_ds18b20.specs.laws.Held.{byte_gives, gathers_next, stage_behind};
ghost use Rattle.dev_ds18b20.specs.laws.Held.{transaction_gives, transaction_next};

use crate::bytes::spot_of;
use crate::scratchpad::{give_scratchpad, give_written, note_over};
use crate::{Spot, Stage, Transaction};
use decoder_core::Outs;
use la_base::{Packet, PacketKind};

fn is_byte(kind: PacketKind) -> bool
    ensures { result ≡ is_byte kind }
{
    matches!(kind, PacketKind::NetByte)
}

// Whether a packet makes a transaction the thermometer's: Skip ROM, or a ROM of its family.
fn is_own(packet: Packet) -> bool
    ensures { result ≡ is_own packet }
{
    match packet.kind {
        PacketKind::NetCommand => packet.a == 0xCC,
        PacketKind::NetRom => packet.a % 256 == 0x28,
        _ => false,
    }
}

// What stands behind a function: Read Scratchpad, Write Scratchpad or another one.
fn stage_behind(function: u8) -> Stage
    ensures { result ≡ stage_behind function }
{
    match function {
        0xBE => Stage::Reads,
        0x4E => Stage::Writes,
        _ => Stage::Told,
    }
}

// How far a foreign transaction has come behind a packet.
fn stage_by(packet: Packet) -> Stage
    ensures { result ≡ (if is_own packet then Stage.Own else Stage.Foreign) }
{
    if is_own(packet) {
        Stage::Own
    } else {
        Stage::Foreign
    }
}

impl Transaction {
    // Puts out what a byte says.
    fn give_byte(&self, byte: Spot, into: &mut Outs)
        requires { into.old ≡ [] }
        ensures { into.new ≡ byte_gives self.now.stage self.now.bytes byte }
    {
        let bytes = self.bytes.list();
        match self.stage {
            Stage::Own => into.push(note_over(0, byte, byte, byte.byte as u64, 0)),
            Stage::Reads => {
                if bytes.len() >= 8 {
                    give_scratchpad(&bytes[..8], byte, into);
                }
            }
            Stage::Writes => {
                if bytes.len() >= 2 {
                    give_written(&bytes[..2], byte, into);
                }
            }
            Stage::Foreign => {}
            Stage::Told => {}
        }
    }

    /// Puts out what a packet says that is no reset.
    pub fn give(&self, packet: Packet, into: &mut Outs)
        requires { into.old ≡ [] }
        ensures { into.new ≡ transaction_gives self.now packet }
    {
        if is_byte(packet.kind) {
            self.give_byte(spot_of(packet), into);
        }
    }

    // Keeps a byte, of which so many and one more are told together.
    fn gather(&mut self, most: usize, byte: Spot)
        requires { most ≤ 8 }
        ensures { self.new ≡ gathers_next self.old.start most self.old.stage self.old.bytes byte }
    {
        if self.bytes.list().len() < most {
            self.bytes.push(byte);
            return;
        }
        self.bytes.clear();
        self.stage = Stage::Told;
    }

    /// Keeps what a packet changes that is no reset.
    pub fn follow(&mut self, packet: Packet)
        ensures { self.new ≡ transaction_next self.old packet }
    {
        match self.stage {
            Stage::Foreign => self.stage = stage_by(packet),
            Stage::Own => {
                if is_byte(packet.kind) {
                    self.stage = stage_behind(spot_of(packet).byte);
                }
            }
            Stage::Reads => {
                if is_byte(packet.kind) {
                    self.gather(8, spot_of(packet));
                }
            }
            Stage::Writes => {
                if is_byte(packet.kind) {
                    self.gather(2, spot_of(packet));
                }
            }
            Stage::Told => {}
        }
    }
}
