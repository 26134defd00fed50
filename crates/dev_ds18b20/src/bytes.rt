// The first bytes of a scratchpad.
ghost use Rattle.std.specs.Prelude.{◌≡◌, ◌<◌, ◌≤◌, [], ◌∷◌, ◌++◌, List, length, min, take};
ghost use Rattle.dev_ds18b20.specs.Probe.{spot_of};
ghost use Rattle.dev_ds18b20.specs.declared.spot.Spot.{Spot};

use crate::Spot;
use la_base::Packet;
use std::marker::Model;

const MOST: usize = 8;

const BLANK: Spot = Spot {
    start: 0,
    end: 0,
    byte: 0,
};

/// At most eight bytes, in order. Contracts see their list.
#[derive(Drop)]
pub struct Bytes {
    // the bytes, and what doesn't count behind them
    room: [Spot; MOST],
    count: usize,
}

impl Model for Bytes {
    ghost Value = { List Spot };

    ghost view = { λ s. take s.count s.room };

    ghost invariant = { λ s. s.count ≤ 8 };
}

impl Bytes {
    /// No bytes.
    pub fn new() -> Bytes
        ensures { result ≡ [] }
    {
        Bytes {
            room: [BLANK; MOST],
            count: 0,
        }
    }

    /// The first of these bytes, as many as are asked for.
    pub fn first_of(room: [Spot; MOST], count: u8) -> Bytes
        ensures { result ≡ take (min count 8) room }
    {
        Bytes {
            room,
            count: MOST.min(count as usize),
        }
    }

    /// Appends a byte.
    pub fn push(&mut self, byte: Spot)
        requires { length self.old < 8 }
        ensures { self.new ≡ self.old ++ byte ∷ [] }
    {
        self.room[self.count] = byte;
        self.count += 1;
    }

    /// The bytes.
    pub fn list(&self) -> &[Spot]
        ensures list { result.now ≡ self.now }
        ensures few { length result.now ≤ 8 }
    {
        &self.room[..self.count]
    }

    /// Lets all of them go.
    pub fn clear(&mut self)
        ensures { self.new ≡ [] }
    {
        self.count = 0;
    }
}

/// A packet of a byte as its byte, the lowest eight bits of its value, and where it starts and
/// ends.
pub fn spot_of(packet: Packet) -> Spot
    ensures { result ≡ spot_of packet }
{
    Spot {
        start: packet.start,
        end: packet.end,
        byte: (packet.a % 256) as u8,
    }
}
