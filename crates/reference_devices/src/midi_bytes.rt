// Bytes of MIDI by what they are.
ghost use Rattle.std.specs.Prelude.{◌<◌};

use la_base::Packet;

/// A status that isn't real time.
#[derive(Clone, Copy)]
pub struct Status {
    pub byte: Packet,
    ghost small: { byte.a < 248 },
}

/// A data byte.
#[derive(Clone, Copy)]
pub struct Datum {
    pub byte: Packet,
    ghost small: { byte.a < 128 },
}
