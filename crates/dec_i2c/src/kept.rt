// A decoder between two events as bytes: those of the segment that is open.
ghost use Rattle.std.specs.Prelude.{◌≡◌};
ghost use Rattle.std.proofs.Common.{sym, ◌∙◌};
ghost use Rattle.plain_bytes.specs.Forms.{IsPutAs};
ghost use Rattle.dec_i2c.specs.Kept.{role_of, role_parts, segment_back, segment_of, segment_parts};

use crate::{I2c, Role, Segment};
use decoder_core::{Hold, Saved};
use plain_bytes::{Parted, Plain, get_parts, put_parts};

// The role; the ten-bit address; how many bits, the number that they make up, and where the first
// of them stands.
type Parts = ((u8, u8), (Option<u16>, (u8, (u8, u64))));

// The place of a role, and the upper two bits of a ten-bit address.
fn role_parts(role: Role) -> (u8, u8)
    ensures { result ≡ role_parts role }
{
    match role {
        Role::First => (0, 0),
        Role::Lower(two) => (1, two),
        Role::Command => (2, 0),
        Role::Write => (3, 0),
        Role::Read => (4, 0),
    }
}

fn role_of(place: u8, two: u8) -> Role
    ensures { result ≡ role_of (place, two) }
{
    match place {
        0 => Role::First,
        1 => Role::Lower(two),
        2 => Role::Command,
        3 => Role::Write,
        _ => Role::Read,
    }
}

impl Parted for Segment {
    type Parts = Parts;

    ghost parts_of = { λ segment. segment_parts segment };

    ghost value_of = { λ parts. segment_of parts };

    fn parts(&self) -> Parts {
        (
            role_parts(self.role),
            (self.ten, (self.bits, (self.byte, self.first))),
        )
    }

    fn of_parts(parts: Parts) -> Segment {
        let ((place, two), (ten, (bits, (byte, first)))) = parts;
        Segment {
            role: role_of(place, two),
            ten,
            bits,
            byte,
            first,
        }
    }

    ghost comes_back = { λ segment fits. segment_back segment };
}

impl Hold for I2c {
    ghost puts = { λ machine bytes. IsPutAs ⟦<Option<Parts> as Plain>⟧.fits
        ⟦<Option<Parts> as Plain>⟧.bytes_of
        (⟦<Option<Segment> as Parted>⟧.parts_of machine.held) bytes };

    fn put(&self, into: &mut Saved) {
        put_parts(&self.held, into);
    }

    fn get(&mut self, bytes: &[u8]) -> bool {
        match get_parts(bytes) {
            Some(held) => {
                self.held = held;
                true
            }
            None => false,
        }
    }

    ghost one_form = { λ machine one other mine theirs. mine.1 ∙ sym theirs.1 };
}
