// A clock between two packets as plain parts.
ghost use Rattle.std.specs.Prelude.{◌≡◌};
ghost use Rattle.std.proofs.Common.{lit≤};
ghost use Rattle.dev_ds1307.specs.Kept.{held_back, held_of, held_parts, one_of_held, part_of};
ghost use Rattle.dev_ds1307.specs.Kept.{part_parts};

use crate::{Clock, Held, Part};
use i2c_phases::HeldDevice;
use plain_bytes::Parted;

// The place of a variant, and of a row its start and its bytes.
type PartParts = (u8, (u64, u64));

fn part_parts(part: Part) -> PartParts
    ensures { result ≡ part_parts part }
{
    match part {
        Part::Fresh => (0, (0, 0)),
        Part::Apart => (1, (0, 0)),
        Part::Row(start, bytes) => (2, (start, bytes)),
    }
}

fn part_of(parts: PartParts) -> Part
    ensures { result ≡ part_of parts }
{
    let (variant, (start, bytes)) = parts;
    match variant {
        0 => Part::Fresh,
        1 => Part::Apart,
        _ => Part::Row(start, bytes),
    }
}

impl Parted for Held {
    type Parts = (u8, PartParts);

    ghost parts_of = { λ held. held_parts held };

    ghost value_of = { λ parts. held_of parts };

    fn parts(&self) -> (u8, PartParts) {
        (self.register, part_parts(self.part))
    }

    fn of_parts(parts: (u8, PartParts)) -> Held {
        Held {
            register: parts.0,
            part: part_of(parts.1),
        }
    }

    ghost comes_back = { λ held fits. held_back held };
}

impl HeldDevice for Clock {
    type Held = Held;

    ghost held = { λ device. device.held };

    fn held(&self) -> Held {
        self.held
    }

    fn hold(&mut self, what: Held) {
        self.held = what;
    }

    ghost one_of_held = { one_of_held };

    ghost small = { lit≤ tt };
}
