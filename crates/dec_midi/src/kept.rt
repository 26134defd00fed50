// A decoder between two packets as bytes.
ghost use Rattle.std.proofs.Common.{lit≤};
ghost use Rattle.dec_midi.specs.Kept.{held_back, held_of, held_parts};

use crate::Held;
use packet_walks::HeldWalk;
use plain_bytes::Parted;

// The place of a variant; a status and the first data byte behind it; and of what is open its
// start, its end and the number of its data bytes.
type Parts = (u8, ((u8, Option<u8>), (u64, (u64, u64))));

impl Parted for Held {
    type Parts = Parts;

    ghost parts_of = { λ held. held_parts held };

    ghost value_of = { λ parts. held_of parts };

    fn parts(&self) -> Parts {
        match *self {
            Held::Stray => (0, ((0, None), (0, (0, 0)))),
            Held::Running { status } => (1, ((status, None), (0, (0, 0)))),
            Held::Begun {
                status,
                start,
                first,
            } => (2, ((status, first), (start, (0, 0)))),
            Held::Exclusive { start, end, count } => (3, ((0, None), (start, (end, count)))),
        }
    }

    fn of_parts(parts: Parts) -> Held {
        let (place, ((status, first), (start, (end, count)))) = parts;
        match place {
            0 => Held::Stray,
            1 => Held::Running { status },
            2 => Held::Begun {
                status,
                start,
                first,
            },
            _ => Held::Exclusive { start, end, count },
        }
    }

    ghost comes_back = { λ held fits. held_back held };
}

impl HeldWalk for Held {
    ghost small = { lit≤ tt };
}
