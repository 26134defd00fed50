// A decoder of the network between two packets as bytes.
ghost use Rattle.std.specs.Prelude.{◌≡◌};
ghost use Rattle.std.proofs.Common.{lit≤};
ghost use Rattle.dec_onewire.specs.Kept.{net_back, net_of, net_parts, role_at, role_place};

use super::{Begun, Held, Role};
use packet_walks::HeldWalk;
use plain_bytes::Parted;

// The place of a variant, a start, the place of a role, and of the bits that have begun their count
// and their number.
type Parts = (u8, (u64, (u8, (u8, u64))));

fn role_place(role: Role) -> u8
    ensures { result ≡ role_place role }
{
    match role {
        Role::Command => 0,
        Role::Rom => 1,
        Role::Search => 2,
        Role::Byte => 3,
    }
}

fn role_at(place: u8) -> Role
    ensures { result ≡ role_at place }
{
    match place {
        0 => Role::Command,
        1 => Role::Rom,
        2 => Role::Search,
        _ => Role::Byte,
    }
}

impl Parted for Held {
    type Parts = Parts;

    ghost parts_of = { λ held. net_parts held };

    ghost value_of = { λ parts. net_of parts };

    fn parts(&self) -> Parts {
        match *self {
            Held::Outside => (0, (0, (0, (0, 0)))),
            Held::Reset { start } => (1, (start, (0, (0, 0)))),
            Held::Inside { role, begun } => (
                2,
                (begun.start, (role_place(role), (begun.count, begun.number))),
            ),
        }
    }

    fn of_parts(parts: Parts) -> Held {
        let (variant, (start, (place, (count, number)))) = parts;
        match variant {
            0 => Held::Outside,
            1 => Held::Reset { start },
            _ => Held::Inside {
                role: role_at(place),
                begun: Begun {
                    count,
                    start,
                    number,
                },
            },
        }
    }

    ghost comes_back = { λ held fits. net_back held };
}

impl HeldWalk for Held {
    ghost small = { lit≤ tt };
}
