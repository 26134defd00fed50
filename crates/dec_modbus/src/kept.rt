// A decoder between two packets as bytes: those of the message that nothing has ended yet.
ghost use Rattle.std.specs.Prelude.{◌≡◌};
ghost use Rattle.std.proofs.Common.{lit≤};
ghost use Rattle.dec_modbus.specs.Kept.{held_back, held_of, held_parts};
ghost use Rattle.dec_modbus.specs.Kept.{message_of, message_parts};

use crate::{Held, Message};
use packet_walks::HeldWalk;
use plain_bytes::Parted;

// Where a message starts and ends; how many bytes it has; the CRC of all but the last two, and
// these; whether one of its frames has an error.
type MessageParts = ((u64, (u64, u64)), (u16, ((u8, u8), u8)));

type Parts = Option<MessageParts>;

fn message_parts(message: Message) -> MessageParts
    ensures { result ≡ message_parts message }
{
    (
        (message.start, (message.end, message.count)),
        (
            message.crc,
            ((message.low, message.high), message.errors as u8),
        ),
    )
}

fn message_of(parts: MessageParts) -> Message
    ensures { result ≡ message_of parts }
{
    let ((start, (end, count)), (crc, ((low, high), errors))) = parts;
    Message {
        start,
        end,
        count,
        crc,
        low,
        high,
        errors: errors == 1,
    }
}

impl Parted for Held {
    type Parts = Parts;

    ghost parts_of = { λ held. held_parts held };

    ghost value_of = { λ parts. held_of parts };

    fn parts(&self) -> Parts {
        match *self {
            Held::Outside => None,
            Held::Inside { message } => Some(message_parts(message)),
        }
    }

    fn of_parts(parts: Parts) -> Held {
        match parts {
            None => Held::Outside,
            Some(parts) => Held::Inside {
                message: message_of(parts),
            },
        }
    }

    ghost comes_back = { λ held fits. held_back held };
}

impl HeldWalk for Held {
    ghost small = { lit≤ tt };
}
