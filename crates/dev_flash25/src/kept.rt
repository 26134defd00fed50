// A transaction that is open as plain parts.
ghost use Rattle.std.specs.Prelude.{◌≡◌};
ghost use Rattle.std.proofs.Common.{lit≤};
ghost use Rattle.dev_flash25.specs.Kept.{command_at, command_place, open_back, open_of, open_parts};
ghost use Rattle.dev_flash25.specs.Kept.{said_of, said_parts, words_of, words_parts};

use crate::{Command, Open, Said, Words};
use packet_walks::HeldTransaction;
use plain_bytes::Parted;

// The place of a variant; two bytes and their start; a number, a place and a count.
type SaidParts = (u8, ((u8, (u8, u64)), (u32, (u32, u64))));

// Whether there is an instruction and which; two places; what was said.
type WordsParts = ((u8, u8), ((u64, u64), SaidParts));

fn command_place(command: Command) -> u8
    ensures { result ≡ command_place command }
{
    match command {
        Command::Id => 0,
        Command::Status => 1,
        Command::WriteStatus => 2,
        Command::Read => 3,
        Command::FastRead => 4,
        Command::Program => 5,
        Command::EraseSector => 6,
        Command::EraseBlock => 7,
        Command::EraseChip => 8,
        Command::Other => 9,
    }
}

fn command_at(place: u8) -> Command
    ensures { result ≡ command_at place }
{
    match place {
        0 => Command::Id,
        1 => Command::Status,
        2 => Command::WriteStatus,
        3 => Command::Read,
        4 => Command::FastRead,
        5 => Command::Program,
        6 => Command::EraseSector,
        7 => Command::EraseBlock,
        8 => Command::EraseChip,
        _ => Command::Other,
    }
}

fn said_parts(said: Said) -> SaidParts
    ensures { result ≡ said_parts said }
{
    match said {
        Said::Nothing => (0, ((0, (0, 0)), (0, (0, 0)))),
        Said::One { first, start } => (1, ((first, (0, start)), (0, (0, 0)))),
        Said::Two {
            first,
            second,
            start,
        } => (2, ((first, (second, start)), (0, (0, 0)))),
        Said::Dummy { number } => (3, ((0, (0, 0)), (number, (0, 0)))),
        Said::Whole {
            number,
            place,
            count,
        } => (4, ((0, (0, 0)), (number, (place, count)))),
    }
}

fn said_of(parts: SaidParts) -> Said
    ensures { result ≡ said_of parts }
{
    let (variant, ((first, (second, start)), (number, (place, count)))) = parts;
    match variant {
        0 => Said::Nothing,
        1 => Said::One { first, start },
        2 => Said::Two {
            first,
            second,
            start,
        },
        3 => Said::Dummy { number },
        _ => Said::Whole {
            number,
            place,
            count,
        },
    }
}

fn words_parts(words: Words) -> WordsParts
    ensures { result ≡ words_parts words }
{
    match words {
        Words::Empty => ((0, 0), ((0, 0), said_parts(Said::Nothing))),
        Words::Begun {
            command,
            from,
            end,
            said,
        } => ((1, command_place(command)), ((from, end), said_parts(said))),
    }
}

fn words_of(parts: WordsParts) -> Words
    ensures { result ≡ words_of parts }
{
    let ((begun, command), ((from, end), said)) = parts;
    if begun == 0 {
        Words::Empty
    } else {
        Words::Begun {
            command: command_at(command),
            from,
            end,
            said: said_of(said),
        }
    }
}

impl Parted for Open {
    type Parts = (u64, WordsParts);

    ghost parts_of = { λ kept. open_parts kept };

    ghost value_of = { λ parts. open_of parts };

    fn parts(&self) -> (u64, WordsParts) {
        (self.start, words_parts(self.words))
    }

    fn of_parts(parts: (u64, WordsParts)) -> Open {
        Open {
            start: parts.0,
            words: words_of(parts.1),
        }
    }

    ghost comes_back = { λ kept fits. open_back kept };
}

impl HeldTransaction for Open {
    ghost small = { lit≤ tt };
}
