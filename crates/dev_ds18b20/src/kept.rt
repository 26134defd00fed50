// A transaction that is open as plain parts.
ghost use Rattle.std.specs.Prelude.{◌≡◌, ◌≤◌, length};
ghost use Rattle.std.proofs.Common.{lit≤};
ghost use Rattle.dev_ds18b20.specs.Kept.{bytes_of_parts, bytes_parts, spot_at, spot_bytes};
ghost use Rattle.dev_ds18b20.specs.Kept.{spot_fits, stage_at, stage_place, transaction_of};
ghost use Rattle.dev_ds18b20.specs.Kept.{transaction_parts};
ghost use Rattle.dev_ds18b20.specs.Probe.{nth};
ghost use Rattle.dev_ds18b20.specs.laws.KeptLaws.{spot_back, spot_few, transaction_back};

use crate::{Bytes, Spot, Stage, Transaction};
use packet_walks::HeldTransaction;
use plain_bytes::{Parted, Plain, Saved};

// Eight bytes.
type EightSpots = (((Spot, Spot), (Spot, Spot)), ((Spot, Spot), (Spot, Spot)));

// How many bytes there are, and eight, those behind the last of them blank.
type BytesParts = (u8, EightSpots);

// Where the transaction starts, the place of its stage, and its bytes.
type Parts = (u64, (u8, BytesParts));

fn stage_place(stage: Stage) -> u8
    ensures { result ≡ stage_place stage }
{
    match stage {
        Stage::Foreign => 0,
        Stage::Own => 1,
        Stage::Reads => 2,
        Stage::Writes => 3,
        Stage::Told => 4,
    }
}

fn stage_at(place: u8) -> Stage
    ensures { result ≡ stage_at place }
{
    match place {
        0 => Stage::Foreign,
        1 => Stage::Own,
        2 => Stage::Reads,
        3 => Stage::Writes,
        _ => Stage::Told,
    }
}

// A byte is plain itself, so that eight of them are few parts.
impl Plain for Spot {
    ghost fits = { λ spot. spot_fits spot };

    ghost bytes_of = { λ spot. spot_bytes spot };

    ghost read = { λ bytes. spot_at bytes };

    ghost most = { 17 };

    fn put(self, into: &mut Saved) {
        (self.start, (self.end, self.byte)).put(into);
    }

    fn get(bytes: &[u8]) -> (Spot, &[u8]) {
        let ((start, (end, byte)), rest) = <(u64, (u64, u8)) as Plain>::get(bytes);
        (Spot { start, end, byte }, rest)
    }

    ghost reads_back = { λ spot rest fits. spot_back spot rest fits };

    ghost at_most = { spot_few };
}

// The byte of this place, or a blank one.
fn part_at(bytes: &[Spot], place: usize) -> Spot
    ensures { result ≡ nth bytes.now place }
{
    match bytes.get(place) {
        Some(spot) => *spot,
        None => Spot {
            start: 0,
            end: 0,
            byte: 0,
        },
    }
}

fn bytes_parts(bytes: &[Spot]) -> BytesParts
    requires { length bytes.now ≤ 8 }
    ensures { result ≡ bytes_parts bytes.now }
{
    (
        bytes.len() as u8,
        (
            (
                (part_at(bytes, 0), part_at(bytes, 1)),
                (part_at(bytes, 2), part_at(bytes, 3)),
            ),
            (
                (part_at(bytes, 4), part_at(bytes, 5)),
                (part_at(bytes, 6), part_at(bytes, 7)),
            ),
        ),
    )
}

fn bytes_of(parts: BytesParts) -> Bytes
    ensures { result ≡ bytes_of_parts parts }
{
    let (count, (((a, b), (c, d)), ((e, f), (g, h)))) = parts;
    Bytes::first_of([a, b, c, d, e, f, g, h], count)
}

impl Parted for Transaction {
    type Parts = Parts;

    ghost parts_of = { λ kept. transaction_parts kept };

    ghost value_of = { λ parts. transaction_of parts };

    fn parts(&self) -> Parts {
        (
            self.start,
            (stage_place(self.stage), bytes_parts(self.bytes.list())),
        )
    }

    fn of_parts(parts: Parts) -> Transaction {
        let (start, (stage, bytes)) = parts;
        Transaction {
            start,
            stage: stage_at(stage),
            bytes: bytes_of(bytes),
        }
    }

    ghost comes_back = { λ kept fits. transaction_back kept fits.1.1.0 };
}

impl HeldTransaction for Transaction {
    ghost small = { lit≤ tt };
}
