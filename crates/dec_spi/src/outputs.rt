// What events put out.
ghost use Rattle.std.specs.Prelude.{◌≡◌, ◌≤◌, ◌+◌, ◌++◌, ◌∷◌, length};
ghost use Rattle.dec_spi.specs.Bus.{byte_pieces, pieces, word_class, word_outs, select_outs};
ghost use Rattle.dec_spi.specs.Bus.{deselect_outs};

use crate::Bus;
use decoder_core::{Outs, note_at, packet_at, span_note, span_packet, span_piece};
use la_base::PacketKind;

/// A stretch begins.
pub fn give_select(at: u64, into: &mut Outs)
    requires { length into.old ≤ 16 }
    ensures { into.new ≡ into.old ++ select_outs at }
{
    into.push(note_at(0, at, 0));
    into.push(packet_at(PacketKind::SpiSelect, at, 0));
}

/// A stretch has ended.
pub fn give_deselect(at: u64, into: &mut Outs)
    requires { length into.old ≤ 16 }
    ensures { into.new ≡ into.old ++ deselect_outs at }
{
    into.push(note_at(4, at, 0));
    into.push(packet_at(PacketKind::SpiDeselect, at, 0));
}

// The lowest bytes of a number, the highest of them first.
fn give_bytes(count: u64, class: u16, first: u64, last: u64, number: u32, into: &mut Outs)
    requires some { 1 ≤ count }
    requires most { count ≤ 4 }
    requires room { length into.old ≤ 24 }
    ensures gives { into.new ≡ into.old ++ byte_pieces count class first last number }
    ensures few { length into.new ≤ length into.old + 4 }
{
    if count > 3 {
        into.push(span_piece(class, first, last, (number / 0x100_0000 % 256) as u8));
    }
    if count > 2 {
        into.push(span_piece(class, first, last, (number / 0x1_0000 % 256) as u8));
    }
    if count > 1 {
        into.push(span_piece(class, first, last, (number / 256 % 256) as u8));
    }
    into.push(span_piece(class, first, last, (number % 256) as u8));
}

// The pieces of a word on a line, if that is given.
fn give_pieces(
    bus: &Bus,
    line: Option<u32>,
    class: u16,
    first: u64,
    last: u64,
    number: u32,
    into: &mut Outs,
)
    requires room { length into.old ≤ 24 }
    ensures gives { into.new ≡ into.old ++ pieces bus.now.opts.bits line class first last number }
    ensures few { length into.new ≤ length into.old + 4 }
{
    if line.is_some() {
        give_bytes((bus.opts.bits + 7) / 8, class, first, last, number, into);
    }
}

fn word_class(mosi: Option<u32>, miso: Option<u32>) -> u16
    ensures { result ≡ word_class mosi miso }
{
    match (mosi, miso) {
        (Some(_), Some(_)) => 1,
        (Some(_), None) => 2,
        (None, _) => 3,
    }
}

/// A word, by its first and its last clock and its numbers on both lines.
pub fn give_word(bus: &Bus, first: u64, last: u64, mosi: u32, miso: u32, into: &mut Outs)
    requires { length into.old ≤ 16 }
    ensures { into.new ≡ into.old ++ word_outs bus.now.opts first last mosi miso }
{
    let class = word_class(bus.opts.mosi, bus.opts.miso);
    into.push(span_note(class, first, last, mosi as u64, miso as u64));
    give_pieces(bus, bus.opts.mosi, 0, first, last, mosi, into);
    give_pieces(bus, bus.opts.miso, 1, first, last, miso, into);
    into.push(span_packet(PacketKind::SpiWord, first, last, mosi as u64, miso as u64));
}
