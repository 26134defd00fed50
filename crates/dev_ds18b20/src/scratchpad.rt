// What the bytes of a scratchpad say together.
ghost use Rattle.std.specs.Prelude.{◌≡◌, ◌+◌, ◌<◌, ◌≤◌, ◌++◌, [], length, map};
ghost use Rattle.dev_ds18b20.specs.Probe.{byte_piece, crc_of, note_over, nth, resolution};
ghost use Rattle.dev_ds18b20.specs.Probe.{scratchpad_outs, steps_of, temperature, value};
ghost use Rattle.dev_ds18b20.specs.Probe.{written_outs};

use crate::Spot;
use dec_onewire::net::crc8;
use decoder_core::{Outs, span_note, span_piece};
use la_base::Out;

/// A note from the start of one byte to the end of another.
pub fn note_over(class: u16, first: Spot, last: Spot, a: u64, b: u64) -> Out
    ensures { result ≡ note_over class first last a b }
{
    span_note(class, first.start, last.end, a, b)
}

fn byte_piece(byte: Spot) -> Out
    ensures { result ≡ byte_piece byte }
{
    span_piece(0, byte.start, byte.end, byte.byte)
}

// The byte of this place.
fn nth(bytes: &[Spot], place: usize) -> Spot
    requires { place < length bytes.now }
    ensures { result ≡ nth bytes.now place }
{
    bytes[place]
}

fn value(bytes: &[Spot], place: usize) -> u8
    requires { place < length bytes.now }
    ensures { result ≡ value bytes.now place }
{
    nth(bytes, place).byte
}

// What bits 6 and 5 of a configuration say.
fn steps_of(configuration: u8) -> u8
    ensures steps { result ≡ steps_of configuration }
    ensures few { result ≤ 3 }
{
    configuration / 32 % 4
}

// The resolution in bits.
fn resolution(configuration: u8) -> u64
    ensures { result ≡ resolution configuration }
{
    9 + steps_of(configuration) as u64
}

// The temperature in 16 bits, without the bits that the resolution leaves undefined.
fn temperature(low: u8, high: u8, configuration: u8) -> u64
    ensures { result ≡ temperature low high configuration }
{
    let unit = 1 << (3 - steps_of(configuration));
    (high as u64 * 256 + low as u64) / unit * unit
}

// The CRC of the first eight bytes.
fn crc_of(bytes: &[Spot]) -> u8
    requires { 8 ≤ length bytes.now }
    ensures { result ≡ crc_of bytes.now }
{
    crc8(&[
        value(bytes, 0),
        value(bytes, 1),
        value(bytes, 2),
        value(bytes, 3),
        value(bytes, 4),
        value(bytes, 5),
        value(bytes, 6),
        value(bytes, 7),
    ])
}

// Puts out a piece for each byte.
fn give_pieces(bytes: &[Spot], into: &mut Outs)
    requires { length into.old + length bytes.now ≤ 16 }
    ensures { into.new ≡ into.old ++ map byte_piece bytes.now }
{
    for byte in bytes {
        into.push(byte_piece(*byte));
    }
}

/// Puts out what a scratchpad says whose first eight bytes these are, with the ninth: temperature,
/// limits, resolution, whether the CRC is right, and the bytes.
pub fn give_scratchpad(bytes: &[Spot], last: Spot, into: &mut Outs)
    requires length { length bytes.now ≡ 8 }
    requires empty { into.old ≡ [] }
    ensures { into.new ≡ scratchpad_outs bytes.now last }
{
    let configuration = value(bytes, 4);
    let degrees = temperature(value(bytes, 0), value(bytes, 1), configuration);
    into.push(note_over(1, nth(bytes, 0), nth(bytes, 1), degrees, 0));
    let (high, low) = (value(bytes, 2), value(bytes, 3));
    into.push(note_over(2, nth(bytes, 2), nth(bytes, 3), high as u64, low as u64));
    let bits = resolution(configuration);
    into.push(note_over(3, nth(bytes, 4), nth(bytes, 4), bits, 0));
    let wrong = crc_of(bytes) != last.byte;
    into.push(note_over(4, last, last, wrong as u64, 0));
    give_pieces(bytes, into);
    into.push(byte_piece(last));
}

/// Puts out what is written to a scratchpad: the limits, which these bytes are, and the resolution.
pub fn give_written(bytes: &[Spot], last: Spot, into: &mut Outs)
    requires length { length bytes.now ≡ 2 }
    requires empty { into.old ≡ [] }
    ensures { into.new ≡ written_outs bytes.now last }
{
    let (high, low) = (value(bytes, 0), value(bytes, 1));
    into.push(note_over(5, nth(bytes, 0), nth(bytes, 1), high as u64, low as u64));
    into.push(note_over(6, last, last, resolution(last.byte), 0));
}
