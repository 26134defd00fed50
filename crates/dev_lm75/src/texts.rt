// Notes as text.
ghost use Rattle.std.specs.Prelude.{◌≡◌, ◌+◌, ◌*◌, ◌/◌, ◌%◌, ◌≤◌, ◌<◌, ◌++◌, length};
ghost use Rattle.line_text.specs.Texts.{fixed};
ghost use Rattle.dev_lm75.specs.Texts.{degrees, is_below_zero, magnitude, note_text};

use la_base::Note;
use line_text::LineBuf;

// Whether a value is below zero.
fn is_below_zero(value: u64) -> bool
    ensures { result ≡ is_below_zero value }
{
    256 <= value % 512
}

// A value without its sign, in half degrees.
fn magnitude(value: u64) -> u64
    ensures halves { result ≡ magnitude value }
    ensures small { result ≤ 256 }
{
    if is_below_zero(value) {
        512 - value % 512
    } else {
        value % 512
    }
}

// A label, and a value in degrees.
#[tactic(auto, using(line_text::proofs::Widths::fixed_room))]
#[inline(never)]
fn push_degrees(label: &[u8], value: u64, buf: &mut LineBuf)
    requires room { length buf.old + length label.now + 26 ≤ 256 }
    ensures text { buf.new ≡ buf.old ++ (label.now ++ degrees value) }
    ensures short { length buf.new ≤ length buf.old + length label.now + 26 }
{
    buf.push_bytes(label);
    let halves = magnitude(value);
    buf.push_fixed(is_below_zero(value), halves / 2, halves % 2 * 5, 1);
}

/// Appends the text of a note, and nothing for a class that an LM75 doesn't have: `Pointer: ` with
/// a digit; `Write configuration: ` and `Read configuration: ` with the byte in upper case
/// hexadecimal; `Read temperature: `, and `Write ` and `Read ` with `THYST: ` and `TOS: `, with
/// degrees to a half.
pub fn text(note: Note, buf: &mut LineBuf)
    requires { length buf.old + 64 ≤ 256 }
    ensures text { buf.new ≡ buf.old ++ note_text note.class note.a }
    ensures short { length buf.new ≤ length buf.old + 64 }
{
    match note.class {
        0 => buf.push_labelled(b"Pointer: ", note.a, 1),
        1 => buf.push_labelled(b"Write configuration: ", note.a, 2),
        2 => buf.push_labelled(b"Read configuration: ", note.a, 2),
        3 => push_degrees(b"Read temperature: ", note.a, buf),
        4 => push_degrees(b"Write THYST: ", note.a, buf),
        5 => push_degrees(b"Read THYST: ", note.a, buf),
        6 => push_degrees(b"Write TOS: ", note.a, buf),
        7 => push_degrees(b"Read TOS: ", note.a, buf),
        _ => {}
    }
}
