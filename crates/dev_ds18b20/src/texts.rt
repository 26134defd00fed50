// Notes as text.
ghost use Rattle.std.specs.Prelude.{◌≡◌, ◌<◌, ◌≤◌, ◌+◌, ◌++◌, [], length, codes, if◌then◌else◌};
ghost use Rattle.std.specs.Prelude.{◌==◌};
ghost use Rattle.line_text.specs.Texts.{hex};
ghost use Rattle.std.specs.Fmt.{decimal};
ghost use Rattle.dev_ds18b20.specs.Texts.{degrees_name, function_name, limit_name, limits_name};
ghost use Rattle.dev_ds18b20.specs.Texts.{note_text, size_of};

use la_base::Note;
use line_text::LineBuf;

// The function, where it has no name.
#[tactic(auto, using(line_text::proofs::Widths::hex_room))]
#[inline(never)]
fn unnamed(function: u64, buf: &mut LineBuf)
    requires { length buf.old + 32 ≤ 256 }
    ensures text { buf.new ≡ buf.old ++ (codes "Function " ++ hex 2 function) }
    ensures short { length buf.new ≤ length buf.old + 32 }
{
    buf.push_label(b"Function ");
    buf.push_hex(function, 2);
}

// The name of a function.
fn function(byte: u64, buf: &mut LineBuf)
    requires { length buf.old + 64 ≤ 256 }
    ensures text { buf.new ≡ buf.old ++ function_name byte }
    ensures short { length buf.new ≤ length buf.old + 64 }
{
    match byte {
        0x44 => buf.push_label(b"Convert T"),
        0x4E => buf.push_label(b"Write scratchpad"),
        0xBE => buf.push_label(b"Read scratchpad"),
        0x48 => buf.push_label(b"Copy scratchpad"),
        0xB8 => buf.push_label(b"Recall E2"),
        0xB4 => buf.push_label(b"Read power supply"),
        _ => unnamed(byte, buf),
    }
}

// The size of a number in two's complement, of which there are so many.
fn size_of(count: u64, number: u64) -> u64
    requires { number < count }
    ensures size { result ≡ size_of count number }
    ensures small { result ≤ count }
{
    if number < count / 2 {
        number
    } else {
        count - number
    }
}

// A temperature in sixteenths of a degree.
#[tactic(auto, using(line_text::proofs::Widths::fixed_room))]
#[inline(never)]
fn degrees(number: u64, buf: &mut LineBuf)
    requires number { number < 65536 }
    requires room { length buf.old + 64 ≤ 256 }
    ensures text { buf.new ≡ buf.old ++ (codes "Temperature: " ++ degrees_name number) }
    ensures short { length buf.new ≤ length buf.old + 64 }
{
    let size = size_of(65_536, number);
    buf.push_label(b"Temperature: ");
    buf.push_fixed(number > 32_767, size / 16, size % 16 * 625, 4);
}

// A limit in degrees.
fn limit(number: u64, buf: &mut LineBuf)
    requires number { number < 256 }
    requires room { length buf.old + 21 ≤ 256 }
    ensures text { buf.new ≡ buf.old ++ limit_name number }
    ensures short { length buf.new ≤ length buf.old + 21 }
{
    if number > 127 {
        buf.push_label(b"-");
    }
    buf.push_number(size_of(256, number));
}

// A label and both limits.
#[inline(never)]
fn limits(label: &[u8], high: u64, low: u64, buf: &mut LineBuf)
    requires label { length label.now ≤ 14 }
    requires room { length buf.old + 64 ≤ 256 }
    ensures text { buf.new ≡ buf.old ++ (label.now ++ limits_name high low) }
    ensures short { length buf.new ≤ length buf.old + 64 }
{
    buf.push_bytes(label);
    limit(high % 256, buf);
    buf.push_label(b" ");
    limit(low % 256, buf);
}

// A label and a number.
#[inline(never)]
fn counted(label: &[u8], number: u64, buf: &mut LineBuf)
    requires label { length label.now ≤ 32 }
    requires room { length buf.old + 64 ≤ 256 }
    ensures text { buf.new ≡ buf.old ++ (label.now ++ decimal number) }
    ensures short { length buf.new ≤ length buf.old + 64 }
{
    buf.push_bytes(label);
    buf.push_number(number);
}

// Whether the CRC is right.
fn crc(wrong: u64, buf: &mut LineBuf)
    requires { length buf.old + 64 ≤ 256 }
    ensures text { buf.new ≡ buf.old ++ (if wrong == 0 then codes "CRC ok" else codes "CRC bad") }
    ensures short { length buf.new ≤ length buf.old + 64 }
{
    if wrong == 0 {
        buf.push_label(b"CRC ok");
    } else {
        buf.push_label(b"CRC bad");
    }
}

/// Appends the text of a note, and nothing for a class that the thermometer doesn't have: the
/// function's name, or `Function ` and its byte in upper case hexadecimal; `Temperature: ` with
/// degrees of four decimals; `Limits: ` with both limits in degrees; `Resolution: ` with its bits;
/// `CRC ok` or `CRC bad`; `Write limits: ` and `Write resolution: `, alike.
pub fn text(note: Note, buf: &mut LineBuf)
    requires { length buf.old + 64 ≤ 256 }
    ensures text { buf.new ≡ buf.old ++ note_text note.class note.a note.b }
    ensures short { length buf.new ≤ length buf.old + 64 }
{
    match note.class {
        0 => function(note.a, buf),
        1 => degrees(note.a % 65_536, buf),
        2 => limits(b"Limits: ", note.a, note.b, buf),
        3 => counted(b"Resolution: ", note.a, buf),
        4 => crc(note.a, buf),
        5 => limits(b"Write limits: ", note.a, note.b, buf),
        6 => counted(b"Write resolution: ", note.a, buf),
        _ => {}
    }
}
