// Notes as text.
ghost use Rattle.std.specs.Prelude.{◌≡◌, ◌+◌, ◌≤◌, ◌++◌, length, codes};
ghost use Rattle.dec_modbus.specs.Texts.{count_name, crc_name, function_name, note_text};
ghost use Rattle.dec_modbus.specs.Texts.{reply_name};

use la_base::Note;
use line_text::LineBuf;

// The name of a function code.
fn function(code: u64, buf: &mut LineBuf)
    requires { length buf.old + 32 ≤ 256 }
    ensures text { buf.new ≡ buf.old ++ function_name code }
    ensures short { length buf.new ≤ length buf.old + 32 }
{
    match code {
        0x01 => buf.push_label(b"Read coils"),
        0x02 => buf.push_label(b"Read discrete inputs"),
        0x03 => buf.push_label(b"Read holding registers"),
        0x04 => buf.push_label(b"Read input registers"),
        0x05 => buf.push_label(b"Write single coil"),
        0x06 => buf.push_label(b"Write single register"),
        0x0F => buf.push_label(b"Write multiple coils"),
        0x10 => buf.push_label(b"Write multiple registers"),
        _ => buf.push_labelled(b"", code, 2),
    }
}

// A function, or the exception that an answer tells of.
#[inline(never)]
fn reply(code: u64, buf: &mut LineBuf)
    requires { length buf.old + 64 ≤ 256 }
    ensures text { buf.new ≡ buf.old ++ (codes "Function: " ++ reply_name code) }
    ensures short { length buf.new ≤ length buf.old + 64 }
{
    buf.push_label(b"Function: ");
    if code < 0x80 {
        function(code, buf);
    } else {
        buf.push_label(b"Exception ");
        function(code - 0x80, buf);
    }
}

// A number of bytes between two texts.
#[inline(never)]
fn counted(front: &[u8], count: u64, back: &[u8], buf: &mut LineBuf)
    requires front { length front.now ≤ 20 }
    requires back { length back.now ≤ 20 }
    requires room { length buf.old + 64 ≤ 256 }
    ensures text { buf.new ≡ buf.old ++ count_name front.now count back.now }
    ensures short { length buf.new ≤ length buf.old + 64 }
{
    buf.push_bytes(front);
    buf.push_number(count);
    buf.push_bytes(back);
}

// What stands behind the number of bytes: whether the CRC is right.
fn crc(wrong: u64) -> &'static [u8]
    ensures text { result.now ≡ crc_name wrong }
    ensures short { length result.now ≤ 20 }
{
    if wrong == 0 {
        b" bytes, CRC ok"
    } else {
        b" bytes, CRC bad"
    }
}

/// Appends the text of a note, and nothing for a class that a decoder of messages doesn't have:
/// `Address: ` with the byte; `Function: ` with its name, or the byte, where that is 80h or more
/// behind `Exception ` and without its highest bit; `Byte: ` with the byte; `Message of N bytes,
/// CRC ok` or `CRC bad`; `Short message of N bytes`; `Long message of N bytes`; `Message of N
/// bytes, line errors`. Bytes are upper case hexadecimal of two digits, N is decimal.
pub fn text(note: Note, buf: &mut LineBuf)
    requires { length buf.old + 64 ≤ 256 }
    ensures text { buf.new ≡ buf.old ++ note_text note.class note.a note.b }
    ensures short { length buf.new ≤ length buf.old + 64 }
{
    match note.class {
        0 => buf.push_labelled(b"Address: ", note.a, 2),
        1 => reply(note.a, buf),
        2 => buf.push_labelled(b"Byte: ", note.a, 2),
        3 => counted(b"Message of ", note.a, crc(note.b), buf),
        4 => counted(b"Short message of ", note.a, b" bytes", buf),
        5 => counted(b"Long message of ", note.a, b" bytes", buf),
        6 => counted(b"Message of ", note.a, b" bytes, line errors", buf),
        _ => {}
    }
}
