// Notes as text.
ghost use Rattle.std.specs.Prelude.{◌≡◌, ◌+◌, ◌≤◌, ◌++◌, length, codes};
ghost use Rattle.dec_i2c.specs.Texts.{command_name, note_text};

use la_base::Note;
use line_text::LineBuf;

// The name of the command of a general call; of a hardware master it has the address.
fn command(byte: u64, buf: &mut LineBuf)
    requires { length buf.old + 32 ≤ 256 }
    ensures text { buf.new ≡ buf.old ++ command_name byte }
    ensures short { length buf.new ≤ length buf.old + 32 }
{
    if byte == 6 {
        buf.push_label(b"reset and write address");
    } else if byte == 4 {
        buf.push_label(b"write address");
    } else if byte % 2 == 0 {
        buf.push_labelled(b"", byte, 2);
    } else {
        buf.push_labelled(b"hardware master ", byte / 2, 2);
    }
}

#[inline(never)]
fn general_command(byte: u64, buf: &mut LineBuf)
    requires { length buf.old + 64 ≤ 256 }
    ensures text { buf.new ≡ buf.old ++ (codes "General call command: " ++ command_name byte) }
    ensures short { length buf.new ≤ length buf.old + 64 }
{
    buf.push_label(b"General call command: ");
    command(byte, buf);
}

/// Appends the text of a note, and nothing for a class that I2C doesn't have: `Start`, `Start
/// repeat`, `Stop`; `Address write: ` and `Address read: `, `Prefix write: ` and `Prefix read: `
/// with the upper seven bits of the byte; `Address 10-bit write: ` and `Address 10-bit read: ` with
/// the address in four digits; `Data write: ` and `Data read: ` with the byte; `ACK`, `NACK`;
/// `General call`; and `General call command: ` with its name. Numbers are upper case hexadecimal,
/// of two digits where no other number is named.
pub fn text(note: Note, buf: &mut LineBuf)
    requires { length buf.old + 64 ≤ 256 }
    ensures text { buf.new ≡ buf.old ++ note_text note.class note.a }
    ensures short { length buf.new ≤ length buf.old + 64 }
{
    match note.class {
        0 => buf.push_label(b"Start"),
        1 => buf.push_label(b"Start repeat"),
        2 => buf.push_label(b"Stop"),
        3 => buf.push_labelled(b"Address write: ", note.a, 2),
        4 => buf.push_labelled(b"Address read: ", note.a, 2),
        5 => buf.push_labelled(b"Data write: ", note.a, 2),
        6 => buf.push_labelled(b"Data read: ", note.a, 2),
        7 => buf.push_label(b"ACK"),
        8 => buf.push_label(b"NACK"),
        9 => buf.push_label(b"General call"),
        10 => buf.push_labelled(b"Prefix write: ", note.a, 2),
        11 => buf.push_labelled(b"Address 10-bit write: ", note.a, 4),
        12 => buf.push_labelled(b"Address 10-bit read: ", note.a, 4),
        13 => buf.push_labelled(b"Prefix read: ", note.a, 2),
        14 => general_command(note.a, buf),
        _ => {}
    }
}
