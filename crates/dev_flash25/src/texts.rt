// Notes as text.
ghost use Rattle.std.specs.Prelude.{◌≡◌, ◌+◌, ◌≤◌, ◌++◌, [], length, codes, if◌then◌else◌};
ghost use Rattle.line_text.specs.Texts.{hex};
ghost use Rattle.dev_flash25.specs.Texts.{at_name, busy_name, command_name, count_name};
ghost use Rattle.dev_flash25.specs.Texts.{enabled_name, id_name, note_text};

use la_base::Note;
use line_text::LineBuf;

// The name of an instruction.
fn command(byte: u64, buf: &mut LineBuf)
    requires { length buf.old + 32 ≤ 256 }
    ensures text { buf.new ≡ buf.old ++ command_name byte }
    ensures short { length buf.new ≤ length buf.old + 32 }
{
    match byte {
        0x06 => buf.push_label(b"Write enable"),
        0x04 => buf.push_label(b"Write disable"),
        0x9F => buf.push_label(b"Read ID"),
        0x05 => buf.push_label(b"Read status"),
        0x01 => buf.push_label(b"Write status"),
        0x03 => buf.push_label(b"Read data"),
        0x0B => buf.push_label(b"Fast read"),
        0x02 => buf.push_label(b"Page program"),
        0x20 => buf.push_label(b"Sector erase"),
        0xD8 => buf.push_label(b"Block erase"),
        0xC7 => buf.push_label(b"Chip erase"),
        0x60 => buf.push_label(b"Chip erase"),
        0xB9 => buf.push_label(b"Deep power down"),
        0xAB => buf.push_label(b"Release"),
        _ => buf.push_labelled(b"", byte, 2),
    }
}

#[inline(never)]
fn named_command(byte: u64, buf: &mut LineBuf)
    requires { length buf.old + 64 ≤ 256 }
    ensures text { buf.new ≡ buf.old ++ (codes "Command: " ++ command_name byte) }
    ensures short { length buf.new ≤ length buf.old + 64 }
{
    buf.push_label(b"Command: ");
    command(byte, buf);
}

// The three bytes of an identification.
#[inline(never)]
fn named_id(id: u64, buf: &mut LineBuf)
    requires { length buf.old + 64 ≤ 256 }
    ensures text { buf.new ≡ buf.old ++ (codes "ID: " ++ id_name id) }
    ensures short { length buf.new ≤ length buf.old + 64 }
{
    buf.push_labelled(b"ID: ", id / 65536 % 256, 2);
    buf.push_labelled(b" ", id / 256 % 256, 2);
    buf.push_labelled(b" ", id % 256, 2);
}

// A status, and which of its lowest two bits are 1.
#[inline(never)]
fn named_status(status: u64, buf: &mut LineBuf)
    requires { length buf.old + 64 ≤ 256 }
    ensures text { buf.new ≡ buf.old
        ++ (codes "Status: " ++ hex 2 status ++ (busy_name status ++ enabled_name status)) }
    ensures short { length buf.new ≤ length buf.old + 64 }
{
    buf.push_labelled(b"Status: ", status, 2);
    push_if(status % 2 == 1, b" WIP", buf);
    push_if(status / 2 % 2 == 1, b" WEL", buf);
}

// A word of four bytes, where a bit is 1.
fn push_if(bit: bool, word: &[u8; 4], buf: &mut LineBuf)
    requires { length buf.old + 4 ≤ 256 }
    ensures text { buf.new ≡ buf.old ++ (if bit then word.now else []) }
    ensures short { length buf.new ≤ length buf.old + 4 }
{
    if bit {
        buf.push_bytes(word);
    }
}

// A label, an address and a byte.
#[inline(never)]
fn named_byte(label: &[u8], at: u64, byte: u64, buf: &mut LineBuf)
    requires label { length label.now ≤ 8 }
    requires room { length buf.old + 64 ≤ 256 }
    ensures text { buf.new ≡ buf.old ++ (label.now ++ at_name at byte) }
    ensures short { length buf.new ≤ length buf.old + 64 }
{
    buf.push_numbered(label, at, 6);
    buf.push_labelled(b": ", byte, 2);
}

// A label, a number of bytes, and their address.
#[inline(never)]
fn named_count(label: &[u8], count: u64, at: u64, buf: &mut LineBuf)
    requires label { length label.now ≤ 8 }
    requires room { length buf.old + 64 ≤ 256 }
    ensures text { buf.new ≡ buf.old ++ (label.now ++ count_name count at) }
    ensures short { length buf.new ≤ length buf.old + 64 }
{
    buf.push_bytes(label);
    buf.push_number(count);
    buf.push_labelled(b" bytes at ", at, 6);
}

/// Appends the text of a note, and nothing for a class that a flash doesn't have: `Command: ` with
/// its name, or the instruction; `ID: ` with its bytes; `Status: ` with the byte, ` WIP` where its
/// lowest bit is 1 and ` WEL` where the next is; `Write status: ` and `Address: `; `Read ` and
/// `Program ` with the address of a byte, `: ` and the byte, or with the number of bytes in
/// decimal, ` bytes at ` and their address; `Erase sector at ` and `Erase block at ` with the
/// address; `Erase chip`. Addresses are upper case hexadecimal of at least six digits, bytes of
/// two.
pub fn text(note: Note, buf: &mut LineBuf)
    requires { length buf.old + 64 ≤ 256 }
    ensures text { buf.new ≡ buf.old ++ note_text note.class note.a note.b }
    ensures short { length buf.new ≤ length buf.old + 64 }
{
    match note.class {
        0 => named_command(note.a, buf),
        1 => named_id(note.a, buf),
        2 => named_status(note.a, buf),
        3 => buf.push_labelled(b"Write status: ", note.a, 2),
        4 => buf.push_labelled(b"Address: ", note.a, 6),
        5 => named_byte(b"Read ", note.b, note.a, buf),
        6 => named_byte(b"Program ", note.b, note.a, buf),
        7 => named_count(b"Read ", note.a, note.b, buf),
        8 => named_count(b"Program ", note.a, note.b, buf),
        9 => buf.push_labelled(b"Erase sector at ", note.b, 6),
        10 => buf.push_labelled(b"Erase block at ", note.b, 6),
        11 => buf.push_label(b"Erase chip"),
        _ => {}
    }
}
