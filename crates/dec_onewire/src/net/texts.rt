// Notes of the network as text.
ghost use Rattle.std.specs.Prelude.{◌≡◌, ◌+◌, ◌≤◌, ◌++◌, length, codes, if◌then◌else◌, ◌==◌};
ghost use Rattle.dec_onewire.specs.Texts.{command_name, rom_name, net_text};

use la_base::Note;
use line_text::LineBuf;

// The name of a ROM command.
fn command(byte: u64, buf: &mut LineBuf)
    requires { length buf.old + 32 ≤ 256 }
    ensures text { buf.new ≡ buf.old ++ command_name byte }
    ensures short { length buf.new ≤ length buf.old + 32 }
{
    match byte {
        0x33 => buf.push_bytes(b"Read ROM"),
        0x55 => buf.push_bytes(b"Match ROM"),
        0xCC => buf.push_bytes(b"Skip ROM"),
        0xF0 => buf.push_bytes(b"Search ROM"),
        0xEC => buf.push_bytes(b"Alarm search"),
        0x3C => buf.push_bytes(b"Overdrive skip ROM"),
        0x69 => buf.push_bytes(b"Overdrive match ROM"),
        0xA5 => buf.push_bytes(b"Resume"),
        _ => buf.push_labelled(b"Unknown ", byte, 2),
    }
}

#[inline(never)]
fn rom_command(byte: u64, buf: &mut LineBuf)
    requires { length buf.old + 64 ≤ 256 }
    ensures text { buf.new ≡ buf.old ++ (codes "ROM command: " ++ command_name byte) }
    ensures short { length buf.new ≤ length buf.old + 64 }
{
    buf.push_bytes(b"ROM command: ");
    command(byte, buf);
}

// A ROM, its first byte first, and whether its CRC is right.
#[inline(never)]
fn rom(number: u64, wrong: u64, buf: &mut LineBuf)
    requires { length buf.old + 64 ≤ 256 }
    ensures text { buf.new ≡ buf.old
        ++ (codes "ROM: "
        ++ (rom_name number ++ (if wrong == 0 then codes " CRC ok" else codes " CRC bad"))) }
    ensures short { length buf.new ≤ length buf.old + 64 }
{
    buf.push_labelled(b"ROM: ", number.swap_bytes(), 16);
    if wrong == 0 {
        buf.push_bytes(b" CRC ok");
    } else {
        buf.push_bytes(b" CRC bad");
    }
}

/// Appends the text of a note, and nothing for a class that the network doesn't have: `Reset`; `ROM
/// command: ` with its name, or `Unknown ` and the command; `ROM: ` with its bytes in the order in
/// which they came, and ` CRC ok` or ` CRC bad`; `Byte: ` with the byte. Numbers are upper case
/// hexadecimal of two digits a byte.
pub fn text(note: Note, buf: &mut LineBuf)
    requires { length buf.old + 64 ≤ 256 }
    ensures text { buf.new ≡ buf.old ++ net_text note.class note.a note.b }
    ensures short { length buf.new ≤ length buf.old + 64 }
{
    match note.class {
        0 => buf.push_bytes(b"Reset"),
        1 => rom_command(note.a, buf),
        2 => rom(note.a, note.b, buf),
        3 => buf.push_labelled(b"Byte: ", note.a, 2),
        _ => {}
    }
}
