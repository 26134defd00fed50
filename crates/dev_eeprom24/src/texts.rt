// Notes as text.
ghost use Rattle.std.specs.Prelude.{◌≡◌, ◌+◌, ◌≤◌, ◌++◌, length};
ghost use Rattle.dev_eeprom24.specs.Texts.{note_text};

use la_base::Note;
use line_text::LineBuf;

/// Appends the text of a note, and nothing for a class that an EEPROM doesn't have: `Word address:
/// ` with the address; `Write ` and `Read ` with the address of a byte, `: ` and the byte.
/// Addresses are upper case hexadecimal of at least four digits, bytes of two.
pub fn text(note: Note, buf: &mut LineBuf)
    requires { length buf.old + 64 ≤ 256 }
    ensures text { buf.new ≡ buf.old ++ note_text note.class note.a note.b }
    ensures short { length buf.new ≤ length buf.old + 64 }
{
    match note.class {
        0 => buf.push_labelled(b"Word address: ", note.a, 4),
        1 => {
            buf.push_labelled(b"Write ", note.b, 4);
            buf.push_labelled(b": ", note.a, 2);
        }
        2 => {
            buf.push_labelled(b"Read ", note.b, 4);
            buf.push_labelled(b": ", note.a, 2);
        }
        _ => {}
    }
}
