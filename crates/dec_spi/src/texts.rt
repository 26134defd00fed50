// Notes as text.
ghost use Rattle.std.specs.Prelude.{◌≡◌, ◌+◌, ◌≤◌, ◌++◌, length};
ghost use Rattle.dec_spi.specs.Texts.{note_text};

use la_base::Note;
use line_text::LineBuf;

/// Appends the text of a note, and nothing for a class that SPI doesn't have: `Select`, `MOSI ` and
/// `MISO ` with the values of a word in upper case hexadecimal with at least two digits,
/// `Deselect`.
pub fn text(note: Note, buf: &mut LineBuf)
    requires { length buf.old + 64 ≤ 256 }
    ensures text { buf.new ≡ buf.old ++ note_text note.class note.a note.b }
    ensures short { length buf.new ≤ length buf.old + 64 }
{
    match note.class {
        0 => buf.push_label(b"Select"),
        1 => {
            buf.push_labelled(b"MOSI ", note.a, 2);
            buf.push_labelled(b" MISO ", note.b, 2);
        }
        2 => buf.push_labelled(b"MOSI ", note.a, 2),
        3 => buf.push_labelled(b"MISO ", note.b, 2),
        4 => buf.push_label(b"Deselect"),
        _ => {}
    }
}
