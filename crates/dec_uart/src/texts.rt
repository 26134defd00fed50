// Notes as text.
ghost use Rattle.std.specs.Prelude.{◌≡◌, ◌+◌, ◌≤◌, ◌++◌, length};
ghost use Rattle.dec_uart.specs.Texts.{note_text};

use la_base::Note;
use line_text::LineBuf;

/// Appends the text of a note, and nothing for a class that a serial line doesn't have: `False
/// start`, the data in upper case hexadecimal with at least two digits, `Parity error`, `Frame
/// error`, `Break`.
#[tactic(auto, using(line_text::proofs::Widths::hex_room))]
pub fn text(note: Note, buf: &mut LineBuf)
    requires { length buf.old + 64 ≤ 256 }
    ensures text { buf.new ≡ buf.old ++ note_text note.class note.a }
    ensures short { length buf.new ≤ length buf.old + 64 }
{
    match note.class {
        0 => buf.push_label(b"False start"),
        1 => buf.push_hex(note.a, 2),
        2 => buf.push_label(b"Parity error"),
        3 => buf.push_label(b"Frame error"),
        4 => buf.push_label(b"Break"),
        _ => {}
    }
}
