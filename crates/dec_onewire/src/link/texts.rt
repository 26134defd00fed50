// Notes of the link as text.
ghost use Rattle.std.specs.Prelude.{◌≡◌, ◌+◌, ◌≤◌, ◌++◌, length};
ghost use Rattle.dec_onewire.specs.Texts.{link_text};

use la_base::Note;
use line_text::LineBuf;

/// Appends the text of a note, and nothing for a class that the link doesn't have: `Reset`,
/// `Presence`, and `Bit: ` with the bit.
pub fn text(note: Note, buf: &mut LineBuf)
    requires { length buf.old + 64 ≤ 256 }
    ensures text { buf.new ≡ buf.old ++ link_text note.class note.a }
    ensures short { length buf.new ≤ length buf.old + 64 }
{
    match note.class {
        0 => buf.push_bytes(b"Reset"),
        1 => buf.push_bytes(b"Presence"),
        2 => {
            if note.a == 0 {
                buf.push_bytes(b"Bit: 0");
            } else {
                buf.push_bytes(b"Bit: 1");
            }
        }
        _ => {}
    }
}
