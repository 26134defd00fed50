// What lines are put together from.
ghost use Rattle.std.specs.Prelude.{◌≡◌, ◌+◌, ◌≤◌, ◌++◌, length};

use line_text::LineBuf;

/// Appends a short text.
pub fn push_text(line: &mut LineBuf, text: &str)
    requires short { length text.now ≤ 32 }
    requires room { length line.old ≤ 200 }
    ensures line { line.new ≡ line.old ++ text.now }
    ensures grows { length line.new ≡ length line.old + length text.now }
{
    line.push_bytes(text.as_bytes());
}
