// Notes as text.
ghost use Rattle.std.specs.Prelude.{◌≡◌, ◌+◌, ◌<◌, ◌≤◌, ◌++◌, length, codes};
ghost use Rattle.std.specs.Fmt.{decimal};
ghost use Rattle.dec_midi.specs.Texts.{datum_one, datum_two, note_text, on_channel};
ghost use Rattle.dec_midi.specs.Texts.{real_time_name, wide_number, with_one, with_two, with_wide};

use la_base::Note;
use line_text::LineBuf;

// A label, and a number in decimal.
fn labelled(label: &[u8], value: u64, buf: &mut LineBuf)
    requires { length buf.old + length label.now + 20 ≤ 256 }
    ensures text { buf.new ≡ buf.old ++ (label.now ++ decimal value) }
    ensures short { length buf.new ≤ length buf.old + length label.now + 20 }
{
    buf.push_bytes(label);
    buf.push_number(value);
}

// A number of at most five digits, behind a label.
#[tactic(auto, using(crate::proofs::Widths::short_decimal))]
fn short(label: &[u8], value: u64, buf: &mut LineBuf)
    requires small { value < 100000 }
    requires room { length buf.old + length label.now + 5 ≤ 256 }
    ensures text { buf.new ≡ buf.old ++ (label.now ++ decimal value) }
    ensures short { length buf.new ≤ length buf.old + length label.now + 5 }
{
    buf.push_bytes(label);
    buf.push_dec(value);
}

// The first data byte of a message, its second, and the number that both make up.
fn one_of(a: u64) -> u64
    ensures value { result ≡ datum_one a }
    ensures small { result ≤ 255 }
{
    a / 256 % 256
}

fn two_of(a: u64) -> u64
    ensures value { result ≡ datum_two a }
    ensures small { result ≤ 255 }
{
    a % 256
}

fn wide_of(a: u64) -> u64
    ensures value { result ≡ wide_number a }
    ensures small { result < 100000 }
{
    128 * two_of(a) + one_of(a)
}

// The name of a channel message, and its channel.
fn channel(name: &[u8], a: u64, buf: &mut LineBuf)
    requires name { length name.now ≤ 16 }
    requires room { length buf.old + 64 ≤ 256 }
    ensures text { buf.new ≡ buf.old ++ (name.now ++ on_channel a) }
    ensures short { length buf.new ≤ length buf.old + 36 }
{
    buf.push_bytes(name);
    short(b" channel ", a / 65536 % 16 + 1, buf);
    buf.push_label(b": ");
}

// A channel message with one data byte, with two, and with a number of both.
#[inline(never)]
fn channel_one(name: &[u8], a: u64, buf: &mut LineBuf)
    requires name { length name.now ≤ 16 }
    requires room { length buf.old + 64 ≤ 256 }
    ensures text { buf.new ≡ buf.old ++ (name.now ++ with_one a) }
    ensures short { length buf.new ≤ length buf.old + 64 }
{
    channel(name, a, buf);
    short(b"", one_of(a), buf);
}

#[inline(never)]
fn channel_two(name: &[u8], a: u64, buf: &mut LineBuf)
    requires name { length name.now ≤ 16 }
    requires room { length buf.old + 64 ≤ 256 }
    ensures text { buf.new ≡ buf.old ++ (name.now ++ with_two a) }
    ensures short { length buf.new ≤ length buf.old + 64 }
{
    channel(name, a, buf);
    short(b"", one_of(a), buf);
    short(b" ", two_of(a), buf);
}

#[inline(never)]
fn channel_wide(name: &[u8], a: u64, buf: &mut LineBuf)
    requires name { length name.now ≤ 16 }
    requires room { length buf.old + 64 ≤ 256 }
    ensures text { buf.new ≡ buf.old ++ (name.now ++ with_wide a) }
    ensures short { length buf.new ≤ length buf.old + 64 }
{
    channel(name, a, buf);
    short(b"", wide_of(a), buf);
}

// The name of a real time message.
fn real_time(byte: u64, buf: &mut LineBuf)
    requires { length buf.old + 32 ≤ 256 }
    ensures text { buf.new ≡ buf.old ++ real_time_name byte }
    ensures short { length buf.new ≤ length buf.old + 32 }
{
    match byte {
        0xF8 => buf.push_label(b"clock"),
        0xFA => buf.push_label(b"start"),
        0xFB => buf.push_label(b"continue"),
        0xFC => buf.push_label(b"stop"),
        0xFE => buf.push_label(b"active sensing"),
        0xFF => buf.push_label(b"reset"),
        _ => buf.push_labelled(b"", byte, 2),
    }
}

#[inline(never)]
fn named_real_time(byte: u64, buf: &mut LineBuf)
    requires { length buf.old + 64 ≤ 256 }
    ensures text { buf.new ≡ buf.old ++ (codes "Realtime: " ++ real_time_name byte) }
    ensures short { length buf.new ≤ length buf.old + 64 }
{
    buf.push_label(b"Realtime: ");
    real_time(byte, buf);
}

// A label, and a number of bytes.
#[inline(never)]
fn counted(label: &[u8], count: u64, buf: &mut LineBuf)
    requires label { length label.now ≤ 24 }
    requires room { length buf.old + 64 ≤ 256 }
    ensures text { buf.new ≡ buf.old ++ (label.now ++ (decimal count ++ codes " bytes")) }
    ensures short { length buf.new ≤ length buf.old + 64 }
{
    labelled(label, count, buf);
    buf.push_label(b" bytes");
}

/// Appends the text of a note, and nothing for a class that MIDI doesn't have. A channel message is
/// its name, ` channel ` with the channel, and its data bytes, or for a pitch bend their number;
/// `Quarter frame: `, `Song position: ` and `Song select: ` have theirs; then `Tune request`;
/// `Realtime: ` with its name; `System exclusive: ` and `System exclusive cut: ` with the number of
/// data bytes; `Stray: ` and `Undefined: ` with the byte. Numbers are decimal, and bytes, also that
/// of a real time message without a name, upper case hexadecimal of two digits.
pub fn text(note: Note, buf: &mut LineBuf)
    requires { length buf.old + 64 ≤ 256 }
    ensures text { buf.new ≡ buf.old ++ note_text note.class note.a }
    ensures short { length buf.new ≤ length buf.old + 64 }
{
    match note.class {
        0 => channel_two(b"Note off", note.a, buf),
        1 => channel_two(b"Note on", note.a, buf),
        2 => channel_two(b"Key pressure", note.a, buf),
        3 => channel_two(b"Control change", note.a, buf),
        4 => channel_one(b"Program change", note.a, buf),
        5 => channel_one(b"Channel pressure", note.a, buf),
        6 => channel_wide(b"Pitch bend", note.a, buf),
        7 => labelled(b"Quarter frame: ", one_of(note.a), buf),
        8 => labelled(b"Song position: ", wide_of(note.a), buf),
        9 => labelled(b"Song select: ", one_of(note.a), buf),
        10 => buf.push_label(b"Tune request"),
        11 => named_real_time(note.a, buf),
        12 => counted(b"System exclusive: ", note.a, buf),
        13 => counted(b"System exclusive cut: ", note.a, buf),
        14 => buf.push_labelled(b"Stray: ", note.a, 2),
        15 => buf.push_labelled(b"Undefined: ", note.a, 2),
        _ => {}
    }
}
