// Notes as text.
ghost use Rattle.std.specs.Prelude.{◌≡◌, ◌+◌, ◌*◌, ◌/◌, ◌%◌, ◌≤◌, ◌<◌, ◌==◌, ◌++◌, codes, length};
ghost use Rattle.line_text.specs.Texts.{hex};
ghost use Rattle.dev_ds1307.specs.Texts.{bit, clock_text, date_text, half_of_day, hour_digits};
ghost use Rattle.dev_ds1307.specs.Texts.{if_set, labelled, note_text, register_text, time_text};

use la_base::Note;
use line_text::LineBuf;

// A label, and two digits.
#[tactic(auto, using(line_text::proofs::Widths::hex_exact))]
#[inline(never)]
fn push_two(label: &[u8], value: u64, buf: &mut LineBuf)
    requires two { value < 256 }
    requires room { length buf.old + length label.now + 2 ≤ 256 }
    ensures text { buf.new ≡ buf.old ++ labelled label.now value }
    ensures short { length buf.new ≡ length buf.old + length label.now + 2 }
{
    buf.push_bytes(label);
    buf.push_hex(value, 2);
}

// A label, and one digit.
#[tactic(auto, using(line_text::proofs::Widths::hex_exact))]
#[inline(never)]
fn push_one(label: &[u8], value: u64, buf: &mut LineBuf)
    requires one { value < 16 }
    requires room { length buf.old + length label.now + 1 ≤ 256 }
    ensures text { buf.new ≡ buf.old ++ (label.now ++ hex 1 value) }
    ensures short { length buf.new ≡ length buf.old + length label.now + 1 }
{
    buf.push_bytes(label);
    buf.push_hex(value, 1);
}

// Whether the bit of this weight is 1.
fn bit(byte: u64, weight: u64) -> bool
    requires { 0 < weight }
    ensures { result ≡ bit byte weight }
{
    byte / weight % 2 == 1
}

// A text, where the bit of this weight is 1.
fn push_if(byte: u64, weight: u64, text: &[u8], buf: &mut LineBuf)
    requires weight { 0 < weight }
    requires room { length buf.old + length text.now ≤ 256 }
    ensures text { buf.new ≡ buf.old ++ if_set byte weight text.now }
    ensures short { length buf.new ≤ length buf.old + length text.now }
{
    if bit(byte, weight) {
        buf.push_bytes(text);
    }
}

// The digits of the hours: of the half of a day where bit 6 is 1, else of the day.
fn hour_digits(hours: u64) -> u64
    ensures digits { result ≡ hour_digits hours }
    ensures few { result < 64 }
{
    if bit(hours, 64) {
        hours % 32
    } else {
        hours % 64
    }
}

// The half of the day, where the hours have one.
fn push_half_of_day(hours: u64, buf: &mut LineBuf)
    requires { length buf.old + 3 ≤ 256 }
    ensures text { buf.new ≡ buf.old ++ half_of_day hours }
    ensures short { length buf.new ≤ length buf.old + 3 }
{
    if bit(hours, 64) {
        if bit(hours, 32) {
            buf.push_label(b" PM");
        } else {
            buf.push_label(b" AM");
        }
    }
}

// A register by its name, and its value.
fn push_register(register: u64, byte: u64, buf: &mut LineBuf)
    requires { length buf.old + 50 ≤ 256 }
    ensures text { buf.new ≡ buf.old ++ register_text register byte }
    ensures short { length buf.new ≤ length buf.old + 50 }
{
    match register {
        0 => {
            push_two(b"seconds: ", byte % 128, buf);
            push_if(byte, 128, b" stopped", buf);
        }
        1 => push_two(b"minutes: ", byte % 128, buf),
        2 => {
            push_two(b"hours: ", hour_digits(byte), buf);
            push_half_of_day(byte, buf);
        }
        3 => push_one(b"day: ", byte % 8, buf),
        4 => push_two(b"date: ", byte % 64, buf),
        5 => push_two(b"month: ", byte % 32, buf),
        6 => buf.push_labelled(b"year: ", byte, 2),
        7 => buf.push_labelled(b"control: ", byte, 2),
        _ => {
            buf.push_labelled(b"RAM ", register, 2);
            buf.push_labelled(b": ", byte, 2);
        }
    }
}

// The time of day in seven bytes.
fn push_clock(time: u64, buf: &mut LineBuf)
    requires { length buf.old + 11 ≤ 256 }
    ensures text { buf.new ≡ buf.old ++ clock_text time }
    ensures short { length buf.new ≤ length buf.old + 11 }
{
    let hours = time / 65_536 % 256;
    push_two(b"", hour_digits(hours), buf);
    push_two(b":", time / 256 % 256 % 128, buf);
    push_two(b":", time % 256 % 128, buf);
    push_half_of_day(hours, buf);
}

// The date in seven bytes, and whether the clock is stopped.
fn push_date(time: u64, buf: &mut LineBuf)
    requires { length buf.old + 26 ≤ 256 }
    ensures text { buf.new ≡ buf.old ++ date_text time }
    ensures short { length buf.new ≤ length buf.old + 26 }
{
    push_two(b", ", time / 281_474_976_710_656 % 256, buf);
    push_two(b"-", time / 1_099_511_627_776 % 256 % 32, buf);
    push_two(b"-", time / 4_294_967_296 % 256 % 64, buf);
    push_one(b", day ", time / 16_777_216 % 256 % 8, buf);
    push_if(time % 256, 128, b", stopped", buf);
}

/// Appends the text of a note, and nothing for a class that a DS1307 doesn't have: `Pointer: ` with
/// a register; `Write ` and `Read ` with the name of a register and its value; `Set time: ` and
/// `Time: ` with the time of seven registers. Digits are those of the registers, which hold them in
/// BCD; registers and whole bytes are upper case hexadecimal.
pub fn text(note: Note, buf: &mut LineBuf)
    requires { length buf.old + 64 ≤ 256 }
    ensures text { buf.new ≡ buf.old ++ note_text note.class note.a note.b }
    ensures short { length buf.new ≤ length buf.old + 64 }
{
    match note.class {
        0 => buf.push_labelled(b"Pointer: ", note.a, 2),
        1 => {
            buf.push_label(b"Write ");
            push_register(note.b, note.a, buf);
        }
        2 => {
            buf.push_label(b"Read ");
            push_register(note.b, note.a, buf);
        }
        3 => {
            buf.push_label(b"Set time: ");
            push_clock(note.a, buf);
            push_date(note.a, buf);
        }
        4 => {
            buf.push_label(b"Time: ");
            push_clock(note.a, buf);
            push_date(note.a, buf);
        }
        _ => {}
    }
}
