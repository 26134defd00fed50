// What a stop puts out.
ghost use Rattle.std.specs.Prelude.{◌≡◌, ◌≤◌, ◌<◌, ◌+◌, ◌^◌, ◌++◌, length};
ghost use Rattle.dec_uart.specs.Frames.{pieces, break_outs};
ghost use Rattle.dec_uart.specs.laws.Machine.{word_outs, point_outs, stop_outs};

use crate::frames::{data_of, parity_wrong, stop_wrong, with_level};
use crate::points::{break_length, last_bit};
use crate::{Held, Line};
use decoder_core::{Outs, span_note, span_packet, span_piece};
use la_base::PacketKind;

// A byte, or two bytes with the higher first.
fn give_pieces(line: Line, start: u64, at: u64, value: u64, into: &mut Outs)
    requires room { length into.old ≤ 19 }
    requires small { value < 2 ^ line.opts.bits }
    ensures gives { into.new ≡ into.old ++ pieces line.opts start at value }
    ensures few { length into.new ≤ length into.old + 2 }
{
    if line.opts.bits == 9 {
        into.push(span_piece(0, start, at, (value / 256) as u8));
        into.push(span_piece(0, start, at, (value % 256) as u8));
    } else {
        into.push(span_piece(0, start, at, value as u8));
    }
}

fn give_frame(line: Line, start: u64, at: u64, word: u16, into: &mut Outs)
    requires { length into.old ≤ 16 }
    ensures { into.new ≡ into.old ++ word_outs line.opts start at word }
{
    let value = data_of(line, word);
    let parity = parity_wrong(line, word);
    let stop = stop_wrong(line, word);
    into.push(span_note(1, start, at, value, 0));
    if parity {
        into.push(span_note(2, start, at, 0, 0));
    }
    if stop {
        into.push(span_note(3, start, at, 0, 0));
    }
    give_pieces(line, start, at, value, into);
    into.push(span_packet(
        PacketKind::UartFrame,
        start,
        at,
        value,
        parity as u64 + 2 * stop as u64,
    ));
}

// What point i of a frame gives.
#[inline(never)]
fn give_point(line: Line, start: u64, i: u64, word: u16, at: u64, level: bool, into: &mut Outs)
    requires room { length into.old ≤ 16 }
    requires early { i ≤ 12 }
    ensures { into.new ≡ into.old ++ point_outs line.opts start i word at level }
{
    if i == 0 && level {
        into.push(span_note(0, start, at, 0, 0));
    } else if last_bit(line) <= i {
        give_frame(line, start, at, with_level(i, word, level), into);
    }
}

// A break, where the line was low for long enough.
#[inline(never)]
fn give_break(line: Line, start: u64, at: u64, into: &mut Outs)
    requires { length into.old ≤ 16 }
    ensures { into.new ≡ into.old ++ break_outs line.opts line.rate start at }
{
    if at.saturating_sub(start) >= break_length(line) {
        into.push(span_note(4, start, at, 0, 0));
        into.push(span_packet(PacketKind::UartBreak, start, at, 0, 0));
    }
}

/// Puts out what a stop gives. Inlined, since most stops give nothing.
#[inline(always)]
pub fn give(line: Line, held: Held, at: u64, level: bool, into: &mut Outs)
    requires { length into.old ≤ 16 }
    ensures { into.new ≡ into.old ++ stop_outs line.opts line.rate held at level }
{
    match held {
        Held::Idle => {}
        Held::Inside {
            start,
            points,
            word,
            ..
        } => {
            let i = (points as u64).min(last_bit(line));
            give_point(line, start, i, word, at, level, into);
        }
        Held::Low { start } => give_break(line, start, at, into),
    }
}
