// What a pulse says and gives.
ghost use Rattle.std.specs.Prelude.{◌≡◌, ◌≤◌, ◌++◌, length};
ghost use Rattle.dec_onewire.specs.Link.{To};
ghost use Rattle.dec_onewire.specs.laws.LinkMachine.{reset_by, answers_by, pulse_gives, end_by};
ghost use Rattle.dec_onewire.specs.laws.LinkMachine.{gives, next, near_by};

use super::{Held, Lengths};
use decoder_core::{Outs, span_note, span_packet};
use la_base::PacketKind;

// Whether a pulse of so many samples is a reset.
fn is_reset(lengths: &Lengths, width: u64) -> bool
    ensures { result ≡ reset_by lengths.now width }
{
    lengths.reset <= width
}

// Whether a pulse that falls here answers the reset that has ended there.
fn answers(lengths: &Lengths, reset_end: Option<u64>, fall: u64) -> bool
    ensures { result ≡ answers_by lengths.now reset_end fall }
{
    match reset_end {
        Some(end) => fall.saturating_sub(end) <= lengths.window,
        None => false,
    }
}

// Puts out what a pulse gives.
fn give_pulse(lengths: &Lengths, reset_end: Option<u64>, fall: u64, rise: u64, into: &mut Outs)
    requires { length into.old ≤ 16 }
    ensures { into.new ≡ into.old ++ pulse_gives lengths.now reset_end fall rise }
{
    let width = rise.saturating_sub(fall);
    if is_reset(lengths, width) {
        into.push(span_note(0, fall, rise, 0, 0));
        into.push(span_packet(PacketKind::OwReset, fall, rise, 0, 0));
    } else if answers(lengths, reset_end, fall) {
        into.push(span_note(1, fall, rise, 0, 0));
        into.push(span_packet(PacketKind::OwPresence, fall, rise, 0, 0));
    } else {
        let bit = (width < lengths.bit) as u64;
        into.push(span_note(2, fall, rise, bit, 0));
        into.push(span_packet(PacketKind::OwBit, fall, rise, bit, 0));
    }
}

/// Puts out what an edge gives.
pub fn give(lengths: &Lengths, held: Held, at: u64, level: bool, into: &mut Outs)
    requires { length into.old ≤ 16 }
    ensures { into.new ≡ into.old ++ gives lengths.now held (To at level) }
{
    if level {
        match held.fall {
            Some(fall) => give_pulse(lengths, held.reset_end, fall, at, into),
            None => {}
        }
    }
}

// Where the last pulse has ended behind a rise, if it was a reset.
fn reset_end(lengths: &Lengths, held: Held, at: u64) -> Option<u64>
    ensures { result ≡ end_by lengths.now held.fall held.reset_end at }
{
    match held.fall {
        Some(fall) => {
            if is_reset(lengths, at.saturating_sub(fall)) {
                Some(at)
            } else {
                None
            }
        }
        None => held.reset_end,
    }
}

/// What is kept behind an edge.
pub fn next(lengths: &Lengths, held: Held, at: u64, level: bool) -> Held
    ensures { result ≡ next lengths.now held (To at level) }
{
    if level {
        Held {
            fall: None,
            reset_end: reset_end(lengths, held, at),
        }
    } else {
        Held {
            fall: Some(at),
            reset_end: held.reset_end,
        }
    }
}

/// Where the pulse starts that hasn't ended yet, else the number of samples.
pub fn near(held: Held, count: u64) -> u64
    ensures { result ≡ near_by held count }
{
    match held.fall {
        Some(fall) => fall,
        None => count,
    }
}
