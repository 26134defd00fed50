// A clock in a stretch, taken by masks.
ghost use Rattle.std.specs.Prelude.{◌≡◌, ◌≤◌, ◌++◌, length, true};
ghost use Rattle.dec_spi.specs.Bus.{word_outs};
ghost use Rattle.dec_spi.specs.laws.Machine.{mask_of};
ghost use Rattle.dec_spi.specs.laws.Lines.{is_low, reads, lines_of, no_bits, bits_next, bits_give};
ghost use Rattle.dec_spi.specs.laws.Lines.{is_clock, clocked, clock_outs};

use crate::levels::{is_active_high, is_low_first};
use crate::outputs::give_word;
use crate::words::{no_bits, start_of, with_bit};
use crate::{Bits, Bus, Held, SpiOpts};
use decoder_core::Outs;

/// The lines of a bus as masks of the lower half of a sample, 0 for a line that isn't given. Where
/// one lies in the upper half, no sample is selected, so that no clock is taken by it.
#[derive(Clone, Copy, PartialEq, Eq)]
pub struct Lines {
    pub select: u64,
    /// What the select line reads while the device is selected.
    pub active: u64,
    pub mosi: u64,
    pub miso: u64,
    pub low_first: bool,
}

// Whether a line, if it is given, lies in the lower half.
fn is_low(line: Option<u32>) -> bool
    ensures { result ≡ is_low line }
{
    match line {
        Some(line) => line < 64,
        None => true,
    }
}

fn mask_of(line: Option<u32>) -> u64
    requires { true ≡ is_low line }
    ensures { result ≡ mask_of line }
{
    match line {
        Some(line) => 1 << line,
        None => 0,
    }
}

/// The lines of a bus with these options.
pub fn lines_of(opts: &SpiOpts) -> Lines
    ensures { result ≡ lines_of opts.now }
{
    if is_low(opts.cs) && is_low(opts.mosi) && is_low(opts.miso) {
        let select = mask_of(opts.cs);
        Lines {
            select,
            active: if is_active_high(opts) { select } else { 0 },
            mosi: mask_of(opts.mosi),
            miso: mask_of(opts.miso),
            low_first: is_low_first(opts),
        }
    } else {
        Lines {
            select: 0,
            active: 1,
            mosi: 0,
            miso: 0,
            low_first: false,
        }
    }
}

// Whether a line is high.
#[inline(always)]
fn reads(mask: u64, low: u64) -> bool
    ensures { result ≡ reads mask low }
{
    low & mask != 0
}

// Puts out a word that is whole, and begins the next one. It isn't inlined, so that other clocks
// have their registers.
#[inline(never)]
fn end_word(bus: &Bus, word: &mut Bits, at: u64, into: &mut Outs)
    requires { length into.old ≤ 16 }
    ensures gives { into.new ≡ into.old
        ++ word_outs bus.now.opts word.old.first at word.old.mosi word.old.miso }
    ensures next { word.new ≡ no_bits }
{
    give_word(bus, word.first, at, word.mosi, word.miso, into);
    *word = no_bits();
}

// A clock in a stretch.
#[inline(always)]
fn take(bus: &Bus, lines: &Lines, word: &mut Bits, at: u64, low: u64, into: &mut Outs)
    requires { length into.old ≤ 16 }
    ensures gives { into.new ≡ into.old ++ bits_give bus.now.opts lines.now word.old at low }
    ensures next { word.new ≡ bits_next bus.now.opts lines.now word.old at low }
{
    word.mosi = with_bit(
        lines.low_first,
        word.count,
        word.mosi,
        reads(lines.mosi, low),
    );
    word.miso = with_bit(
        lines.low_first,
        word.count,
        word.miso,
        reads(lines.miso, low),
    );
    word.first = start_of(word.count, word.first, at);
    if word.count as u64 + 1 < bus.opts.bits {
        word.count += 1;
    } else {
        end_word(bus, word, at, into);
    }
}

/// Takes in place a clock in a stretch, by the lower half of the sample, and puts out the word that
/// ends with it, if one does. Answers whether it did; nothing is changed where it didn't.
#[inline(always)]
pub fn takes_clock(
    bus: &Bus,
    lines: &Lines,
    held: &mut Held,
    at: u64,
    low: u64,
    into: &mut Outs,
) -> bool
    requires { length into.old ≤ 16 }
    ensures answers { result ≡ is_clock lines.now held.old low }
    ensures gives { into.new ≡ into.old ++ clock_outs bus.now.opts lines.now held.old at low }
    ensures next { held.new ≡ clocked bus.now.opts lines.now held.old at low }
{
    match held {
        Held::Inside(word) => {
            if low & lines.select == lines.active {
                take(bus, lines, word, at, low, into);
                true
            } else {
                false
            }
        }
        _ => false,
    }
}
