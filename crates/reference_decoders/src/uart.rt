// Serial lines: the whole list of falls, and the frames that are taken from it one behind the
// other, each looked at on the whole list of samples.
ghost use Rattle.std.specs.Prelude.{◌≡◌, ◌≤◌, ◌<◌, ◌^◌, ◌++◌, [], ◌∷◌, if◌then◌else◌, OnOk, IfOk};
ghost use Rattle.std.specs.Prelude.{ℕ, List, Some, length, take, drop, not};
ghost use Rattle.std.specs.List.{list_any, count_by};
ghost use Rattle.decoder_core.specs.Outputs.{span_note};
ghost use Rattle.dec_uart.specs.Chain.{fall_at, level, high_from, levels_at, any_high, look};
ghost use Rattle.dec_uart.specs.Chain.{is_open, behind, starts, starts_from, look_outs, near_of};
ghost use Rattle.dec_uart.specs.Frames.{parity_of, parity_bits, before_stop, last_bit, bit_point};
ghost use Rattle.dec_uart.specs.Frames.{break_length, breaks, parity_wrong, stop_wrong, pieces};
ghost use Rattle.dec_uart.specs.Frames.{data_of, told_outs, frame_outs, break_outs, uart_outs};
ghost use Rattle.dec_uart.specs.Frames.{uart_near};
ghost use Rattle.reference_decoders.specs.Looking.{line_shape, shown};

use crate::numbers::low_first;
use dec_uart::Line;
use decoder_core::{span_note, span_packet, span_piece};
use la_base::{Out, PacketKind, Word, pin};
use list_cuts::{Gives, events_of};
use rate_math::{point, samples_of_bits};
use std::alloc::{AllocError, Global};

// What a frame shows: a point that has to be looked at lies behind the samples; the line is high at
// point 0, so that it is no frame; the levels at all points, some of them high; or the levels, all
// of them low, and the first place behind the last point at which the line is high.
#[derive(Drop)]
enum Look {
    Ahead,
    FalseStart,
    Whole(Vec<bool>),
    AllLow(Vec<bool>, Option<u64>),
}

fn parity_bits(parity: u64) -> u64
    ensures count { result ≡ parity_bits (parity_of parity) }
    ensures few { result ≤ 1 }
{
    if parity == 0 { 0 } else { 1 }
}

fn before_stop(line: Line) -> u64
    ensures count { result ≡ before_stop line.opts }
    ensures few { result ≤ 11 }
{
    1 + line.opts.bits + parity_bits(line.opts.parity)
}

fn last_bit(line: Line) -> u64
    ensures last { result ≡ last_bit line.opts }
    ensures few { result ≤ 12 }
{
    before_stop(line) + line.opts.stop - 1
}

fn bit_point(line: Line, i: u64) -> u64
    requires { i ≤ 12 }
    ensures place { result ≡ bit_point line.opts line.rate i }
    ensures early { result ≤ 2 ^ 61 }
{
    point(line.rate, line.opts.baud, line.opts.sp, i)
}

fn break_length(line: Line) -> u64
    ensures { result ≡ break_length line.opts line.rate }
{
    samples_of_bits(line.rate, line.opts.baud, last_bit(line) + 1)
}

// What each sample gives with the one before it: its place, where the line falls.
#[derive(Clone, Copy)]
struct Falls {
    line: Line,
}

impl Gives<Word, u64> for Falls {
    ghost gives = { λ s place before now. fall_at s.line.opts.rx place before now };

    fn add(
        &self,
        place: usize,
        before: Option<Word>,
        now: Word,
        events: &mut Vec<u64>,
    ) -> Result<(), AllocError>
        ensures { OnOk result
            (events.new.items ≡ events.old.items
            ++ fall_at self.now.line.opts.rx place before now) }
    {
        if let Some(before) = before {
            if pin(before, self.line.opts.rx) && !pin(now, self.line.opts.rx) {
                events.push(place as u64)?;
            }
        }
        Ok(())
    }
}

// The level of the line at a place; behind the samples it is low.
fn level(line: Line, samples: &[Word], place: u64) -> bool
    ensures { result ≡ level (line_shape line) samples.now place }
{
    match samples.get(place as usize) {
        Some(sample) => pin(*sample, line.opts.rx),
        None => false,
    }
}

// The first place, from another on, at which the line is high.
#[tactic(auto, using(crate::proofs::UartLists::first_high))]
fn high_from(line: Line, samples: &[Word], from: u64) -> Option<u64>
    requires few { length samples.now ≤ 2 ^ 60 }
    requires within { from ≤ length samples.now }
    ensures { result ≡ high_from line.opts.rx from (drop from samples.now) }
{
    let (_, later) = samples.split_at(from as usize);
    for (place, sample) in later.iter().enumerate() {
        if pin(*sample, line.opts.rx) {
            return Some(from + place as u64);
        }
    }
    None
}

// The levels at the first points of a frame, so many.
fn levels_at(
    alloc: Global,
    line: Line,
    samples: &[Word],
    f: u64,
    count: u64,
) -> Result<Vec<bool>, AllocError>
    requires early { f ≤ 2 ^ 60 }
    requires few { count ≤ 13 }
    ensures { IfOk result
        (λ levels. levels.items ≡ levels_at (line_shape line) samples.now f count) }
{
    let mut levels = Vec::new(alloc);
    for i in 0..count {
        levels.push(level(line, samples, f + bit_point(line, i)))?;
    }
    Ok(levels)
}

fn any_high(levels: &[bool]) -> bool
    ensures { result ≡ any_high levels.now }
{
    levels.iter().any(|level| *level)
}

fn seen_at(alloc: Global, line: Line, samples: &[Word], f: u64) -> Result<Look, AllocError>
    requires few { length samples.now ≤ 2 ^ 60 }
    requires early { f ≤ 2 ^ 60 }
    ensures { IfOk result (λ seen. shown seen ≡ look (line_shape line) samples.now f) }
{
    let count = samples.len() as u64;
    let first = f + bit_point(line, 0);
    let bit = last_bit(line);
    let last = f + bit_point(line, bit);
    if first >= count {
        return Ok(Look::Ahead);
    }
    if level(line, samples, first) {
        return Ok(Look::FalseStart);
    }
    if last >= count {
        return Ok(Look::Ahead);
    }
    let levels = levels_at(alloc, line, samples, f, bit + 1)?;
    if any_high(&levels) {
        Ok(Look::Whole(levels))
    } else {
        Ok(Look::AllLow(levels, high_from(line, samples, last + 1)))
    }
}

fn is_open(seen: &Look) -> bool
    ensures { result ≡ is_open (shown seen.now) }
{
    match seen {
        Look::Ahead => true,
        Look::FalseStart => false,
        Look::Whole(_) => false,
        Look::AllLow(_, high) => high.is_none(),
    }
}

// The place behind the last point of a frame that is looked at.
fn behind(line: Line, f: u64, seen: &Look) -> u64
    requires early { f ≤ 2 ^ 60 }
    ensures { result ≡ behind (line_shape line) f (shown seen.now) }
{
    match seen {
        Look::FalseStart => f + bit_point(line, 0) + 1,
        Look::Ahead => f + bit_point(line, last_bit(line)) + 1,
        Look::Whole(_) => f + bit_point(line, last_bit(line)) + 1,
        Look::AllLow(_, _) => f + bit_point(line, last_bit(line)) + 1,
    }
}

// Adds a fall, if it stands at place `from` or later: a frame begins there. Answers from where on
// the next may.
fn add_start(
    alloc: Global,
    line: Line,
    samples: &[Word],
    from: u64,
    f: u64,
    starts: &mut Vec<u64>,
) -> Result<u64, AllocError>
    requires few { length samples.now ≤ 2 ^ 60 }
    requires early { f ≤ 2 ^ 60 }
    ensures { IfOk result (λ next. (later : List ℕ)
        → starts.new.items ++ starts_from (line_shape line) samples.now next later
        ≡ starts.old.items ++ starts_from (line_shape line) samples.now from (f ∷ later)) }
{
    if f < from {
        return Ok(from);
    }
    starts.push(f)?;
    let seen = seen_at(alloc, line, samples, f)?;
    Ok(behind(line, f, &seen))
}

// Where frames begin.
fn starts(alloc: Global, line: Line, samples: &[Word]) -> Result<Vec<u64>, AllocError>
    requires { length samples.now ≤ 2 ^ 60 }
    ensures { IfOk result (λ places. places.items ≡ starts (line_shape line) samples.now) }
{
    let falls = events_of(alloc, &Falls { line }, samples)?;
    let mut starts = Vec::new(alloc);
    let mut from = 0;
    for f in &falls {
        from = add_start(alloc, line, samples, from, *f, &mut starts)?;
    }
    Ok(starts)
}

// The levels behind the first `from`, at most `count` of them.
fn part_of(levels: &[bool], from: u64, count: u64) -> &[bool]
    ensures { result.now ≡ take count (drop from levels.now) }
{
    let behind = levels.split_at((from as usize).min(levels.len())).1;
    behind.split_at((count as usize).min(behind.len())).0
}

fn ones_of(levels: &[bool]) -> u64
    ensures { result ≡ count_by (λ level. level) levels.now }
{
    levels.iter().filter(|level| **level).count() as u64
}

// Whether a parity bit, and the number of ones in data and parity bit together, break a parity.
fn breaks(parity: u64, bit: bool, ones: u64) -> bool
    ensures { result ≡ breaks (parity_of parity) bit ones }
{
    match parity {
        0 => false,
        1 => ones % 2 == 0,
        2 => ones % 2 == 1,
        3 => bit,
        _ => !bit,
    }
}

fn parity_wrong(line: Line, levels: &[bool]) -> bool
    ensures { result ≡ parity_wrong line.opts levels.now }
{
    let bits = line.opts.bits;
    let bit = match levels.get(bits as usize + 1) {
        Some(level) => *level,
        None => false,
    };
    breaks(line.opts.parity, bit, ones_of(part_of(levels, 1, bits + 1)))
}

fn any_low(levels: &[bool]) -> bool
    ensures { result ≡ list_any not levels.now }
{
    levels.iter().any(|level| !*level)
}

fn stop_wrong(line: Line, levels: &[bool]) -> bool
    ensures { result ≡ stop_wrong line.opts levels.now }
{
    let place = before_stop(line) as usize;
    any_low(levels.split_at(place.min(levels.len())).1)
}

fn add_pieces(
    line: Line,
    f: u64,
    end: u64,
    value: u64,
    outs: &mut Vec<Out>,
) -> Result<(), AllocError>
    requires { value < 2 ^ line.opts.bits }
    ensures { OnOk result (outs.new.items ≡ outs.old.items ++ pieces line.opts f end value) }
{
    if line.opts.bits == 9 {
        outs.push(span_piece(0, f, end, (value / 256) as u8))?;
        outs.push(span_piece(0, f, end, (value % 256) as u8))?;
        Ok(())
    } else {
        outs.push(span_piece(0, f, end, value as u8))?;
        Ok(())
    }
}

// A note without values, if it is wanted.
fn add_note(
    class: u16,
    is_wanted: bool,
    f: u64,
    end: u64,
    outs: &mut Vec<Out>,
) -> Result<(), AllocError>
    ensures { OnOk result
        (outs.new.items ≡ outs.old.items
        ++ (if is_wanted then span_note class f end 0 0 ∷ [] else [])) }
{
    if is_wanted {
        outs.push(span_note(class, f, end, 0, 0))?;
    }
    Ok(())
}

// A frame with this data, and whether its parity and a stop bit are wrong.
fn add_told(
    line: Line,
    f: u64,
    end: u64,
    value: u64,
    parity: bool,
    stop: bool,
    outs: &mut Vec<Out>,
) -> Result<(), AllocError>
    requires { value < 2 ^ line.opts.bits }
    ensures { OnOk result
        (outs.new.items ≡ outs.old.items ++ told_outs line.opts f end value parity stop) }
{
    outs.push(span_note(1, f, end, value, 0))?;
    add_note(2, parity, f, end, outs)?;
    add_note(3, stop, f, end, outs)?;
    add_pieces(line, f, end, value, outs)?;
    let wrong = parity as u64 + 2 * stop as u64;
    outs.push(span_packet(PacketKind::UartFrame, f, end, value, wrong))?;
    Ok(())
}

// The data of the bits of a frame.
#[tactic(auto, using(crate::proofs::LevelLaws::low_below_count))]
fn data_of(line: Line, levels: &[bool]) -> u64
    ensures value { result ≡ data_of line.opts levels.now }
    ensures small { result < 2 ^ line.opts.bits }
{
    low_first(part_of(levels, 1, line.opts.bits))
}

fn add_frame(
    line: Line,
    f: u64,
    end: u64,
    levels: &[bool],
    outs: &mut Vec<Out>,
) -> Result<(), AllocError>
    ensures { OnOk result
        (outs.new.items ≡ outs.old.items ++ frame_outs line.opts f end levels.now) }
{
    let value = data_of(line, levels);
    let parity = parity_wrong(line, levels);
    let stop = stop_wrong(line, levels);
    add_told(line, f, end, value, parity, stop, outs)
}

// A line that is low from f up to r, where a frame was low at all its points: a break, if it is
// long enough.
fn add_break(line: Line, f: u64, r: u64, outs: &mut Vec<Out>) -> Result<(), AllocError>
    ensures { OnOk result (outs.new.items ≡ outs.old.items ++ break_outs line.opts line.rate f r) }
{
    if r.saturating_sub(f) >= break_length(line) {
        outs.push(span_note(4, f, r, 0, 0))?;
        outs.push(span_packet(PacketKind::UartBreak, f, r, 0, 0))?;
    }
    Ok(())
}

fn add_look(line: Line, f: u64, seen: &Look, outs: &mut Vec<Out>) -> Result<(), AllocError>
    requires early { f ≤ 2 ^ 60 }
    ensures { OnOk result
        (outs.new.items ≡ outs.old.items ++ look_outs (line_shape line) f (shown seen.now)) }
{
    let end = f + bit_point(line, last_bit(line));
    match seen {
        Look::Ahead => Ok(()),
        Look::FalseStart => {
            outs.push(span_note(0, f, f + bit_point(line, 0), 0, 0))?;
            Ok(())
        }
        Look::Whole(levels) => add_frame(line, f, end, levels, outs),
        Look::AllLow(levels, high) => {
            add_frame(line, f, end, levels, outs)?;
            match high {
                Some(r) => add_break(line, f, *r, outs),
                None => Ok(()),
            }
        }
    }
}

/// All outputs of the samples of a serial line, by the definition of its frames.
pub fn outputs_of(alloc: Global, line: Line, samples: &[Word]) -> Result<Vec<Out>, AllocError>
    requires { length samples.now ≤ 2 ^ 60 }
    ensures { IfOk result (λ outs. outs.items ≡ uart_outs line.opts line.rate samples.now) }
{
    let starts = starts(alloc, line, samples)?;
    let mut outs = Vec::new(alloc);
    for f in &starts {
        add_look(line, *f, &seen_at(alloc, line, samples, *f)?, &mut outs)?;
    }
    Ok(outs)
}

// What is near, where the last frame starts at f.
fn near_at(alloc: Global, line: Line, samples: &[Word], f: u64) -> Result<u64, AllocError>
    requires few { length samples.now ≤ 2 ^ 60 }
    requires early { f ≤ 2 ^ 60 }
    ensures { IfOk result (λ near. near ≡ near_of (line_shape line) samples.now (Some f)) }
{
    let seen = seen_at(alloc, line, samples, f)?;
    if is_open(&seen) {
        Ok(f)
    } else {
        Ok(samples.len() as u64)
    }
}

/// Where the last frame starts, if it has something still to give; else the number of samples.
pub fn near_of(alloc: Global, line: Line, samples: &[Word]) -> Result<u64, AllocError>
    requires { length samples.now ≤ 2 ^ 60 }
    ensures { IfOk result (λ near. near ≡ uart_near line.opts line.rate samples.now) }
{
    let starts = starts(alloc, line, samples)?;
    let places = starts.as_slice();
    if places.len() == 0 {
        return Ok(samples.len() as u64);
    }
    near_at(alloc, line, samples, places[places.len() - 1])
}
