// I2C: the whole list of events, cut into parts, and the clocks of each into bytes. A part is told
// by those before it, and a byte by those before it in its part.
ghost use Rattle.std.specs.Prelude.{◌≡◌, ◌<◌, ◌≤◌, ◌++◌, ℕ, Option, length, map, take, drop};
ghost use Rattle.std.specs.Prelude.{is_some, OnOk, IfOk};
ghost use Rattle.std.specs.List.{flat_map};
ghost use Rattle.la_base.specs.declared.samples.TheConstants.{MOST_PINS};
ghost use Rattle.list_cuts.specs.Places.{first_place, last_place};
ghost use Rattle.dec_i2c.specs.Bytes.{is_read, is_prefix, two_bits, ten_bits, is_write_prefix};
ghost use Rattle.dec_i2c.specs.Bytes.{written, read_by, role_second, role_behind, direction};
ghost use Rattle.dec_i2c.specs.Bytes.{address_outs, data_outs, first_class, first_outs, byte_outs};
ghost use Rattle.dec_i2c.specs.Bus.{event_by, event_at, place_of, level_of, start_outs, stop_outs};
ghost use Rattle.dec_i2c.specs.Bus.{ack_outs, bytes_of, value_of, byte_value, values_of};
ghost use Rattle.dec_i2c.specs.Bus.{eight_outs, group_outs, clocks_outs, is_mark, segment_in};
ghost use Rattle.dec_i2c.specs.Bus.{open_segment, bytes_in, begins_with, read_from, part_outs};
ghost use Rattle.dec_i2c.specs.Bus.{i2c_outs};
ghost use Rattle.dec_i2c.specs.Opening.{InRange};
ghost use Rattle.reference_decoders.specs.I2cHappenings.{meant, made, made_at, listed, all_meant};

use crate::numbers::high_first;
use dec_i2c::I2cOpts;
use decoder_core::{note_at, packet_at, span_note, span_packet, span_piece};
use la_base::{Out, PacketKind, Word, pin};
use list_cuts::{Gives, Test, after_groups_of, events_of, groups_of, parts_of};
use std::alloc::{AllocError, Global};

// What happens on the bus, and at which sample; a clock comes with the level of SDA.
#[derive(Clone, Copy)]
enum Event {
    Start(u64),
    Stop(u64),
    Clock(u64, bool),
}

// The event at a sample, by the levels of SCL before it and at it, and of SDA before it and at it.
fn event_by(at: u64, scl_before: bool, scl: bool, sda_before: bool, sda: bool) -> Option<Event>
    ensures { listed result ≡ map made (event_by at scl_before scl sda_before sda) }
{
    match (scl_before, scl) {
        (true, true) => match (sda_before, sda) {
            (true, false) => Some(Event::Start(at)),
            (false, true) => Some(Event::Stop(at)),
            (true, true) => None,
            (false, false) => None,
        },
        (true, false) => None,
        (false, true) => Some(Event::Clock(at, sda)),
        (false, false) => None,
    }
}

// What each sample gives with the one before it.
#[derive(Clone, Copy)]
struct Happens {
    opts: I2cOpts,
    ghost scl_below: { opts.scl < MOST_PINS },
    ghost sda_below: { opts.sda < MOST_PINS },
}

impl Gives<Word, Event> for Happens {
    ghost gives = { λ s place before now. made_at s.opts place before now };

    fn add(
        &self,
        place: usize,
        before: Option<Word>,
        now: Word,
        events: &mut Vec<Event>,
    ) -> Result<(), AllocError>
        ensures { OnOk result
            (events.new.items ≡ events.old.items ++ made_at self.now.opts place before now) }
    {
        if let Some(before) = before {
            let scl_before = pin(before, self.opts.scl);
            let scl = pin(now, self.opts.scl);
            let sda_before = pin(before, self.opts.sda);
            let sda = pin(now, self.opts.sda);
            if let Some(event) = event_by(place as u64, scl_before, scl, sda_before, sda) {
                events.push(event)?;
            }
        }
        Ok(())
    }
}

// START and STOP cut the events into parts.
#[derive(Clone, Copy)]
struct IsMark;

impl Test<Event> for IsMark {
    ghost passes = { λ s event. is_mark (meant event) };

    fn test(&self, item: &Event) -> bool {
        !matches!(item, Event::Clock(_, _))
    }
}

fn place_of(event: Event) -> u64
    ensures { result ≡ place_of (meant event) }
{
    match event {
        Event::Start(at) => at,
        Event::Stop(at) => at,
        Event::Clock(at, _) => at,
    }
}

fn level_of(event: Event) -> bool
    ensures { result ≡ level_of (meant event) }
{
    match event {
        Event::Start(_) => false,
        Event::Stop(_) => false,
        Event::Clock(_, level) => level,
    }
}

fn first_place(clocks: &[Event]) -> u64
    ensures { result ≡ first_place place_of (map meant clocks.now) }
{
    match clocks.first() {
        Some(clock) => place_of(*clock),
        None => 0,
    }
}

#[tactic(auto, using(crate::proofs::I2cMaps::last_more))]
fn last_place(clocks: &[Event]) -> u64
    ensures { result ≡ last_place place_of (map meant clocks.now) }
{
    let mut last = 0;
    for clock in clocks {
        last = place_of(*clock);
    }
    last
}

fn levels_of(alloc: Global, clocks: &[Event]) -> Result<Vec<bool>, AllocError>
    ensures { IfOk result (λ levels. levels.items ≡ map level_of (map meant clocks.now)) }
{
    let mut levels = Vec::new(alloc);
    for clock in clocks {
        levels.push(level_of(*clock))?;
    }
    Ok(levels)
}

// The first clocks of a byte, at most eight.
fn bits_of(byte: &[Event]) -> &[Event]
    ensures { result.now ≡ take 8 byte.now }
{
    byte.split_at(byte.len().min(8)).0
}

// The clocks behind them.
fn acks_of(byte: &[Event]) -> &[Event]
    ensures { result.now ≡ drop 8 byte.now }
{
    byte.split_at(byte.len().min(8)).1
}

// The number that a byte's first clocks make up.
#[tactic(auto, using(crate::proofs::I2cMaps::byte_is, crate::proofs::I2cMaps::eight_few))]
fn byte_value(alloc: Global, byte: &[Event]) -> Result<u8, AllocError>
    ensures { IfOk result (λ value. value ≡ byte_value (map meant byte.now)) }
{
    let levels = levels_of(alloc, bits_of(byte))?;
    Ok(high_first(&levels) as u8)
}

// The bytes of a segment's clocks: nine clocks are one, and so are eight behind them.
fn bytes_of(alloc: Global, clocks: &[Event]) -> Result<Vec<Vec<Event>>, AllocError>
    ensures { IfOk result (λ bytes. all_meant bytes.items ≡ bytes_of (map meant clocks.now)) }
{
    let mut bytes = groups_of(alloc, 9, clocks)?;
    let rest = after_groups_of(9, clocks);
    if rest.len() != 8 {
        return Ok(bytes);
    }
    bytes.push(Vec::from_slice(alloc, rest)?)?;
    Ok(bytes)
}

#[tactic(auto, using(crate::proofs::I2cMaps::values_more))]
fn values_of(alloc: Global, bytes: &[Vec<Event>]) -> Result<Vec<u8>, AllocError>
    ensures { IfOk result (λ values. values.items ≡ values_of (all_meant bytes.now)) }
{
    let mut values = Vec::new(alloc);
    for byte in bytes {
        values.push(byte_value(alloc, byte)?)?;
    }
    Ok(values)
}

// The values of the bytes of a part; a STOP has none.
fn bytes_in(alloc: Global, part: &[Event]) -> Result<Vec<u8>, AllocError>
    ensures { IfOk result (λ values. values.items ≡ bytes_in (segment_in (map meant part.now))) }
{
    match part.split_first() {
        Some((Event::Start(_), clocks)) => {
            let bytes = bytes_of(alloc, clocks)?;
            values_of(alloc, &bytes)
        }
        Some((Event::Stop(_), _)) => Ok(Vec::new(alloc)),
        Some((Event::Clock(_, _), _)) => Ok(Vec::new(alloc)),
        None => Ok(Vec::new(alloc)),
    }
}

fn is_segment(part: &[Event]) -> bool
    ensures { result ≡ is_some (segment_in (map meant part.now)) }
{
    match part.first() {
        Some(Event::Start(_)) => true,
        Some(Event::Stop(_)) => false,
        Some(Event::Clock(_, _)) => false,
        None => false,
    }
}

// Whether a segment is open behind some parts.
#[tactic(auto, using(crate::proofs::I2cMaps::open_more))]
fn is_open(earlier: &[Vec<Event>]) -> bool
    ensures { result ≡ is_some (open_segment (all_meant earlier.now)) }
{
    let mut open = false;
    for part in earlier {
        open = is_segment(part);
    }
    open
}

fn begins_with(byte: u8, values: &[u8]) -> bool
    ensures { result ≡ begins_with byte values.now }
{
    match values.first() {
        Some(first) => *first == byte,
        None => false,
    }
}

fn is_read(first: u8) -> bool
    ensures { result ≡ is_read first }
{
    first % 2 == 1
}

fn is_prefix(first: u8) -> bool
    ensures { result ≡ is_prefix first }
{
    first / 8 == 30
}

fn is_write_prefix(first: u8) -> bool
    ensures { result ≡ is_write_prefix first }
{
    is_prefix(first) && !is_read(first)
}

fn two_bits(first: u8) -> u8
    ensures value { result ≡ two_bits first }
    ensures small { result < 4 }
{
    first / 2 % 4
}

fn ten_bits(two: u8, lower: u8) -> u64
    ensures { result ≡ ten_bits two lower }
{
    256 * two as u64 + lower as u64
}

// The ten-bit address that a segment with these bytes writes to.
fn written(values: &[u8]) -> Option<u64>
    ensures { result ≡ written values.now }
{
    match values {
        [first, lower, ..] => {
            if is_write_prefix(*first) {
                Some(ten_bits(two_bits(*first), *lower))
            } else {
                None
            }
        }
        _ => None,
    }
}

fn read_by(first: u8, own: Option<u64>) -> Option<u64>
    ensures { result ≡ read_by first own }
{
    match own {
        Some(address) => {
            if is_prefix(first) && is_read(first) && two_bits(first) as u64 == address / 256 {
                Some(address)
            } else {
                None
            }
        }
        None => None,
    }
}

// The ten-bit address that a segment with this first byte reads from, by the parts before it: the
// last of them that doesn't begin with that byte too writes to it.
#[tactic(auto, using(crate::proofs::I2cMaps::other_passes, crate::proofs::I2cMaps::other_fails))]
fn read_from(alloc: Global, earlier: &[Vec<Event>], byte: u8) -> Result<Option<u64>, AllocError>
    ensures { IfOk result (λ own. own ≡ read_from (all_meant earlier.now) byte) }
{
    let mut last = Vec::new(alloc);
    for part in earlier {
        let values = bytes_in(alloc, part)?;
        if !begins_with(byte, &values) {
            last = values;
        }
    }
    Ok(read_by(byte, written(&last)))
}

fn add_address(
    class: u16,
    first: u64,
    last: u64,
    a: u64,
    b: u64,
    outs: &mut Vec<Out>,
) -> Result<(), AllocError>
    ensures { OnOk result (outs.new.items ≡ outs.old.items ++ address_outs class first last a b) }
{
    outs.push(span_note(class, first, last, a, 0))?;
    outs.push(span_packet(PacketKind::I2cAddress, first, last, a, b))?;
    Ok(())
}

// A data byte; `read` is 0 where it is written and 1 where it is read.
fn add_data(
    class: u16,
    read: u16,
    first: u64,
    last: u64,
    byte: u8,
    outs: &mut Vec<Out>,
) -> Result<(), AllocError>
    ensures { OnOk result
        (outs.new.items ≡ outs.old.items ++ data_outs class read first last byte) }
{
    outs.push(span_note(class, first, last, byte as u64, 0))?;
    outs.push(span_piece(read, first, last, byte))?;
    outs.push(span_packet(PacketKind::I2cData, first, last, byte as u64, read as u64))?;
    Ok(())
}

fn first_class(byte: u8) -> u16
    ensures { result ≡ first_class byte }
{
    if byte == 0 {
        9
    } else if is_prefix(byte) {
        if is_read(byte) { 13 } else { 10 }
    } else {
        if is_read(byte) { 4 } else { 3 }
    }
}

fn add_first(
    own: Option<u64>,
    first: u64,
    last: u64,
    byte: u8,
    outs: &mut Vec<Out>,
) -> Result<(), AllocError>
    ensures { OnOk result (outs.new.items ≡ outs.old.items ++ first_outs own first last byte) }
{
    match own {
        Some(address) => add_address(12, first, last, address, 3, outs),
        None => {
            let a = (byte / 2) as u64;
            let b = (byte % 2) as u64;
            add_address(first_class(byte), first, last, a, b, outs)
        }
    }
}

// Data in the direction of their segment, which begins with the byte `head`.
fn add_directed(
    head: u8,
    first: u64,
    last: u64,
    byte: u8,
    outs: &mut Vec<Out>,
) -> Result<(), AllocError>
    ensures { (known : ℕ → Option ℕ) → OnOk result
        (outs.new.items ≡ outs.old.items ++ byte_outs known (direction head) first last byte) }
{
    if is_read(head) {
        add_data(6, 1, first, last, byte, outs)
    } else {
        add_data(5, 0, first, last, byte, outs)
    }
}

// The second byte of a segment that begins with the byte `head`.
fn add_second(
    head: u8,
    first: u64,
    last: u64,
    byte: u8,
    outs: &mut Vec<Out>,
) -> Result<(), AllocError>
    ensures { (known : ℕ → Option ℕ) → OnOk result
        (outs.new.items ≡ outs.old.items ++ byte_outs known (role_second head) first last byte) }
{
    if is_write_prefix(head) {
        add_address(11, first, last, ten_bits(two_bits(head), byte), 2, outs)
    } else if head == 0 {
        add_data(14, 0, first, last, byte, outs)
    } else {
        add_directed(head, first, last, byte, outs)
    }
}

// A byte, by the parts before its own and the bytes before it there.
fn add_byte(
    alloc: Global,
    earlier: &[Vec<Event>],
    before: &[u8],
    first: u64,
    last: u64,
    byte: u8,
    outs: &mut Vec<Out>,
) -> Result<(), AllocError>
    ensures { OnOk result
        (outs.new.items ≡ outs.old.items
        ++ byte_outs (read_from (all_meant earlier.now)) (role_behind before.now) first last byte) }
{
    match before {
        [] => {
            let own = read_from(alloc, earlier, byte)?;
            add_first(own, first, last, byte, outs)
        }
        [head] => add_second(*head, first, last, byte, outs),
        [head, _, ..] => add_directed(*head, first, last, byte, outs),
    }
}

fn add_ack(at: u64, level: bool, outs: &mut Vec<Out>) -> Result<(), AllocError>
    ensures { OnOk result (outs.new.items ≡ outs.old.items ++ ack_outs at level) }
{
    if level {
        outs.push(note_at(8, at, 0))?;
        outs.push(packet_at(PacketKind::I2cAck, at, 1))?;
    } else {
        outs.push(note_at(7, at, 0))?;
        outs.push(packet_at(PacketKind::I2cAck, at, 0))?;
    }
    Ok(())
}

fn add_acks(acks: &[Event], outs: &mut Vec<Out>) -> Result<(), AllocError>
    ensures { OnOk result
        (outs.new.items ≡ outs.old.items
        ++ flat_map (λ clock. ack_outs (place_of clock) (level_of clock)) (map meant acks.now)) }
{
    for ack in acks {
        add_ack(place_of(*ack), level_of(*ack), outs)?;
    }
    Ok(())
}

// A byte with its acknowledge bit, by the parts before its own and the bytes before it there.
fn add_group(
    alloc: Global,
    earlier: &[Vec<Event>],
    before: &[Vec<Event>],
    byte: &[Event],
    outs: &mut Vec<Out>,
) -> Result<(), AllocError>
    ensures { OnOk result
        (outs.new.items ≡ outs.old.items
        ++ group_outs (read_from (all_meant earlier.now)) (all_meant before.now)
        (map meant byte.now)) }
{
    let bits = bits_of(byte);
    let value = byte_value(alloc, byte)?;
    let values = values_of(alloc, before)?;
    let first = first_place(bits);
    let last = last_place(bits);
    add_byte(alloc, earlier, &values, first, last, value, outs)?;
    add_acks(acks_of(byte), outs)?;
    Ok(())
}

fn add_clocks(
    alloc: Global,
    earlier: &[Vec<Event>],
    clocks: &[Event],
    outs: &mut Vec<Out>,
) -> Result<(), AllocError>
    ensures { OnOk result
        (outs.new.items ≡ outs.old.items
        ++ clocks_outs (read_from (all_meant earlier.now)) (map meant clocks.now)) }
{
    let bytes = bytes_of(alloc, clocks)?;
    let list = bytes.as_slice();
    for (place, byte) in list.iter().enumerate() {
        add_group(alloc, earlier, &list[..place], byte, outs)?;
    }
    Ok(())
}

fn add_start(again: bool, at: u64, outs: &mut Vec<Out>) -> Result<(), AllocError>
    ensures { OnOk result (outs.new.items ≡ outs.old.items ++ start_outs again at) }
{
    if again {
        outs.push(note_at(1, at, 0))?;
        outs.push(packet_at(PacketKind::I2cStart, at, 1))?;
    } else {
        outs.push(note_at(0, at, 0))?;
        outs.push(packet_at(PacketKind::I2cStart, at, 0))?;
    }
    Ok(())
}

fn add_stop(at: u64, outs: &mut Vec<Out>) -> Result<(), AllocError>
    ensures { OnOk result (outs.new.items ≡ outs.old.items ++ stop_outs at) }
{
    outs.push(note_at(2, at, 0))?;
    outs.push(packet_at(PacketKind::I2cStop, at, 0))?;
    Ok(())
}

// A part, by those before it.
fn add_part(
    alloc: Global,
    earlier: &[Vec<Event>],
    part: &[Event],
    outs: &mut Vec<Out>,
) -> Result<(), AllocError>
    ensures { OnOk result
        (outs.new.items ≡ outs.old.items
        ++ part_outs (all_meant earlier.now) (map meant part.now)) }
{
    match part.split_first() {
        Some((Event::Start(at), clocks)) => {
            add_start(is_open(earlier), *at, outs)?;
            add_clocks(alloc, earlier, clocks, outs)
        }
        Some((Event::Stop(at), _)) => add_stop(*at, outs),
        Some((Event::Clock(_, _), _)) => Ok(()),
        None => Ok(()),
    }
}

/// All outputs of samples, by the definition of I2C.
pub fn outputs_of(alloc: Global, opts: I2cOpts, samples: &[Word]) -> Result<Vec<Out>, AllocError>
    requires { InRange MOST_PINS opts }
    ensures { IfOk result (λ outs. outs.items ≡ i2c_outs opts.scl opts.sda samples.now) }
{
    let events = events_of(alloc, &Happens { opts }, samples)?;
    let parts = parts_of(alloc, &IsMark, &events)?;
    let list = parts.as_slice();
    let mut outs = Vec::new(alloc);
    for (place, part) in list.iter().enumerate() {
        add_part(alloc, &list[..place], part, &mut outs)?;
    }
    Ok(outs)
}
