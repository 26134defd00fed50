// SPI: the whole list of events, cut into stretches, and the clocks of each into words.
ghost use Rattle.std.specs.Prelude.{◌≡◌, ◌<◌, ◌≤◌, ◌++◌, length, map, OnOk, IfOk};
ghost use Rattle.std.specs.Option.{ForSome};
ghost use Rattle.la_base.specs.declared.samples.TheConstants.{MOST_PINS};
ghost use Rattle.list_cuts.specs.Kept.{kept};
ghost use Rattle.list_cuts.specs.Places.{first_place, last_place};
ghost use Rattle.dec_spi.specs.Bus.{begins, ends, level_of, is_active_high, is_low_first};
ghost use Rattle.dec_spi.specs.Bus.{is_selected, is_edge, event_by, event_at, place_of, mosi_of};
ghost use Rattle.dec_spi.specs.Bus.{miso_of, value_of, bytes_of, pieces, word_class, word_outs};
ghost use Rattle.dec_spi.specs.Bus.{group_outs, words_outs, select_outs, end_outs, stretch_outs};
ghost use Rattle.dec_spi.specs.Bus.{spi_outs};
ghost use Rattle.decoder_core.specs.Outputs.{span_piece};
ghost use Rattle.dec_spi.specs.Opening.{InRange};
ghost use Rattle.reference_decoders.specs.Happenings.{meant, made, made_at, listed, meant_end};
ghost use Rattle.reference_decoders.specs.Happenings.{meant_part, LinesIn};

use crate::numbers::{high_first, low_first};
use dec_spi::SpiOpts;
use decoder_core::{note_at, packet_at, span_note, span_packet, span_piece};
use la_base::{Out, PacketKind, Word, pin};
use list_cuts::{Gives, Part, Test, events_of, groups_of, parts_between};
use std::alloc::{AllocError, Global};

// What happens on the bus, and at which sample: the device is selected, or not any more; a sampling
// edge, with the levels of MOSI and MISO.
#[derive(Clone, Copy)]
enum Event {
    Select(u64),
    Deselect(u64),
    Clock(u64, bool, bool),
}

fn level_of(line: Option<u32>, value: Word) -> bool
    requires { ForSome line (λ own. own < MOST_PINS) }
    ensures { result ≡ level_of line value }
{
    match line {
        Some(line) => pin(value, line),
        None => false,
    }
}

fn is_active_high(opts: &SpiOpts) -> bool
    ensures { result ≡ is_active_high opts.now }
{
    opts.mode == 1 || opts.mode == 3
}

fn is_low_first(opts: &SpiOpts) -> bool
    ensures { result ≡ is_low_first opts.now }
{
    opts.mode == 2 || opts.mode == 3
}

fn is_selected(opts: &SpiOpts, value: Word) -> bool
    requires { LinesIn MOST_PINS opts.now }
    ensures { result ≡ is_selected opts.now value }
{
    match opts.cs {
        Some(line) => {
            let level = pin(value, line);
            if is_active_high(opts) { level } else { !level }
        }
        None => true,
    }
}

// With polarity and phase equal bits are read at rises, else at falls.
fn is_edge(opts: &SpiOpts, before: Word, now: Word) -> bool
    requires { LinesIn MOST_PINS opts.now }
    ensures { result ≡ is_edge opts.now before now }
{
    let was_high = pin(before, opts.sck);
    let high = pin(now, opts.sck);
    if opts.cpol == opts.cpha {
        !was_high && high
    } else {
        was_high && !high
    }
}

// The event at a sample, by whether the one before it and its own are selected, and whether the
// clock has such an edge.
fn event_by(at: u64, before: bool, now: bool, edge: bool, mosi: bool, miso: bool) -> Option<Event>
    ensures { listed result ≡ map made (event_by at before now edge mosi miso) }
{
    match (before, now) {
        (false, true) => Some(Event::Select(at)),
        (true, false) => Some(Event::Deselect(at)),
        (true, true) => {
            if edge {
                Some(Event::Clock(at, mosi, miso))
            } else {
                None
            }
        }
        (false, false) => None,
    }
}

fn event_at(opts: &SpiOpts, at: u64, before: Option<Word>, now: Word) -> Option<Event>
    requires { LinesIn MOST_PINS opts.now }
    ensures { listed result ≡ made_at opts.now at before now }
{
    let is_now = is_selected(opts, now);
    let mosi = level_of(opts.mosi, now);
    let miso = level_of(opts.miso, now);
    match before {
        Some(before) => {
            let was = is_selected(opts, before);
            let edge = is_edge(opts, before, now);
            event_by(at, was, is_now, edge, mosi, miso)
        }
        None => event_by(at, false, is_now, false, mosi, miso),
    }
}

// What each sample gives with the one before it.
#[derive(Clone, Copy)]
struct Happens {
    opts: SpiOpts,
    ghost lines_in: { LinesIn MOST_PINS opts },
}

impl Gives<Word, Event> for Happens {
    ghost gives = { λ s place before now. made_at s.opts place before now };

    fn add(
        &self,
        place: usize,
        before: Option<Word>,
        now: Word,
        events: &mut Vec<Event>,
    ) -> Result<(), AllocError>
        ensures { OnOk result
            (events.new.items ≡ events.old.items ++ made_at self.now.opts place before now) }
    {
        if let Some(event) = event_at(&self.opts, place as u64, before, now) {
            events.push(event)?;
        }
        Ok(())
    }
}

// A stretch begins at a select, and ends at a deselect.
#[derive(Clone, Copy)]
struct Begins;

#[derive(Clone, Copy)]
struct Ends;

impl Test<Event> for Begins {
    ghost passes = { λ s event. begins (meant event) };

    fn test(&self, item: &Event) -> bool {
        matches!(item, Event::Select(_))
    }
}

impl Test<Event> for Ends {
    ghost passes = { λ s event. ends (meant event) };

    fn test(&self, item: &Event) -> bool {
        matches!(item, Event::Deselect(_))
    }
}

fn place_of(event: Event) -> u64
    ensures { result ≡ place_of (meant event) }
{
    match event {
        Event::Select(at) => at,
        Event::Deselect(at) => at,
        Event::Clock(at, _, _) => at,
    }
}

fn mosi_of(event: Event) -> bool
    ensures { result ≡ mosi_of (meant event) }
{
    match event {
        Event::Select(_) => false,
        Event::Deselect(_) => false,
        Event::Clock(_, mosi, _) => mosi,
    }
}

fn miso_of(event: Event) -> bool
    ensures { result ≡ miso_of (meant event) }
{
    match event {
        Event::Select(_) => false,
        Event::Deselect(_) => false,
        Event::Clock(_, _, miso) => miso,
    }
}

fn first_place(clocks: &[Event]) -> u64
    ensures { result ≡ first_place place_of (map meant clocks.now) }
{
    match clocks.first() {
        Some(clock) => place_of(*clock),
        None => 0,
    }
}

#[tactic(auto, using(crate::proofs::SpiMaps::last_more))]
fn last_place(clocks: &[Event]) -> u64
    ensures { result ≡ last_place place_of (map meant clocks.now) }
{
    let mut last = 0;
    for clock in clocks {
        last = place_of(*clock);
    }
    last
}

fn value_of(from_low: bool, levels: &[bool]) -> u64
    requires { length levels.now ≤ 32 }
    ensures { result ≡ value_of from_low levels.now }
{
    if from_low {
        low_first(levels)
    } else {
        high_first(levels)
    }
}

fn mosi_levels(alloc: Global, clocks: &[Event]) -> Result<Vec<bool>, AllocError>
    ensures { IfOk result (λ levels. levels.items ≡ map mosi_of (map meant clocks.now)) }
{
    let mut levels = Vec::new(alloc);
    for clock in clocks {
        levels.push(mosi_of(*clock))?;
    }
    Ok(levels)
}

fn miso_levels(alloc: Global, clocks: &[Event]) -> Result<Vec<bool>, AllocError>
    ensures { IfOk result (λ levels. levels.items ≡ map miso_of (map meant clocks.now)) }
{
    let mut levels = Vec::new(alloc);
    for clock in clocks {
        levels.push(miso_of(*clock))?;
    }
    Ok(levels)
}

// The lowest bytes of a number as pieces, the highest of them first.
fn add_bytes(
    count: u64,
    class: u16,
    first: u64,
    last: u64,
    number: u64,
    outs: &mut Vec<Out>,
) -> Result<(), AllocError>
    requires some { 1 ≤ count }
    requires most { count ≤ 4 }
    ensures { OnOk result
        (outs.new.items ≡ outs.old.items
        ++ map (λ byte. span_piece class first last byte) (bytes_of count number)) }
{
    if count > 3 {
        outs.push(span_piece(class, first, last, (number / 0x100_0000 % 256) as u8))?;
    }
    if count > 2 {
        outs.push(span_piece(class, first, last, (number / 0x1_0000 % 256) as u8))?;
    }
    if count > 1 {
        outs.push(span_piece(class, first, last, (number / 0x100 % 256) as u8))?;
    }
    outs.push(span_piece(class, first, last, (number % 256) as u8))?;
    Ok(())
}

fn add_pieces(
    opts: &SpiOpts,
    line: Option<u32>,
    class: u16,
    first: u64,
    last: u64,
    number: u64,
    outs: &mut Vec<Out>,
) -> Result<(), AllocError>
    requires { InRange MOST_PINS opts.now }
    ensures { OnOk result
        (outs.new.items ≡ outs.old.items ++ pieces opts.now.bits line class first last number) }
{
    if line.is_some() {
        add_bytes((opts.bits + 7) / 8, class, first, last, number, outs)?;
    }
    Ok(())
}

fn word_class(mosi: Option<u32>, miso: Option<u32>) -> u16
    ensures { result ≡ word_class mosi miso }
{
    match (mosi, miso) {
        (Some(_), Some(_)) => 1,
        (Some(_), None) => 2,
        (None, _) => 3,
    }
}

fn add_word(
    opts: &SpiOpts,
    first: u64,
    last: u64,
    mosi: u64,
    miso: u64,
    outs: &mut Vec<Out>,
) -> Result<(), AllocError>
    requires { InRange MOST_PINS opts.now }
    ensures { OnOk result
        (outs.new.items ≡ outs.old.items ++ word_outs opts.now first last mosi miso) }
{
    let class = word_class(opts.mosi, opts.miso);
    outs.push(span_note(class, first, last, mosi, miso))?;
    add_pieces(opts, opts.mosi, 0, first, last, mosi, outs)?;
    add_pieces(opts, opts.miso, 1, first, last, miso, outs)?;
    outs.push(span_packet(PacketKind::SpiWord, first, last, mosi, miso))?;
    Ok(())
}

fn add_group(
    alloc: Global,
    opts: &SpiOpts,
    clocks: &[Event],
    outs: &mut Vec<Out>,
) -> Result<(), AllocError>
    requires range { InRange MOST_PINS opts.now }
    requires few { length clocks.now ≤ 32 }
    ensures { OnOk result
        (outs.new.items ≡ outs.old.items ++ group_outs opts.now (map meant clocks.now)) }
{
    let from_low = is_low_first(opts);
    let mosi = value_of(from_low, &mosi_levels(alloc, clocks)?);
    let miso = value_of(from_low, &miso_levels(alloc, clocks)?);
    add_word(
        opts,
        first_place(clocks),
        last_place(clocks),
        mosi,
        miso,
        outs,
    )
}

fn add_words(
    alloc: Global,
    opts: &SpiOpts,
    clocks: &[Event],
    outs: &mut Vec<Out>,
) -> Result<(), AllocError>
    requires { InRange MOST_PINS opts.now }
    ensures { OnOk result
        (outs.new.items ≡ outs.old.items ++ words_outs opts.now (map meant clocks.now)) }
{
    let groups = groups_of(alloc, opts.bits as usize, clocks)?;
    for group in &groups {
        add_group(alloc, opts, group, outs)?;
    }
    Ok(())
}

fn add_select(at: u64, outs: &mut Vec<Out>) -> Result<(), AllocError>
    ensures { OnOk result (outs.new.items ≡ outs.old.items ++ select_outs at) }
{
    outs.push(note_at(0, at, 0))?;
    outs.push(packet_at(PacketKind::SpiSelect, at, 0))?;
    Ok(())
}

fn add_end(ended_by: Option<Event>, outs: &mut Vec<Out>) -> Result<(), AllocError>
    ensures { OnOk result (outs.new.items ≡ outs.old.items ++ end_outs (meant_end ended_by)) }
{
    if let Some(Event::Deselect(at)) = ended_by {
        outs.push(note_at(4, at, 0))?;
        outs.push(packet_at(PacketKind::SpiDeselect, at, 0))?;
    }
    Ok(())
}

fn add_stretch(
    alloc: Global,
    opts: &SpiOpts,
    stretch: &Part<Event>,
    outs: &mut Vec<Out>,
) -> Result<(), AllocError>
    requires { InRange MOST_PINS opts.now }
    ensures { OnOk result
        (outs.new.items ≡ outs.old.items ++ stretch_outs opts.now (meant_part (kept stretch.now))) }
{
    if let Some((Event::Select(at), clocks)) = stretch.items.split_first() {
        add_select(*at, outs)?;
        add_words(alloc, opts, clocks, outs)?;
        add_end(stretch.ended_by, outs)?;
    }
    Ok(())
}

/// All outputs of samples, by the definition of SPI.
pub fn outputs_of(alloc: Global, opts: &SpiOpts, samples: &[Word]) -> Result<Vec<Out>, AllocError>
    requires { InRange MOST_PINS opts.now }
    ensures { IfOk result (λ outs. outs.items ≡ spi_outs opts.now samples.now) }
{
    let events = events_of(alloc, &Happens { opts: *opts }, samples)?;
    let stretches = parts_between(alloc, &Begins, &Ends, &events)?;
    let mut outs = Vec::new(alloc);
    for stretch in &stretches {
        add_stretch(alloc, opts, stretch, &mut outs)?;
    }
    Ok(outs)
}
