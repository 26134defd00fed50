//! The link of 1-Wire: the edges of the whole line, the pulses that they end, and what each says.
ghost use Rattle.std.specs.Prelude.{◌≡◌, ◌<◌, ◌≤◌, ◌^◌, ◌++◌, ◌∷◌, [], IfOk, OnOk, option_map};
ghost use Rattle.la_base.specs.declared.samples.TheConstants.{MOST_PINS};
ghost use Rattle.decoder_core.specs.Outputs.{span_note, span_packet};
ghost use Rattle.dec_onewire.specs.Link.{answers, is_reset, lengths_of, link_outs, pulse_outs};
ghost use Rattle.reference_devices.specs.LinkParts.{line_edge, line_pulse, pulse_of};

use dec_onewire::OwLinkOpts;
use dec_onewire::link::Lengths;
use decoder_core::{span_note, span_packet};
use la_base::{Out, PacketKind, Rate, Word, pin};
use list_cuts::{Gives, events_of};
use rate_math::samples_of_ns;
use std::alloc::{AllocError, Global};

/// An edge of the line: at which sample, and whether the line is high there.
#[derive(Clone, Copy)]
pub struct Edge {
    at: u64,
    high: bool,
}

/// A pulse: where the line falls, and where it rises.
#[derive(Clone, Copy)]
pub struct Pulse {
    fall: u64,
    rise: u64,
}

// Gives the edges of a line.
#[derive(Clone, Copy)]
struct Edges {
    line: u32,
    ghost below: { line < MOST_PINS },
}

impl Gives<Word, Edge> for Edges {
    ghost gives = { λ s place before now. line_edge s.line place before now };

    fn add(
        &self,
        place: usize,
        before: Option<Word>,
        now: Word,
        events: &mut Vec<Edge>,
    ) -> Result<(), AllocError>
        ensures { OnOk result
            (events.new.items ≡ events.old.items ++ line_edge self.now.line place before now) }
    {
        match before {
            Some(before) => {
                let high = pin(now, self.line);
                if pin(before, self.line) != high {
                    let at = place as u64;
                    events.push(Edge { at, high })?;
                }
                Ok(())
            }
            None => Ok(()),
        }
    }
}

// Gives the pulses that edges end.
#[derive(Clone, Copy)]
struct Pulses;

impl Gives<Edge, Pulse> for Pulses {
    ghost gives = { λ _ place before now. line_pulse place before now };

    fn add(
        &self,
        _place: usize,
        before: Option<Edge>,
        now: Edge,
        events: &mut Vec<Pulse>,
    ) -> Result<(), AllocError>
        ensures { OnOk result
            (events.new.items ≡ events.old.items ++ line_pulse _place before now) }
    {
        match before {
            Some(before) => {
                if !before.high && now.high {
                    let (fall, rise) = (before.at, now.at);
                    events.push(Pulse { fall, rise })?;
                }
                Ok(())
            }
            None => Ok(()),
        }
    }
}

fn is_reset(lengths: Lengths, pulse: Pulse) -> bool
    ensures { result ≡ is_reset lengths (pulse_of pulse) }
{
    lengths.reset <= pulse.rise.saturating_sub(pulse.fall)
}

// Whether a pulse answers the one before it.
fn answers(lengths: Lengths, before: Option<Pulse>, pulse: Pulse) -> bool
    ensures { result ≡ answers lengths (option_map pulse_of before) (pulse_of pulse) }
{
    match before {
        Some(before) => {
            is_reset(lengths, before) && pulse.fall.saturating_sub(before.rise) <= lengths.window
        }
        None => false,
    }
}

// Gives what pulses say.
#[derive(Clone, Copy)]
struct Says {
    lengths: Lengths,
}

// Appends a note and a packet.
fn add_both(
    class: u16,
    kind: PacketKind,
    pulse: Pulse,
    a: u64,
    outs: &mut Vec<Out>,
) -> Result<(), AllocError>
    ensures { OnOk result (outs.new.items ≡ outs.old.items
        ++ span_note class pulse.fall pulse.rise a 0
        ∷ span_packet kind pulse.fall pulse.rise a 0 ∷ []) }
{
    outs.push(span_note(class, pulse.fall, pulse.rise, a, 0))?;
    outs.push(span_packet(kind, pulse.fall, pulse.rise, a, 0))?;
    Ok(())
}

impl Gives<Pulse, Out> for Says {
    ghost gives = { λ s place before now.
        pulse_outs s.lengths place (option_map pulse_of before) (pulse_of now) };

    fn add(
        &self,
        _place: usize,
        before: Option<Pulse>,
        now: Pulse,
        events: &mut Vec<Out>,
    ) -> Result<(), AllocError>
        ensures { OnOk result (events.new.items ≡ events.old.items
            ++ pulse_outs self.now.lengths _place (option_map pulse_of before) (pulse_of now)) }
    {
        if is_reset(self.lengths, now) {
            return add_both(0, PacketKind::OwReset, now, 0, events);
        }
        if answers(self.lengths, before, now) {
            return add_both(1, PacketKind::OwPresence, now, 0, events);
        }
        let bit = now.rise.saturating_sub(now.fall) < self.lengths.bit;
        add_both(2, PacketKind::OwBit, now, bit as u64, events)
    }
}

// The times of the options as numbers of samples.
fn lengths_of(opts: OwLinkOpts, rate: Rate) -> Lengths
    requires reset { opts.reset ≤ 10 ^ 9 }
    requires window { opts.window ≤ 10 ^ 9 }
    requires bit { opts.bit ≤ 10 ^ 9 }
    requires rate { rate.num ≤ 10 ^ 15 }
    ensures { result ≡ lengths_of opts rate }
{
    Lengths {
        reset: samples_of_ns(rate, opts.reset),
        window: samples_of_ns(rate, opts.window),
        bit: samples_of_ns(rate, opts.bit),
    }
}

/// All that samples give, by the definition of the link.
pub fn outputs_of(
    alloc: Global,
    opts: OwLinkOpts,
    rate: Rate,
    samples: &[Word],
) -> Result<Vec<Out>, AllocError>
    requires dq { opts.dq < MOST_PINS }
    requires reset { opts.reset ≤ 10 ^ 9 }
    requires window { opts.window ≤ 10 ^ 9 }
    requires bit { opts.bit ≤ 10 ^ 9 }
    requires rate { rate.num ≤ 10 ^ 15 }
    ensures { IfOk result (λ outs. outs.items ≡ link_outs opts rate samples.now) }
{
    let edges = events_of(alloc, &Edges { line: opts.dq }, samples)?;
    let pulses = events_of(alloc, &Pulses, &edges)?;
    let lengths = lengths_of(opts, rate);
    let outs = events_of(alloc, &Says { lengths }, &pulses)?;
    Ok(outs)
}
