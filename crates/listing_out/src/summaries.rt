// The lines that tell how much decoders gave.
ghost use Rattle.std.specs.Prelude.{◌≡◌, ◌≤◌, ◌+◌, ◌++◌, length, OnOk};
ghost use Rattle.std.specs.Io.KnownBytes.{Appends};
ghost use Rattle.la_io.specs.Causes.{AppendsFront, HasCause};
ghost use Rattle.listing_out.specs.Summaries.{summary, tally_line};

use crate::text::push_text;
use kind_table::{Kind, kind_name};
use la_io::{Failed, Sink, write_whole};
use line_text::LineBuf;

/// How many notes an instance gave, and the sum of their values modulo 2^32.
#[derive(Clone, Copy, PartialEq, Eq)]
pub struct Tally {
    pub count: u64,
    pub sum: u64,
}

// Appends the line of the first instance of a kind.
fn push_tally(line: &mut LineBuf, kind: Kind, tally: Tally)
    requires room { length line.old ≤ 128 }
    ensures line { line.new ≡ line.old ++ tally_line kind tally }
    ensures grows { length line.new ≤ length line.old + 90 }
{
    push_text(line, kind_name(kind));
    push_text(line, "-1: ");
    line.push_number(tally.count);
    push_text(line, " notes, sum ");
    line.push_number(tally.sum);
    push_text(line, "\n");
}

/// Writes three lines: how many samples there were, and what a bus and a serial line gave. After
/// `Failed` a front of them is written.
pub fn write_summary<K: Sink>(
    sink: &mut K,
    samples: u64,
    bus: Tally,
    line: Tally,
) -> Result<(), Failed>
    ensures whole { OnOk result
        (Appends (K.written sink.old) (K.written sink.new) (summary samples bus line)) }
    ensures front { AppendsFront (K.written sink.old) (K.written sink.new)
        (summary samples bus line) }
    ensures cause { HasCause (K.faults sink.old) (K.faults sink.new) result }
    ensures goes_on { K.goes_on sink.old sink.new }
{
    let mut text = LineBuf::new();
    push_text(&mut text, "samples: ");
    text.push_number(samples);
    push_text(&mut text, "\n");
    push_tally(&mut text, Kind::I2c, bus);
    push_tally(&mut text, Kind::Uart, line);
    write_whole(sink, text.bytes())
}
