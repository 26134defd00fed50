// Decoders of any kind by texts: their options, what they are fed with, and what they give of it.
use decoder_core::{Machine, Outs};
use decoder_set::AnyDecoder;
use kind_table::{Kind, MOST_OPTIONS, OptValues, kind_of};
use la_base::{Feed, Out, Packet, PacketKind, Rate, Run, Word};
use line_text::LineBuf;
use listing_out::note_text;
use std::alloc::{AllocError, Global};
use std::test::Fail;

/// A megahertz.
pub const RATE: Rate = Rate {
    num: 1_000_000,
    den: 1,
};

/// The kind that a text names, and the values of its options behind blanks, of which those aren't given
/// that are no numbers.
pub fn setup_of(text: &str) -> Result<(Kind, OptValues), Fail> {
    let mut words = text.split(' ');
    let kind = kind_of(words.next().unwrap_or("").as_bytes()).ok_or("no kind")?;
    let mut given = [None; MOST_OPTIONS];
    for (place, word) in words.enumerate() {
        if place < MOST_OPTIONS {
            given[place] = word.parse::<u64>().ok();
        }
    }
    Ok((kind, OptValues { given }))
}

/// The decoder of a text, which has consumed nothing.
pub fn opened(text: &str) -> Result<AnyDecoder, Fail> {
    let (kind, values) = setup_of(text)?;
    match AnyDecoder::open(kind, values, RATE) {
        Ok(decoder) => Ok(decoder),
        Err(_) => Err("not opened".into()),
    }
}

// The kind of the packets that a letter stands for.
fn kind_by(letter: &str) -> PacketKind {
    match letter {
        "s" => PacketKind::I2cStart,
        "p" => PacketKind::I2cStop,
        "a" => PacketKind::I2cAddress,
        "d" => PacketKind::I2cData,
        "k" => PacketKind::I2cAck,
        "S" => PacketKind::SpiSelect,
        "W" => PacketKind::SpiWord,
        "D" => PacketKind::SpiDeselect,
        "F" => PacketKind::UartFrame,
        "B" => PacketKind::UartBreak,
        "r" => PacketKind::OwReset,
        "q" => PacketKind::OwPresence,
        "b" => PacketKind::OwBit,
        "R" => PacketKind::NetReset,
        "C" => PacketKind::NetCommand,
        "M" => PacketKind::NetRom,
        _ => PacketKind::NetByte,
    }
}

// The letter of a packet that a bus or a line gives.
fn letter_of(kind: PacketKind) -> &'static str {
    match kind {
        PacketKind::SpiSelect => "S",
        PacketKind::SpiWord => "W",
        PacketKind::SpiDeselect => "D",
        PacketKind::UartFrame => "F",
        PacketKind::UartBreak => "B",
        PacketKind::I2cStart => "s",
        _ => "?",
    }
}

// The number that hexadecimal digits write.
fn hex(digits: &str) -> u64 {
    u64::from_str_radix(digits, 16).unwrap_or(0)
}

// The packet of a word: the letter of its kind, its values in hexadecimal digits with a slash between
// them, and behind an @ its span. Without that, packet j goes from sample 10 j to sample 10 j + 9.
fn packet_of(word: &str, place: u64) -> Packet {
    let (what, span) = word.split_once('@').unwrap_or((word, ""));
    let (letter, values) = what.split_at_checked(1).unwrap_or(("", ""));
    let (a, b) = values.split_once('/').unwrap_or((values, ""));
    let (first, last) = span.split_once('-').unwrap_or(("", ""));
    let start = first.parse::<u64>().unwrap_or(place.saturating_mul(10));
    let end = last.parse::<u64>().unwrap_or(start.saturating_add(9));
    Packet {
        kind: kind_by(letter),
        start,
        end: end.max(start),
        a: hex(a),
        b: hex(b),
    }
}

/// The packets of words.
pub fn packets_of(alloc: Global, text: &str) -> Result<Vec<Packet>, AllocError> {
    let mut packets = Vec::new(alloc);
    for (place, word) in text.split_whitespace().enumerate() {
        packets.push(packet_of(word, place as u64))?;
    }
    Ok(packets)
}

/// Samples, a hexadecimal digit for each. Its highest bit is that of all lines above it, too.
pub fn samples_of(alloc: Global, digits: &str) -> Result<Vec<Word>, AllocError> {
    let mut samples = Vec::new(alloc);
    for digit in digits.chars() {
        let value = Word::from(digit.to_digit(16).unwrap_or(0));
        samples.push(if value < 8 {
            value
        } else {
            Word::MAX << 4 | value
        })?;
    }
    Ok(samples)
}

/// Feeds: samples behind `=`, or packets.
pub fn feeds_of(alloc: Global, text: &str) -> Result<Vec<Feed>, AllocError> {
    let mut feeds = Vec::new(alloc);
    for (place, word) in text.split_whitespace().enumerate() {
        match word.strip_prefix('=') {
            None => feeds.push(Feed::Packet(packet_of(word, place as u64)))?,
            Some(digits) => {
                for value in &samples_of(alloc, digits)? {
                    let run = Run {
                        value: *value,
                        len: 1,
                    };
                    feeds.push(Feed::Run(run))?;
                }
            }
        }
    }
    Ok(feeds)
}

/// All that a decoder gives of feeds, none of which it stops inside of.
pub fn outputs_of<M: Machine>(
    alloc: Global,
    machine: &mut M,
    feeds: &[Feed],
) -> Result<Vec<Out>, AllocError> {
    let mut all = Vec::new(alloc);
    let mut outs = Outs::new();
    for feed in feeds {
        outs.clear();
        machine.step(*feed, &mut outs);
        all.extend_from_slice(outs.list())?;
    }
    Ok(all)
}

/// What outputs of a decoder of this kind say, each behind its span: a note its text, a piece its class
/// and its byte, a packet the letter of its kind and its values.
pub fn said(alloc: Global, kind: Kind, outs: &[Out]) -> Result<String, AllocError> {
    let mut lines = String::new(alloc);
    for out in outs {
        match *out {
            Out::Note(note) => {
                let mut buf = LineBuf::new();
                note_text(kind, note, &mut buf);
                let text = str::from_utf8(buf.bytes()).unwrap_or("?");
                write!(lines, " {}-{} {text};", note.start, note.end)?;
            }
            Out::Piece(piece) => {
                let (start, end) = (piece.start, piece.end);
                write!(lines, " {start}-{end} .{} {:02X};", piece.class, piece.byte)?;
            }
            Out::Packet(packet) => {
                let (start, end) = (packet.start, packet.end);
                let letter = letter_of(packet.kind);
                write!(
                    lines,
                    " {start}-{end} #{letter} {:X}/{:X};",
                    packet.a, packet.b
                )?;
            }
        }
    }
    Ok(lines)
}

/// Whether a decoder gives what its row says: the decoder, its feeds, and what it says of them.
pub fn holds(alloc: Global, row: &str) -> Result<bool, Fail> {
    let (setup, rest) = row.split_once('|').unwrap_or(("", ""));
    let (feeds, want) = rest.split_once('|').unwrap_or(("", "?"));
    let (kind, _) = setup_of(setup)?;
    let feeds = feeds_of(alloc, feeds)?;
    let outs = outputs_of(alloc, &mut opened(setup)?, &feeds)?;
    Ok(said(alloc, kind, &outs)?.as_str() == want)
}

/// Whether a decoder has the floors that its row says, the first before all feeds, and one after
/// each. Before its kind and a colon may stand the place from which on all packets come, which is
/// else 0.
pub fn floors_hold(alloc: Global, row: &str) -> Result<bool, Fail> {
    let (head, rest) = row.split_once('|').unwrap_or(("", ""));
    let (feeds, want) = rest.split_once('|').unwrap_or(("", "?"));
    let (place, setup) = head.split_once(':').unwrap_or(("0", head));
    let above = place.parse::<u64>().unwrap_or(0);
    let mut machine = opened(setup)?;
    let mut floors = format!(in alloc; "{}", machine.floor(above))?;
    let mut outs = Outs::new();
    for feed in &feeds_of(alloc, feeds)? {
        outs.clear();
        machine.step(*feed, &mut outs);
        write!(floors, " {}", machine.floor(above))?;
    }
    Ok(floors.as_str() == want)
}
