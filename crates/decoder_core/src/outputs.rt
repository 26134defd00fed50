// Outputs of one sample, and from one sample up to another.
ghost use Rattle.std.specs.Prelude.{◌≡◌};
ghost use Rattle.decoder_core.specs.Outputs.{note_at, packet_at, span_note, span_piece};
ghost use Rattle.decoder_core.specs.Outputs.{span_packet};

use la_base::{Note, Out, Packet, PacketKind, Piece};

/// A note of one sample, whose second value is 0.
pub fn note_at(class: u16, at: u64, a: u64) -> Out
    ensures { result ≡ note_at class at a }
{
    Out::Note(Note {
        class,
        start: at,
        end: at,
        a,
        b: 0,
    })
}

/// A packet of one sample, whose second value is 0.
pub fn packet_at(kind: PacketKind, at: u64, a: u64) -> Out
    ensures { result ≡ packet_at kind at a }
{
    Out::Packet(Packet {
        kind,
        start: at,
        end: at,
        a,
        b: 0,
    })
}

/// A note from sample `first` up to sample `last`; of `last` alone where `first` lies behind it.
/// Only a machine that stands for no samples keeps such a place.
pub fn span_note(class: u16, first: u64, last: u64, a: u64, b: u64) -> Out
    ensures { result ≡ span_note class first last a b }
{
    Out::Note(Note {
        class,
        start: first.min(last),
        end: last,
        a,
        b,
    })
}

/// A piece from sample `first` up to sample `last`; of `last` alone where `first` lies behind it.
pub fn span_piece(class: u16, first: u64, last: u64, byte: u8) -> Out
    ensures { result ≡ span_piece class first last byte }
{
    Out::Piece(Piece {
        class,
        start: first.min(last),
        end: last,
        byte,
    })
}

/// A packet from sample `first` up to sample `last`; of `last` alone where `first` lies behind it.
pub fn span_packet(kind: PacketKind, first: u64, last: u64, a: u64, b: u64) -> Out
    ensures { result ≡ span_packet kind first last a b }
{
    Out::Packet(Packet {
        kind,
        start: first.min(last),
        end: last,
        a,
        b,
    })
}
