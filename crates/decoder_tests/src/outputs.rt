// Outputs, by hand.
use crate::moving::is_send;
use decoder_core::{Outs, note_at, packet_at, span_note, span_packet, span_piece};
use la_base::{Note, Out, Packet, PacketKind, Piece};

#[test]
fn outputs_in_their_order(rt: HostRuntime) {
    let mut outs = Outs::new();
    is_send(&outs);
    let later = note_at(0, 4, 1);
    let earlier = note_at(0, 2, 0);
    outs.push(later);
    outs.push(earlier);
    assert!(rt; outs.list() == [later, earlier].as_slice());
    outs.clear();
    assert!(rt; outs.list().is_empty());
    // outputs of one sample, and of several
    for (start, made) in [
        (9, note_at(3, 9, 7)),
        (6, span_note(3, 6, 9, 7, 0)),
        (9, span_note(3, 12, 9, 7, 0)),
    ] {
        let note = Note {
            class: 3,
            start,
            end: 9,
            a: 7,
            b: 0,
        };
        assert!(rt; made == Out::Note(note));
    }
    let kind = PacketKind::UartFrame;
    for (start, made) in [
        (9, packet_at(kind, 9, 7)),
        (6, span_packet(kind, 6, 9, 7, 0)),
    ] {
        let packet = Packet {
            kind,
            start,
            end: 9,
            a: 7,
            b: 0,
        };
        assert!(rt; made == Out::Packet(packet));
    }
    let piece = Piece {
        class: 1,
        start: 6,
        end: 9,
        byte: 0xA5,
    };
    assert!(rt; span_piece(1, 6, 9, 0xA5) == Out::Piece(piece));
}
