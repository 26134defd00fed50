// Names, samples, runs and wires, by hand.
use crate::moving::is_send;
use la_base::*;

const WIRES: [(PacketKind, Wire); 9] = [
    (PacketKind::I2cStart, Wire::I2c),
    (PacketKind::I2cAck, Wire::I2c),
    (PacketKind::SpiDeselect, Wire::Spi),
    (PacketKind::UartBreak, Wire::Uart),
    (PacketKind::OwReset, Wire::OwLink),
    (PacketKind::OwPresence, Wire::OwLink),
    (PacketKind::OwBit, Wire::OwLink),
    (PacketKind::NetReset, Wire::OwNet),
    (PacketKind::NetByte, Wire::OwNet),
];

// No word refers to the channel without a name; what others refer to is in the rows of `run_rows`.
#[test]
fn a_channel_without_a_name(rt: HostRuntime) {
    let mut names = Names::new(rt.alloc());
    is_send(&names);
    for name in ["SCL", "", "sda"] {
        assert!(rt; names.count() < 4096);
        names.push(name.as_bytes()).expect(&rt, "memory");
    }
    assert!(rt; names.find(b"") == Some(1) && names.find(b"SC").is_none());
}

#[test]
fn samples_runs_and_wires(rt: HostRuntime) {
    for (sample, channel, high) in [
        (0b0101, 0, true),
        (0b0101, 1, false),
        (0b0101, 2, true),
        (1 << 63, 63, true),
        (Word::MAX >> 65, 63, false),
        (1 << 63, 64, false),
        (1 << 64, 64, true),
        (1 << 64, 0, false),
        (1 << 127, 127, true),
        (Word::MAX >> 1, 127, false),
    ] {
        assert!(rt; channel < MOST_PINS && pin(sample, channel) == high);
    }
    let halves = 5 << 64 | 3;
    assert!(rt; low_half(halves) == 3 && high_half(halves) == 5);
    assert!(rt; low_half(Word::MAX) == u64::MAX && high_half(Word::MAX) == u64::MAX);
    assert!(rt; CsvMode::Rows != CsvMode::Times);
    let run = Run { value: 6, len: 5 };
    let two = (Run { value: 6, len: 2 }, Run { value: 6, len: 3 });
    let four = (Run { value: 6, len: 4 }, Run { value: 6, len: 1 });
    assert!(rt; cut(run, 2) == two && cut(run, 4) == four);
    for (kind, want) in WIRES {
        assert!(rt; wire_of(kind) == want);
    }
    let blank = Note {
        class: 0,
        start: 0,
        end: 0,
        a: 0,
        b: 0,
    };
    is_send(&blank);
    assert!(rt; Out::default() == Out::Note(blank));
    assert!(rt; Feed::default() == Feed::End);
    assert!(rt; Mark::default() == Mark::End);
    assert!(rt; Mark::Floor(1) != Mark::Floor(2));
    assert!(rt; Rate { num: 1, den: 2 } != Rate { num: 2, den: 4 });
    is_send(&Feed::End);
    is_send(&Mark::End);
    is_send(&Out::default());
    is_send(&Pins::new());
}
