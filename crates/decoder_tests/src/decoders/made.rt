// Decoders beside reference programs: the outputs of made traffic.
ghost use Rattle.std.specs.Prelude.{◌≤◌, ◌^◌};

use super::feeding::{decoded, runs_of};
use super::feeds::{RATE, opened, outputs_of, packets_of, setup_of};
use super::traffic::Traffic;
use dec_modbus::ModbusOpts;
use dec_onewire::{OwLink, OwLinkOpts};
use dev_eeprom24::Chip;
use kind_table::{Kind, OptValues};
use la_base::{Feed, Out, Packet, Word};
use packet_walks::{transaction_laws, walk_laws};
use reference_devices::{
    clock_outputs_of, eeprom_outputs_of, flash_outputs_of, link_outputs_of, lm75_outputs_of,
    midi_outputs_of, modbus_outputs_of, net_outputs_of, probe_outputs_of,
};
use std::alloc::{AllocError, Global};
use std::process::Abort;
use std::test::Fail;

// The EEPROM of these values.
fn eeprom_of(values: &OptValues) -> Chip {
    // the sizes and pages by their places, in bytes
    let size = match values.at(1).unwrap_or(0) {
        0 => 256,
        1 => 128,
        2 => 4096,
        3 => 8192,
        4 => 16_384,
        5 => 32_768,
        _ => 65_536,
    };
    let page = match values.at(2).unwrap_or(0) {
        0 => 8,
        1 => 16,
        2 => 32,
        3 => 64,
        _ => 128,
    };
    Chip {
        addr: (values.at(0).unwrap_or(0) % 8) as u8,
        size,
        page,
        resets: values.at(3) == Some(1),
    }
}

// What a reference program gives of packets.
fn plain_outputs(
    alloc: Global,
    kind: Kind,
    values: &OptValues,
    packets: &[Packet],
) -> Result<Vec<Out>, AllocError> {
    let first = values.at(0).unwrap_or(0);
    match kind {
        Kind::Eeprom24 => eeprom_outputs_of(alloc, eeprom_of(values), packets),
        Kind::Ds1307 => {
            let resets = first == 1;
            clock_outputs_of(alloc, dev_ds1307::Chip { resets }, packets)
        }
        Kind::Lm75 => {
            let chip = dev_lm75::Chip {
                addr: (first % 8) as u8,
                resets: values.at(1) == Some(1),
            };
            lm75_outputs_of(alloc, chip, packets)
        }
        Kind::Flash25 => flash_outputs_of(alloc, packets),
        Kind::Ds18b20 => probe_outputs_of(alloc, packets),
        Kind::Modbus => {
            let gap = first.min(1_000_000_000);
            modbus_outputs_of(alloc, ModbusOpts { gap }, RATE, packets)
        }
        Kind::Midi => midi_outputs_of(alloc, packets),
        _ => net_outputs_of(alloc, packets),
    }
}

// Packets as feeds.
fn feeds_of(alloc: Global, packets: &[Packet]) -> Result<Vec<Feed>, AllocError> {
    let mut feeds = Vec::new(alloc);
    for packet in packets {
        feeds.push(Feed::Packet(*packet))?;
    }
    Ok(feeds)
}

// What a decoder gives of packets, which has to be what its reference program gives.
fn check(
    rt: &impl Abort,
    alloc: Global,
    setup: &str,
    packets: &[Packet],
) -> Result<Vec<Out>, Fail> {
    let (kind, values) = setup_of(setup)?;
    let feeds = feeds_of(alloc, packets)?;
    let outs = outputs_of(alloc, &mut opened(setup)?, &feeds)?;
    let want = plain_outputs(alloc, kind, &values, packets)?;
    assert!(rt; outs.as_slice() == want.as_slice(), "{setup}");
    Ok(outs)
}

// Appends a byte, a message, a transaction or a phase for a decoder of this kind.
fn add(
    traffic: &mut Traffic,
    kind: Kind,
    number: u64,
    packets: &mut Vec<Packet>,
) -> Result<(), AllocError> {
    match kind {
        Kind::Midi => traffic.add_byte(packets),
        Kind::Modbus => traffic.add_message(number, packets),
        Kind::Flash25 => traffic.add_flash(packets),
        Kind::Ds18b20 => traffic.add_network(packets),
        _ => traffic.add_phase(number, packets),
    }
}

// Traffic of a seed for a decoder of this kind. The number is the address of a device on a bus, and the samples of the gap
// between messages.
fn traffic_of(
    alloc: Global,
    kind: Kind,
    seed: u32,
    number: u64,
) -> Result<Vec<Packet>, AllocError> {
    let mut traffic = Traffic::new(seed);
    let mut packets = Vec::new(alloc);
    let rounds = match kind {
        Kind::Midi => 2000,
        Kind::Modbus => 60,
        _ => 300,
    };
    for _ in 0..rounds {
        add(&mut traffic, kind, number, &mut packets)?;
    }
    Ok(packets)
}

// The classes of the notes among outputs, each as a bit.
fn classes_of(outs: &[Out]) -> u32 {
    let mut classes = 0;
    for out in outs {
        if let Out::Note(note) = out {
            classes |= 1 << note.class.min(31);
        }
    }
    classes
}

// A row for each seed: the seed, the address of a device or the samples of a gap, how many outputs there are at least, and the
// classes of notes that come, each as a bit; and the decoder. Gaps of one sample, of six, and of a part of a sample that is
// rounded up to seven.
const MADE: &str = "\
7 80 200 7|eeprom24 0 0 0 0
8 80 200 7|eeprom24 0 0 0 1
9 81 200 7|eeprom24 1 1 4 1
10 80 200 7|eeprom24 0 2 1 1
11 80 200 7|eeprom24 0 6 2 0
3 104 200 7|ds1307 0
4 104 200 7|ds1307 1
13 104 200 31|ds1307 1
9 72 100 1|lm75 0 0
10 72 100 1|lm75 0 1
11 77 100 1|lm75 5 1
7 0 600 1|flash25
8 0 600 1|flash25
9 0 600 1|flash25
10 0 600 1|ds18b20
11 0 600 1|ds18b20
12 0 600 1|ds18b20
3 1 0 127|modbus 1
4 6 0 0|modbus 6000
5 7 0 127|modbus 6001
7 0 0 65535|midi
8 0 0 65535|midi
9 0 0 65535|midi";

// Whether a decoder gives of the traffic of its row what its reference program gives, and enough of it.
fn row_holds(rt: &impl Abort, alloc: Global, row: &str) -> Result<bool, Fail> {
    let (numbers, setup) = row.split_once('|').unwrap_or(("", ""));
    let mut numbers = numbers.split(' ');
    let seed = numbers.next().unwrap_or("").parse().unwrap_or(0);
    let number = numbers.next().unwrap_or("").parse().unwrap_or(0);
    let least = numbers.next().unwrap_or("").parse().unwrap_or(0);
    let classes: u32 = numbers.next().unwrap_or("").parse().unwrap_or(0);
    let (kind, _) = setup_of(setup)?;
    let packets = traffic_of(alloc, kind, seed, number)?;
    let outs = check(rt, alloc, setup, &packets)?;
    Ok(outs.len() > least && classes_of(&outs) & classes == classes)
}

#[test]
fn made_traffic(rt: HostRuntime) -> Result<(), Fail> {
    walk_laws::<u8>();
    transaction_laws::<u8>();
    for row in MADE.split('\n') {
        assert!(rt; row_holds(&rt, rt.alloc(), row)?, "{row}");
    }
    Ok(())
}

// The outputs of the samples of a 1-Wire line, which have to be what the reference program gives.
fn check_link(
    rt: &impl Abort,
    alloc: Global,
    opts: OwLinkOpts,
    samples: &[Word],
) -> Result<Vec<Out>, Fail> {
    let Ok(link) = OwLink::open(opts, RATE) else {
        return Err("no link".into());
    };
    let told = decoded(alloc, link, &runs_of(alloc, samples, 1)?)?;
    let want = link_outputs_of(alloc, opts, RATE, samples)?;
    assert!(rt; told.outs.as_slice() == want.as_slice());
    Ok(told.outs)
}

// The packets among outputs.
fn packets_in(alloc: Global, outs: &[Out]) -> Result<Vec<Packet>, AllocError> {
    let mut packets = Vec::new(alloc);
    for out in outs {
        if let Out::Packet(packet) = *out {
            packets.push(packet)?;
        }
    }
    Ok(packets)
}

// A time that is a part of a sample is rounded up. The network reads what the link gives.
#[test]
fn made_segments(rt: HostRuntime) -> Result<(), Fail> {
    let alloc = rt.alloc();
    let opts = OwLinkOpts {
        dq: 3,
        reset: 47_500,
        window: 10_000,
        bit: 2_001,
    };
    for seed in [10, 11, 12] {
        let mut traffic = Traffic::new(seed);
        let mut samples = Vec::new(alloc);
        for _ in 0..30_u32 {
            traffic.add_segment(&mut samples)?;
        }
        let outs = check_link(&rt, alloc, opts, &samples)?;
        let packets = packets_in(alloc, &outs)?;
        let all = check(&rt, alloc, "onewire_net", &packets)?;
        assert!(rt; classes_of(&outs) == 7 && classes_of(&all) == 15, "{seed}");
    }
    Ok(())
}

// Packets to EEPROMs, whose notes are rows of `run_rows`.
const PHASES: &str = "\
eeprom24 0 0 0 0|s a50 k dFF k s a50/1 k d41 k d42 k d43 k1 p
eeprom24 0 0 0 0|s a50 k d06 k d01 k d02 k d03 k p
eeprom24 0 0 0 1|s a50 k d10 k p s a0 k d06 k p s a50/1 k d41 k1 p
eeprom24 0 0 0 0|s a50 k d10 k p s a0 k d06 k p s a50/1 k d41 k1 p
eeprom24 0 0 0 1|s a50 k d10 s a0 k d04 d06 s a50/1 k d41
eeprom24 0 0 0 1|s a50 k d10 s d06 a0 k d06 s a50/1 k d41
eeprom24 0 0 0 1|s a50 k d10 s a0 k1 d06 s a50/1 k d41
eeprom24 0 0 0 1|s a50 k d10 s a0/1 k d06 s a50/1 k d41
eeprom24 0 0 0 1|s a50 k d10 s a0 k d106 s a50/1 k d41
eeprom24 3 3 2 0|s a53 k d12 k d1F k d01 k d02 k p s a53/1 k d03
eeprom24 0 1 0 0|s a50 k dFF s a50/1 k d01 d02
eeprom24 0 6 4 0|s a50 k dFF dFF d01 d02 s a50/1 k d03
eeprom24 0 2 0 0|s a50 k d01 s a50/1 k d02
eeprom24 0 0 0 0|s a51 k d01 d02 s a52/1 k d03 s a50/2 k d04 s a50 k d05 s a51 k d06 s a50/1 k d07
eeprom24 0 0 0 0|s a50 k1 d01 k d02 s a50 d03 k d04 s a50 s a50/1 k d05
eeprom24 0 0 0 0|a50 k d01 p a50 k d02 s a51 a50 k d03 s a50 k d04 p d05";

#[test]
fn phases_by_the_plain_program(rt: HostRuntime) -> Result<(), Fail> {
    for row in PHASES.split('\n') {
        let (setup, packets) = row.split_once('|').unwrap_or(("", ""));
        check(&rt, rt.alloc(), setup, &packets_of(rt.alloc(), packets)?)?;
    }
    Ok(())
}
