// A bus with two EEPROMs, as a tree: what each instance gives is what it gives alone.
use crate::stages::bus::{Marks, Samples, opened};
use decoder_core::{Machine, Outs, RunEnd};
use decoder_set::AnyDecoder;
use dev_eeprom24::Chip;
use kind_table::Kind;
use la_base::{Feed, Mark, Out, Packet, Run};
use reference_devices::eeprom_outputs_of;
use stack_direct::run_direct;
use std::alloc::{AllocError, Global};
use std::test::Fail;

// The samples of the script as feeds, one by one.
fn samples_alone(alloc: Global) -> Result<Vec<Feed>, Fail> {
    let mut feeds = Vec::new(alloc);
    let samples = Samples::new(alloc)?;
    for value in &samples.all {
        feeds.push(Feed::Run(Run {
            value: *value,
            len: 1,
        }))?;
    }
    Ok(feeds)
}

// The packets that the bus gives.
fn packets_of_bus(alloc: Global) -> Result<Vec<Packet>, Fail> {
    let mut bus = opened(Kind::I2c, Some(0), Some(1))?;
    let mut packets = Vec::new(alloc);
    for feed in &samples_alone(alloc)? {
        let mut outs = Outs::new();
        bus.step(*feed, &mut outs);
        for out in outs.list() {
            if let Out::Packet(packet) = out {
                packets.push(*packet)?;
            }
        }
    }
    Ok(packets)
}

// The notes and pieces among outputs, as marks.
fn push_shown(marks: &mut Vec<Mark>, outs: &[Out]) -> Result<(), AllocError> {
    for out in outs {
        match out {
            Out::Note(note) => marks.push(Mark::Note(*note))?,
            Out::Piece(piece) => marks.push(Mark::Piece(*piece))?,
            Out::Packet(_) => {}
        }
    }
    Ok(())
}

// What a device gives of each packet among outputs, and its floor after it.
fn push_fed(
    marks: &mut Vec<Mark>,
    device: &mut AnyDecoder,
    outs: &[Out],
) -> Result<(), AllocError> {
    for out in outs {
        if let Out::Packet(packet) = out {
            let mut given = Outs::new();
            device.step(Feed::Packet(*packet), &mut given);
            push_shown(marks, given.list())?;
            marks.push(Mark::Floor(device.floor(0)))?;
        }
    }
    Ok(())
}

// The marks of an instance of the tree, were the bus alone with one device. Samples come three at a
// time. After them a bus has its floor, and once more with those of all instances; a device that
// over the bus's.
fn wanted_marks(alloc: Global, instance: u32) -> Result<Vec<Mark>, Fail> {
    let mut bus = opened(Kind::I2c, Some(0), Some(1))?;
    let address = if instance == 1 { None } else { Some(1) };
    let mut device = opened(Kind::Eeprom24, address, None)?;
    let feeds = samples_alone(alloc)?;
    let mut marks = Vec::new(alloc);
    for some in feeds.chunks(3) {
        for feed in some {
            let mut outs = Outs::new();
            bus.step(*feed, &mut outs);
            if instance == 0 {
                push_shown(&mut marks, outs.list())?;
            } else {
                push_fed(&mut marks, &mut device, outs.list())?;
            }
        }
        let floor = bus.floor(0);
        if instance == 0 {
            marks.push(Mark::Floor(floor))?;
            marks.push(Mark::Floor(floor))?;
        } else {
            marks.push(Mark::Floor(device.floor(floor)))?;
        }
    }
    marks.push(Mark::End)?;
    Ok(marks)
}

// Runs a bus with two EEPROMs until so many marks were taken.
fn run_until(alloc: Global, most: usize) -> Result<(RunEnd, Samples, Marks), Fail> {
    let mut machines = Vec::new(alloc);
    machines.push(opened(Kind::I2c, Some(0), Some(1))?)?;
    machines.push(opened(Kind::Eeprom24, None, None)?)?;
    machines.push(opened(Kind::Eeprom24, Some(1), None)?)?;
    let parents = [None, Some(0), Some(0)];
    let mut feed = Samples::new(alloc)?;
    let mut take = Marks::new(alloc, most);
    let end = run_direct(&mut machines, &parents, &mut feed, &mut take);
    Ok((end, feed, take))
}

#[test]
fn each_instance_gives_what_it_gives_alone(rt: HostRuntime) -> Result<(), Fail> {
    let alloc = rt.alloc();
    let (end, feed, take) = run_until(alloc, 1000)?;
    assert!(rt; end == RunEnd::Ended && feed.ended && take.stops == 0);
    for instance in 0..3u32 {
        let want = wanted_marks(alloc, instance)?;
        assert!(rt; want.len() > 25);
        let mut found = Vec::new(alloc);
        for (own, mark) in &take.taken {
            if *own == instance {
                found.push(*mark)?;
            }
        }
        assert!(rt; found.as_slice() == want.as_slice());
    }
    Ok(())
}

#[test]
fn devices_give_what_their_definition_gives(rt: HostRuntime) -> Result<(), Fail> {
    let alloc = rt.alloc();
    let packets = packets_of_bus(alloc)?;
    for instance in 1..3u32 {
        let chip = Chip {
            addr: (instance - 1) as u8,
            size: 256,
            page: 8,
            resets: false,
        };
        let mut want = Vec::new(alloc);
        for out in &eeprom_outputs_of(alloc, chip, &packets)? {
            match out {
                Out::Note(note) => want.push(Mark::Note(*note))?,
                Out::Piece(piece) => want.push(Mark::Piece(*piece))?,
                Out::Packet(_) => {}
            }
        }
        assert!(rt; want.len() > 3);
        want.push(Mark::End)?;
        let mut found = Vec::new(alloc);
        for mark in &wanted_marks(alloc, instance)? {
            if !matches!(mark, Mark::Floor(_)) {
                found.push(*mark)?;
            }
        }
        assert!(rt; found.as_slice() == want.as_slice());
    }
    Ok(())
}

// Where it is stopped, a front of the marks was taken, and the feed wasn't read on after the runs
// in which it was. After those that were handed on whole the bus has two floors: its own, and the
// one that the devices' floors go by.
#[test]
fn nothing_comes_behind_a_stop(rt: HostRuntime) -> Result<(), Fail> {
    let alloc = rt.alloc();
    let (_, _, whole) = run_until(alloc, 1000)?;
    for most in [0usize, 1, 7, 40, 41, 42] {
        let (end, feed, take) = run_until(alloc, most)?;
        assert!(rt; end == RunEnd::Stopped && take.stops == 1 && take.taken.len() == most);
        let mut floors = 0u64;
        for (place, mark) in take.taken.iter().enumerate() {
            assert!(rt; whole.taken.get(place) == Some(mark));
            if mark.0 == 0 && matches!(mark.1, Mark::Floor(_)) {
                floors = floors.saturating_add(1);
            }
        }
        let lists = floors / 2;
        assert!(rt; !feed.ended && lists <= feed.given && feed.given <= lists.saturating_add(1));
    }
    Ok(())
}

// On a bus that rests nothing is held back: once no phase is open, the floor of each device is that
// of the bus, which is the number of samples.
#[test]
fn devices_hold_nothing_back_on_a_bus_that_rests(rt: HostRuntime) -> Result<(), Fail> {
    let alloc = rt.alloc();
    let samples = Samples::new(alloc)?;
    let count = samples.all.len() as u64;
    let (end, _, take) = run_until(alloc, 1000)?;
    assert!(rt; end == RunEnd::Ended);
    for instance in 0..3u32 {
        let mut last = 0;
        for (own, mark) in &take.taken {
            if *own != instance {
                continue;
            }
            if let Mark::Floor(floor) = mark {
                last = *floor;
            }
        }
        assert!(rt; last == count, "{instance}: {last}");
    }
    Ok(())
}
