// The table of kinds, by hand from the options and classes that each kind has.
use crate::decoders::feeds::{RATE, holds, opened, setup_of};
use crate::moving::is_send;
use decoder_core::{Machine, OptFault, Outs, Taken};
use decoder_set::{AnyDecoder, Setup, kinds_read_their_wires, one_input_makes_one_decoder};
use kind_table::{
    Kind, MOST_OPTIONS, OptValues, asked_of, class_of, groups_of, input_of, kind_name, kind_of,
    kinds_are_whole, number_of, options_of, output_of, place_of, values_in_range_fit,
};
use la_base::{Feed, Run, Wire};
use std::alloc::{AllocError, Global};
use std::test::Fail;

// Each kind, its options with their usual numbers; the kind whose packets it reads, if it reads any; and whether it gives packets
// to others, or asks for options of the kind that it stands on.
const KINDS: &str = "\
i2c scl 0 sda 0||gives
spi sck 0 mosi 0 miso 0 cs 0 cpol 0 cpha 0 bits 8 mode 0||gives
uart rx 0 baud 9600 bits 8 parity 0 stop 1 sp 50||gives
eeprom24 addr 0 size 0 page 0 gcall 0|i2c|
onewire_link dq 0 reset 480000 window 100000 bit 20000||gives
onewire_net|onewire_link|gives
ds1307 gcall 0|i2c|
lm75 addr 0 gcall 0|i2c|
ds18b20|onewire_net|
flash25|spi|asks
modbus gap 4000000|uart|asks
midi|uart|asks";

// The kinds by their numbers in a checkpoint, from 0 on. What was written is read again: a further kind
// comes last, and none moves.
const NUMBERED: &str =
    "i2c spi uart onewire_link onewire_net eeprom24 ds1307 lm75 ds18b20 flash25 modbus midi";

// The name of a kind, and its options with their usual numbers.
fn options_told(alloc: Global, kind: Kind) -> Result<String, AllocError> {
    let mut told = String::from_str(alloc, kind_name(kind))?;
    for row in options_of(kind) {
        write!(told, " {} {}", row.name, number_of(row.form, None))?;
    }
    Ok(told)
}

// What a kind reads.
fn reads(parent: &str) -> Wire {
    match kind_of(parent.as_bytes()) {
        Some(kind) => output_of(kind),
        None => Wire::Logic,
    }
}

#[test]
fn kinds_have_their_names_wires_and_options(rt: HostRuntime) -> Result<(), Fail> {
    for row in KINDS.split('\n') {
        let (options, rest) = row.split_once('|').unwrap_or(("", ""));
        let (parent, more) = rest.split_once('|').unwrap_or(("", ""));
        let name = options.split(' ').next().unwrap_or("");
        let kind = kind_of(name.as_bytes()).ok_or("no kind")?;
        assert!(rt; options_told(rt.alloc(), kind)?.as_str() == options);
        assert!(rt; input_of(kind) == reads(parent), "{row}");
        assert!(rt;
            (output_of(kind) == Wire::Nothing) == (more != "gives"),
            "{row}"
        );
        assert!(rt; asked_of(kind).is_empty() == (more != "asks"), "{row}");
    }
    for (number, name) in NUMBERED.split(' ').enumerate() {
        let kind = kind_of(name.as_bytes()).ok_or("no kind")?;
        assert!(rt; place_of(kind) as usize == number, "{name}");
    }
    assert!(rt; output_of(Kind::I2c) == Wire::I2c && output_of(Kind::Spi) == Wire::Spi);
    assert!(rt; output_of(Kind::Uart) == Wire::Uart && output_of(Kind::OwNet) == Wire::OwNet);
    assert!(rt; output_of(Kind::OwLink) == Wire::OwLink && groups_of(Kind::Spi).len() == 1);
    Ok(())
}

#[test]
fn what_is_no_kind_has_no_name(rt: HostRuntime) {
    for name in ["I2C", "i2c-1", "i2", "uarts", ""] {
        assert!(rt; kind_of(name.as_bytes()) == None);
    }
    kinds_are_whole();
    kinds_read_their_wires();
    values_in_range_fit();
}

// Classes of binary data, a kind and a name in each row, with the number of the class or a hyphen.
const CLASSES: &str = "\
i2c write 0
i2c read 1
i2c Write -
spi mosi 0
spi miso 1
uart data 0
uart read -
eeprom24 write 0
eeprom24 read 1
onewire_link data -
onewire_net data 0
ds1307 write 0
ds1307 read 1
lm75 read -
ds18b20 scratchpad 0
flash25 read 0
flash25 program 1
modbus data -
midi data -";

#[test]
fn kinds_have_their_classes(rt: HostRuntime) -> Result<(), Fail> {
    for row in CLASSES.split('\n') {
        let (kind, rest) = row.split_once(' ').unwrap_or(("", ""));
        let (class, want) = rest.split_once(' ').unwrap_or(("", "?"));
        let kind = kind_of(kind.as_bytes()).ok_or("no kind")?;
        let told = match class_of(kind, class.as_bytes()) {
            Some(class) => format!(in rt.alloc(); "{class}")?,
            None => String::from_str(rt.alloc(), "-")?,
        };
        assert!(rt; told.as_str() == want, "{row}");
    }
    Ok(())
}

// A row for each opening: the kind, its values, with a hyphen for one that isn't given, and the answer at a
// rate of 1 MHz.
const OPENINGS: &str = "\
i2c 0 1 > ok
i2c 127 127 > ok
i2c - 1 > range
i2c 0 - > range
i2c 128 1 > range
i2c 0 4294967296 > range
spi 0 1 > ok
spi 0 - 1 > ok
spi 0 127 2 3 1 1 32 3 > ok
spi - 1 2 > range
spi 0 - - > range
spi 0 - - 4 0 0 8 0 > range
spi 0 128 > range
spi 0 1 2 128 > range
spi 0 1 2 3 2 > range
spi 0 1 2 3 0 2 > range
spi 0 1 2 3 0 0 0 > range
spi 0 1 2 3 0 0 33 > range
spi 0 1 2 3 0 0 8 4 > range
uart 0 > ok
uart 127 500000 9 4 2 99 > ok
uart 0 500001 > rate
uart 0 1 5 0 1 1 > ok
uart 0 10000 8 0 1 1 > ok
uart 0 10001 8 0 1 1 > rate
uart - 9600 > range
uart 128 > range
uart 0 0 > range
uart 0 10000001 > range
uart 0 9600 4 > range
uart 0 9600 10 > range
uart 0 9600 8 5 > range
uart 0 9600 8 0 0 > range
uart 0 9600 8 0 3 > range
uart 0 9600 8 0 1 0 > range
uart 0 9600 8 0 1 100 > range
eeprom24 > ok
eeprom24 7 6 4 1 > ok
eeprom24 8 > range
eeprom24 0 7 > range
eeprom24 0 0 5 > range
eeprom24 0 0 0 2 > range
eeprom24 18446744073709551615 > range
eeprom24 0 18446744073709551615 > range
onewire_link 0 > ok
onewire_link 127 3000 1000000000 2000 > ok
onewire_link - > range
onewire_link 128 > range
onewire_link 0 0 > range
onewire_link 0 480000 0 > range
onewire_link 0 480000 100000 1000000001 > range
onewire_link 0 480000 100000 1000 > rate
onewire_link 0 2000 100000 2000 > rate
onewire_net > ok
ds1307 1 > ok
ds1307 2 > range
ds1307 18446744073709551615 > range
lm75 7 1 > ok
lm75 8 > range
lm75 0 2 > range
lm75 18446744073709551615 > range
lm75 0 18446744073709551615 > range
ds18b20 > ok
flash25 > ok
modbus > ok
modbus 1 > ok
modbus 1000000000 > ok
modbus 0 > range
modbus 1000000001 > range
midi > ok";

// What becomes of a decoder with these values.
fn answer_to(kind: Kind, values: OptValues) -> &'static str {
    match AnyDecoder::open(kind, values, RATE) {
        Ok(_) => "ok",
        Err(OptFault::Range) => "range",
        Err(OptFault::Rate) => "rate",
    }
}

#[test]
fn values_are_judged_by_their_rows(rt: HostRuntime) -> Result<(), Fail> {
    for row in OPENINGS.split('\n') {
        let (setup, want) = row.split_once(" > ").unwrap_or(("", "?"));
        let (kind, values) = setup_of(setup)?;
        assert!(rt; answer_to(kind, values) == want, "{row}");
    }
    Ok(())
}

#[test]
fn values_are_kept_as_given(rt: HostRuntime) {
    let mut given = [None; MOST_OPTIONS];
    given[0] = Some(0);
    given[1] = Some(1);
    let setup = Setup {
        kind: Kind::I2c,
        values: OptValues { given },
        rate: RATE,
    };
    given[0] = Some(1);
    let other = Setup {
        values: OptValues { given },
        ..setup
    };
    assert!(rt; setup == setup);
    assert!(rt; setup != other);
    let mut values = setup.values;
    values.given[2] = Some(u64::MAX);
    assert!(rt; AnyDecoder::open(Kind::I2c, values, RATE).is_ok());
    assert!(rt; values.at(8) == None);
    assert!(rt; values.number(options_of(Kind::I2c), 2) == 0);
}

// What a decoder answers to a feed: what it hasn't taken of a run. A START: SDA falls while SCL is high.
#[test]
fn a_decoder_answers_what_is_left(rt: HostRuntime) -> Result<(), Fail> {
    let mut decoder = opened("i2c 1 0")?;
    is_send(&decoder);
    one_input_makes_one_decoder(&decoder, &decoder);
    assert!(rt; decoder.wants() == Wire::Logic);
    let mut outs = Outs::new();
    let high = Feed::Run(Run { value: 3, len: 2 });
    assert!(rt; decoder.step(high, &mut outs) == None);
    outs.clear();
    let start = Feed::Run(Run { value: 2, len: 3 });
    let left = Feed::Run(Run { value: 2, len: 2 });
    assert!(rt; decoder.step(start, &mut outs) == Some(left));
    assert!(rt; outs.list().len() == 2);
    outs.clear();
    assert!(rt; decoder.step(Feed::End, &mut outs) == None && outs.list().is_empty());
    outs.clear();
    let low = [Run { value: 0, len: 2 }, Run { value: 1, len: 1 }];
    let taken = Taken {
        count: 2,
        rest: None,
    };
    assert!(rt; decoder.step_runs(&low, &mut outs) == taken && decoder.floor(0) == 6);
    Ok(())
}

// Feeds of other wires, and packets that stand before what was consumed, change nothing.
const FEEDS: &str = "\
i2c 1 0|=332 s@2-2 =01| 2-2 Start; 2-2 #s 0/0;
eeprom24|s a50 k W00 d09@5-10 dA7| 50-59 Word address: 00A7;
eeprom24|s a50 k =3 dA7| 40-49 Word address: 00A7;";

#[test]
fn a_decoder_takes_any_feed(rt: HostRuntime) -> Result<(), Fail> {
    for row in FEEDS.split('\n') {
        assert!(rt; holds(rt.alloc(), row)?, "{row}");
    }
    let mut memory = opened("eeprom24")?;
    assert!(rt; memory.wants() == Wire::I2c);
    let mut outs = Outs::new();
    let run = Run { value: 3, len: 7 };
    assert!(rt; memory.step_run(run, &mut outs) == None && outs.list().is_empty());
    Ok(())
}
