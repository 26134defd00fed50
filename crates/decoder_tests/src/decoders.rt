// What is wanted is worked by hand, in tables that are texts. On all short lists, on some long ones and on made traffic a
// decoder is compared with its reference program.
mod feeding;
pub mod feeds;
mod i2c;
mod made;
mod openings;
mod spi;
mod traffic;
mod trees;
mod uart;

use feeds::{floors_hold, holds};
use kind_table::kind_of;
use la_base::Note;
use line_text::LineBuf;
use listing_out::note_text;
use std::test::Fail;

// A kind, a class, two values, and the text of such a note, whatever its span is.
const TEXTS: &str = "\
i2c 0 0 0|Start
i2c 1 0 0|Start repeat
i2c 2 0 0|Stop
i2c 3 80 0|Address write: 50
i2c 4 127 0|Address read: 7F
i2c 5 0 0|Data write: 00
i2c 6 195 0|Data read: C3
i2c 7 0 0|ACK
i2c 8 0 0|NACK
i2c 9 0 0|General call
i2c 10 121 0|Prefix write: 79
i2c 11 336 0|Address 10-bit write: 0150
i2c 12 80 0|Address 10-bit read: 0050
i2c 13 122 0|Prefix read: 7A
i2c 14 6 0|General call command: reset and write address
i2c 14 4 0|General call command: write address
i2c 14 2 0|General call command: 02
i2c 14 67 0|General call command: hardware master 21
i2c 15 1 0|
i2c 65535 1 0|
spi 0 0 0|Select
spi 1 159 291|MOSI 9F MISO 123
spi 1 18446744073709551615 10|MOSI FFFFFFFFFFFFFFFF MISO 0A
spi 2 0 5|MOSI 00
spi 3 5 195|MISO C3
spi 4 1 1|Deselect
spi 5 1 1|
spi 65535 1 1|
uart 5 1 0|
i2c 3 80 7|Address write: 50
spi 1 80 7|MOSI 50 MISO 07
uart 1 80 7|50
eeprom24 1 80 7|Write 0007: 50
onewire_link 0 0 0|Reset
onewire_link 1 0 0|Presence
onewire_link 2 1 0|Bit: 1
onewire_link 3 0 0|
onewire_net 0 0 0|Reset
onewire_net 1 240 0|ROM command: Search ROM
onewire_net 1 68 0|ROM command: Unknown 44
onewire_net 2 11673330234173168642 0|ROM: 021CB801000000A2 CRC ok
onewire_net 2 2 1|ROM: 0200000000000000 CRC bad
onewire_net 3 10 0|Byte: 0A
onewire_net 4 10 0|
ds1307 1 86 0|Write seconds: 56
lm75 3 511 0|Read temperature: -0.5
ds18b20 3 12 0|Resolution: 12
flash25 5 170 256|Read 000100: AA
modbus 3 8 1|Message of 8 bytes, CRC bad
midi 1 9452608 0|Note on channel 1: 60 64";

// The number that a word is.
fn number(word: Option<&str>) -> u64 {
    word.unwrap_or("").parse().unwrap_or(0)
}

// The text of a note, which a row tells.
fn text_of(row: &str, start: u64, end: u64) -> Result<LineBuf, Fail> {
    let mut words = row.split(' ');
    let kind = kind_of(words.next().unwrap_or("").as_bytes()).ok_or("no kind")?;
    let note = Note {
        class: u16::try_from(number(words.next())).unwrap_or(0),
        start,
        end: end.max(start),
        a: number(words.next()),
        b: number(words.next()),
    };
    let mut line = LineBuf::new();
    note_text(kind, note, &mut line);
    Ok(line)
}

#[test]
fn notes_have_their_texts(rt: HostRuntime) -> Result<(), Fail> {
    for row in TEXTS.split('\n') {
        let (note, want) = row.split_once('|').unwrap_or(("", "?"));
        for (start, end) in [(0, 0), (3, 17)] {
            let line = text_of(note, start, end)?;
            assert!(rt; line.bytes() == want.as_bytes(), "{row}");
        }
    }
    Ok(())
}

// Packets that no bus and no line gives, to devices and to decoders of messages. What they say of others is in the rows of
// `run_rows`.
//
// EEPROMs: data before an address, bits above a byte, an address without its acknowledge, and phases without a START, and cut
// ones. A clock and a thermometer: what is others', and data outside of a phase. A thermometer on 1-Wire: ROMs of other families
// and other commands, and bytes before what makes a transaction its own. A flash: a select inside of a transaction, words of 16
// bits, words in no transaction, and no words. Messages: a distance below 0, breaks, and bits above a byte.
const PACKETS: &str = "\
eeprom24 0 0 0 1|s a50 k d10 s d06 a0 k d06 s a50/1 k d41| 30-39 Word address: 0010; 120-129 Read 0010: 41; 120-129 .1 41;
eeprom24 0 0 0 1|s a50 k d10 s a0 k d106 s a50/1 k d41| 30-39 Word address: 0010; 110-119 Read 0000: 41; 110-119 .1 41;
eeprom24 0 0 0 0|s a50 k1 d01 k d02 s a50 d03 k d04 s a50 s a50/1 k d05| 100-109 Word address: 0004; 160-169 Read 0004: 05; 160-169 .1 05;
eeprom24 0 0 0 0|a50 k d01 p a50 k d02 s a51 a50 k d03 s a50 k d04 p d05| 150-159 Word address: 0004;
ds1307 1|s a50 k d01 d02 s a69 k d03 s a68 k1 d04 s a68/2 k d05 d06 p d07 a68 k d08|
lm75 0 1|s a49 k d01 d02 s a4F/1 k d03 d04 s a48 k1 d05 d06 s a48/2 k d07 d08 p d09 a48/1 k d0A d0B|
ds18b20|R C55 M2810 Y44 R C1CC Y44 R CEC Y44 R CF0 MFF28 Y44| 130-139 Convert T;
ds18b20|CCC Y44 R Y44 CCC Y1BE Y48 R C33 M10 CCC Y148 M28 Y44| 50-59 Read scratchpad; 110-119 Copy scratchpad;
flash25|S W03 S W00 W00 W01 W00/AA D| 10-19 Command: Read data; 30-59 Address: 000001; 60-69 Read 000001: AA; 60-69 .0 AA; 10-69 Read 1 bytes at 000001;
flash25|S W103 W200 W301 W400 WF00/5AA D| 10-19 Command: Read data; 20-49 Address: 000100; 50-59 Read 000100: AA; 50-59 .0 AA; 10-59 Read 1 bytes at 000100;
flash25|W03 D W06 S W04| 40-49 Command: Write disable;
flash25|S D S S D|
modbus 1|F01@0-150 F02@100-195| 0-150 Address: 01; 100-195 Function: Read discrete inputs;
modbus 1000000|F01@0-95 F01@100-195 F02@200-295 B@300-395 F04@400-495 B@1400-1495 F11@1500-1595| 0-95 Address: 01; 100-195 Function: Read coils; 200-295 Byte: 02; 0-295 Short message of 3 bytes; 400-495 Address: 04; 400-495 Short message of 1 bytes; 1500-1595 Address: 11;
modbus 6000|F01@0-95 F02@100-195 F81@200-295 FE1@300-395 B@400-495 B@500-595| 0-95 Address: 01; 100-195 Function: Read discrete inputs; 200-295 Byte: 81; 300-395 Byte: E1; 0-395 Message of 4 bytes, CRC ok;
modbus 6000|F01@0-95 F02@100-195 FE1@200-295 F81@300-395 B@400-495| 0-95 Address: 01; 100-195 Function: Read discrete inputs; 200-295 Byte: E1; 300-395 Byte: 81; 0-395 Message of 4 bytes, CRC bad;
modbus 6000|F01@0-95 F02/2@100-195 F81@200-295 FE1@300-395 B@400-495 F01@500-595 F02/2@600-695 F01@709-804| 0-95 Address: 01; 100-195 Function: Read discrete inputs; 200-295 Byte: 81; 300-395 Byte: E1; 0-395 Message of 4 bytes, line errors; 500-595 Address: 01; 600-695 Function: Read discrete inputs; 500-695 Message of 2 bytes, line errors; 709-804 Address: 01;
modbus 6000|F1FF@0-95 F101@100-195| 0-95 Address: FF; 100-195 Function: Read coils;";

#[test]
fn packets_worked_by_hand(rt: HostRuntime) -> Result<(), Fail> {
    for row in PACKETS.split('\n') {
        assert!(rt; holds(rt.alloc(), row)?, "{row}");
    }
    Ok(())
}

// The floors of decoders, before all feeds and behind each. A bus: the clock of a byte that isn't given yet, or the number
// of samples. Of the others the start of what is open, else that of the packet; samples say nothing. What is open is a
// transaction of a flash from its select, and of a thermometer from its reset; a phase of an EEPROM from its START; a message
// from its first byte; system exclusive; a status whose first message isn't whole, or the first byte of a later one that isn't.
const FLOORS: &str = "\
i2c 0 1|=312301230101010101010113|0 1 2 3 3 3 3 3 3 3 3 3 3 3 3 3 3 3 18 19 20 21 21 21 24
i2c 1 0|=332 s@7-9 =01|0 1 2 3 3 4 5
eeprom24|s@10-15 a50@20-25 k@30-35 W00@40-45 d09@5-10 dA7@50-55 =3|0 10 10 10 10 10 10 10
flash25|W06 S W03 W00 D W06 S S D =1|0 0 10 10 10 40 50 60 60 80 80
ds18b20|CCC YBE R CCC YBE R =1|0 0 10 20 20 20 50 50
eeprom24|k s a50 k d06 d01 p k s s p =1|0 0 10 10 10 10 10 60 70 80 90 100 100
modbus 6000|F07@0-95 F07@100-195 F07@200-295 B@2000-2095 =1|0 0 0 0 2000 2000
midi|F90 F3C F40 FF8 F3E FF8 F40 FF8 =1|0 0 0 20 30 40 40 60 70 70
midi|FF6 F05 FF8 FC0 FF8 F05 FF2 F01 FFE F02 =1|0 0 10 20 30 30 50 60 60 60 90 90
midi|F05 FF0 FF8 F01 FF7/1 FF7 FF0 FF8 B FF6 =1|0 0 10 10 10 10 50 60 60 60 90 90";

// The same where all packets that come start at the place that stands first, or later. Where
// nothing is open the floor is that place, or where the last packet starts if that is later; what
// is open holds back as before. A bus knows of no such place, and a thermometer has nothing open
// once all is told that its transaction may tell.
const FLOORS_OVER: &str = "\
1000:i2c 0 1|=3123|0 1 2 3 3
15:onewire_net|r q r q b0 b0 b1 =1|15 0 15 20 30 40 40 40 40
75:eeprom24|k s a50 k d06 d01 p k s s p =1|75 75 10 10 10 10 10 75 75 80 90 100 100
1000:ds1307|s a68 k p k|1000 0 0 0 1000 1000
1000:lm75|s a48 k p k|1000 0 0 0 1000 1000
45:ds18b20|CCC YBE R CCC YBE R =1|45 45 45 20 20 20 50 50
1000:ds18b20|R CCC Y44 R|1000 0 0 1000 30
45:flash25|W06 S W03 W00 D W06 S S D =1|45 45 10 10 10 45 50 60 60 80 80
3000:modbus 6000|F07@0-95 F07@100-195 F07@200-295 B@2000-2095 =1|3000 0 0 0 3000 3000
65:midi|F90 F3C F40 FF8 F3E FF8 F40 FF8 =1|65 0 0 65 65 40 40 65 70 70
95:midi|F05 FF0 FF8 F01 FF7/1 FF7 FF0 FF8 B FF6 =1|95 95 10 10 10 10 95 60 60 60 95 95";

#[test]
fn floors_worked_by_hand(rt: HostRuntime) -> Result<(), Fail> {
    for row in FLOORS.split('\n') {
        assert!(rt; floors_hold(rt.alloc(), row)?, "{row}");
    }
    Ok(())
}

#[test]
fn floors_over_a_place_worked_by_hand(rt: HostRuntime) -> Result<(), Fail> {
    for row in FLOORS_OVER.split('\n') {
        assert!(rt; floors_hold(rt.alloc(), row)?, "{row}");
    }
    Ok(())
}

// What decoders promise without code.
#[test]
fn laws_of_decoders(rt: HostRuntime) {
    dev_eeprom24::rows_hold();
    dev_ds1307::rows_hold();
    dev_lm75::rows_hold();
    dev_ds18b20::rows_hold();
    dev_flash25::rows_hold();
    dec_midi::rows_hold();
    dec_modbus::rows_hold();
    dev_ds1307::outputs_are_by_the_definition();
    dev_ds1307::a_time_is_seven_registers();
    dev_lm75::outputs_are_by_the_definition();
    dec_modbus::messages_are_the_packets();
    dec_modbus::own_crc_is_right();
    dec_onewire::groups_are_the_bits();
    dec_onewire::own_crc_leaves_nothing();
    dec_onewire::pulses_are_the_low_stretches();
    // the ROM of application note 27's own example
    assert!(rt; dec_onewire::net::crc8(b"\x02\x1C\xB8\x01\x00\x00\x00") == 0xA2);
    assert!(rt; dec_onewire::net::crc8(b"") == 0);
}
