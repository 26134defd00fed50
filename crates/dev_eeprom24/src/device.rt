// An EEPROM, by what it does with the bytes of its own phases.
ghost use Rattle.std.specs.Prelude.{◌≡◌, [], ◌∷◌, ◌++◌, ◌+◌, ◌%◌, ◌<◌, List, nat_le};
ghost use Rattle.i2c_phases.specs.Phases.{Nothing, Reads, Reset, Writes};
ghost use Rattle.dev_eeprom24.specs.Eeprom.{step};
ghost use Rattle.dev_eeprom24.specs.laws.EepromLaws.{eeprom_by_byte, eeprom_no_packets};
ghost use Rattle.dev_eeprom24.specs.laws.Held.{Knows, get_gives, held_of, put_by, put_gives};
ghost use Rattle.dev_eeprom24.specs.laws.Held.{started};
ghost use Rattle.dev_eeprom24.specs.laws.KnowingLaws.{knows_opened, one_eeprom};

use crate::{Chip, Eeprom, Held, Word};
use decoder_core::{Configured, Follower, Outs, is_send, span_note};
use i2c_phases::{I2cDevice, Phased, byte_note, byte_of, byte_piece};
use la_base::Packet;

// A number modulo another.
fn modulo(number: u64, size: u32) -> u32
    requires { 0 < size }
    ensures { result ≡ number % size }
{
    (number % size as u64) as u32
}

// Whether a word address has one byte.
fn has_one_byte(chip: Chip) -> bool
    ensures { result ≡ nat_le chip.size 256 }
{
    chip.size <= 256
}

// What is kept behind a whole word address.
fn started(chip: Chip, word: u32) -> Held
    ensures { result ≡ started chip word }
{
    let place = word % chip.page;
    let front = word - place;
    Held {
        pointer: modulo(front as u64 + place as u64, chip.size),
        word: Word::Whole(front, place),
    }
}

// What is kept behind one more byte that is written.
fn put(chip: Chip, held: Held, packet: Packet) -> Held
    ensures { result ≡ put_by chip held.pointer held.word packet }
{
    let byte = byte_of(packet);
    match held.word {
        Word::Empty => {
            if has_one_byte(chip) {
                started(chip, modulo(byte as u64, chip.size))
            } else {
                Held {
                    pointer: held.pointer,
                    word: Word::Half(byte, packet.start),
                }
            }
        }
        Word::Half(high, _) => started(chip, modulo(high as u64 * 256 + byte as u64, chip.size)),
        Word::Whole(front, place) => {
            let next = modulo(place as u64 + 1, chip.page);
            Held {
                pointer: modulo(front as u64 + next as u64, chip.size),
                word: Word::Whole(front, next),
            }
        }
    }
}

// What one more byte that is written gives.
fn give(chip: Chip, word: Word, packet: Packet, into: &mut Outs)
    requires { into.old ≡ [] }
    ensures { into.new ≡ put_gives chip word packet }
{
    let byte = byte_of(packet);
    match word {
        Word::Empty => {
            if has_one_byte(chip) {
                let address = modulo(byte as u64, chip.size);
                into.push(byte_note(0, packet, address as u64, 0));
            }
        }
        Word::Half(high, first) => {
            let address = modulo(high as u64 * 256 + byte as u64, chip.size);
            into.push(span_note(0, first, packet.end, address as u64, 0));
        }
        Word::Whole(front, place) => {
            into.push(byte_note(1, packet, byte as u64, front as u64 + place as u64));
            into.push(byte_piece(0, packet));
        }
    }
}

impl Configured for Eeprom {
    type Setup = Chip;

    ghost setup = { λ device. device.chip };
}

impl I2cDevice for Eeprom {
    ghost bus_address = { λ chip. 80 + chip.addr };

    ghost takes_reset = { λ chip. chip.resets };

    ghost step = { λ chip. step chip };

    ghost knows = { λ device phases. Knows device phases };

    fn address(&self) -> u64 {
        80 + self.chip.addr as u64
    }

    fn resets(&self) -> bool {
        self.chip.resets
    }

    fn begin(&mut self) {
        self.held = Held {
            pointer: self.held.pointer,
            word: Word::Empty,
        };
    }

    fn write(&mut self, byte: Packet, into: &mut Outs) {
        give(self.chip, self.held.word, byte, into);
        self.held = put(self.chip, self.held, byte);
    }

    fn read(&mut self, byte: Packet, into: &mut Outs) {
        let at = self.held.pointer as u64;
        into.push(byte_note(2, byte, byte_of(byte) as u64, at));
        into.push(byte_piece(1, byte));
        self.held = Held {
            pointer: modulo(at + 1, self.chip.size),
            word: self.held.word,
        };
    }

    fn reset(&mut self) {
        self.held = Held {
            pointer: 0,
            word: Word::Empty,
        };
    }

    ghost opened = { λ device. knows_opened device };

    ghost by_byte = { λ device. eeprom_by_byte device.chip };

    ghost no_packets = { λ device. eeprom_no_packets device.chip };

    ghost one_device = { one_eeprom };
}

// It may move to another thread, and so may what hands it its phases and packets.
fn machine_is_send() {
    is_send::<Follower<Phased<Eeprom>>>();
}
