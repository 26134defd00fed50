// Made traffic: phases of an I2C bus, transactions of a flash and of a 1-Wire network, messages of Modbus RTU and bytes of
// MIDI on a serial line, and the samples of a 1-Wire line.
use la_base::{Packet, PacketKind, Word};
use std::alloc::AllocError;

/// Traffic that is made by numbers from a generator.
#[derive(Drop)]
pub struct Traffic {
    state: u32,
    // the last packet's span
    start: u64,
    end: u64,
}

// The register of a CRC behind a byte.
fn behind(register: u16, byte: u8) -> u16 {
    let mut crc = register ^ byte as u16;
    for _ in 0..8_u8 {
        let leaves = crc % 2;
        crc /= 2;
        if leaves == 1 {
            crc ^= 0xA001;
        }
    }
    crc
}

impl Traffic {
    /// Traffic of this seed.
    pub fn new(seed: u32) -> Traffic {
        Traffic {
            state: seed,
            start: 0,
            end: 0,
        }
    }

    // The next number, below `count`.
    fn draw(&mut self, count: u64) -> u64 {
        self.state = self.state.wrapping_mul(1_103_515_245).wrapping_add(12_345) % (1 << 31);
        u64::from(self.state / 65_536) % count.max(1)
    }

    // One of these numbers, each as often as it stands there.
    fn one_of(&mut self, numbers: &[u64]) -> u64 {
        let place = self.draw(numbers.len() as u64) as usize;
        numbers.get(place).copied().unwrap_or(0)
    }

    // A packet that starts there.
    fn placed(&mut self, kind: PacketKind, start: u64, a: u64, b: u64) -> Packet {
        let end = start.saturating_add(self.draw(9)).max(start);
        self.start = start;
        self.end = end;
        Packet {
            kind,
            start,
            end,
            a,
            b,
        }
    }

    // A packet that starts no earlier than those before it.
    fn next(&mut self, kind: PacketKind, a: u64, b: u64) -> Packet {
        let start = self.start.saturating_add(self.draw(3));
        self.placed(kind, start, a, b)
    }

    // A packet that begins so many samples behind the end of the one before; now and then some samples before that end, though
    // no earlier than that packet's start.
    fn behind(&mut self, kind: PacketKind, distance: u64, a: u64, b: u64) -> Packet {
        let back = if self.draw(9) == 0 { self.draw(6) } else { 0 };
        let at = self.end.saturating_add(distance).saturating_sub(back);
        self.placed(kind, at.max(self.start), a, b)
    }

    // The address of a device, of another one, or of all; the eight bits above it count.
    fn address(&mut self, own: u64) -> Packet {
        let far = own.saturating_add(0x200);
        let address = self.one_of(&[0, own.saturating_add(1), far, own, own, own]);
        let b = self.draw(5) / 2;
        self.next(PacketKind::I2cAddress, address, b)
    }

    // A byte on a bus: mostly any, often one that a general call's reset has; the eight bits above it say nothing.
    fn data(&mut self) -> Packet {
        let any = self.draw(256);
        let byte = self.one_of(&[6, 0x106, any, any]);
        self.next(PacketKind::I2cData, byte, 0)
    }

    // An acknowledge bit, which is refused once in so many times.
    fn ack(&mut self, refused: u64) -> Packet {
        let bit = u64::from(self.draw(refused) == 0);
        self.next(PacketKind::I2cAck, bit, 0)
    }

    /// Appends a phase on a bus with the device at an address: now and then without its START, its acknowledge or its STOP, with
    /// data before the address, or with a second address.
    pub fn add_phase(&mut self, own: u64, packets: &mut Vec<Packet>) -> Result<(), AllocError> {
        if self.draw(16) != 0 {
            packets.push(self.next(PacketKind::I2cStart, 0, 0))?;
        }
        if self.draw(12) == 0 {
            packets.push(self.data())?;
        }
        packets.push(self.address(own))?;
        if self.draw(12) == 0 {
            packets.push(self.data())?;
        }
        if self.draw(16) != 0 {
            packets.push(self.ack(6))?;
        }
        for _ in 0..self.draw(14) {
            packets.push(self.data())?;
            packets.push(self.ack(3))?;
        }
        if self.draw(10) == 0 {
            packets.push(self.address(own))?;
            packets.push(self.ack(3))?;
        }
        if self.draw(3) != 0 {
            packets.push(self.next(PacketKind::I2cStop, 0, 0))?;
        }
        Ok(())
    }

    // Any byte, now and then one that stands at the end of a page, with bits above it that say nothing.
    fn byte(&mut self) -> u64 {
        let any = self.draw(256);
        self.one_of(&[0xFF, 0x1FF, 0xFE, any, any, any, any, any])
    }

    // A word of a flash: an instruction, or any.
    fn instruction(&mut self) -> Packet {
        let any = self.draw(256);
        let word = self.one_of(&[
            0x9F, 0x05, 0x01, 0x03, 0x0B, 0x02, 0x20, 0xD8, 0xC7, 0x60, 0x103, any,
        ]);
        self.next(PacketKind::SpiWord, word, 0)
    }

    /// Appends a transaction of a flash: now and then without its select or its deselect, or with another select in it.
    pub fn add_flash(&mut self, packets: &mut Vec<Packet>) -> Result<(), AllocError> {
        if self.draw(12) != 0 {
            packets.push(self.next(PacketKind::SpiSelect, 0, 0))?;
        }
        packets.push(self.instruction())?;
        for _ in 0..self.draw(9) {
            if self.draw(24) == 0 {
                packets.push(self.next(PacketKind::SpiSelect, 0, 0))?;
            }
            let (mosi, miso) = (self.byte(), self.byte());
            packets.push(self.next(PacketKind::SpiWord, mosi, miso))?;
        }
        if self.draw(12) != 0 {
            packets.push(self.next(PacketKind::SpiDeselect, 0, 0))?;
        }
        Ok(())
    }

    /// Appends a transaction of a network: now and then without its reset, with a ROM of another family, another command, or too
    /// few bytes.
    pub fn add_network(&mut self, packets: &mut Vec<Packet>) -> Result<(), AllocError> {
        if self.draw(12) != 0 {
            packets.push(self.next(PacketKind::NetReset, 0, 0))?;
        }
        let command = self.one_of(&[0x55, 0x1CC, 0xCC, 0xCC]);
        packets.push(self.next(PacketKind::NetCommand, command, 0))?;
        if command == 0x55 {
            let family = self.one_of(&[0x50, 0x28, 0x28]);
            packets.push(self.next(PacketKind::NetRom, family, 0))?;
        }
        let any = self.draw(256);
        let function = self.one_of(&[0x4E, any, 0xBE, 0xBE]);
        packets.push(self.next(PacketKind::NetByte, function, 0))?;
        for _ in 0..self.draw(14) {
            let byte = self.byte();
            packets.push(self.next(PacketKind::NetByte, byte, 0))?;
        }
        Ok(())
    }

    // A frame; its value has bits above the lowest eight that say nothing. Once in so many times it has an error.
    fn frame(&mut self, distance: u64, byte: u8) -> Packet {
        let above = self.one_of(&[0, 0x100]);
        let b = if self.draw(900) == 0 { self.draw(4) } else { 0 };
        self.behind(PacketKind::UartFrame, distance, u64::from(byte) | above, b)
    }

    // A byte of a message whose CRC has come so far: the CRC itself at the end, now and then another one.
    fn message_byte(&mut self, left: u16, register: u16, wrong: u16) -> u8 {
        match left {
            2 => (register & 0xFF) as u8,
            1 => ((register >> 8 ^ wrong) & 0xFF) as u8,
            _ => (self.draw(256) & 0xFF) as u8,
        }
    }

    /// Appends a message of 1 to 257 bytes. It begins behind a break, or the gap behind the frame before it, a sample less or
    /// more, or more than that; a frame inside of it at times a sample less than the gap.
    pub fn add_message(&mut self, gap: u64, packets: &mut Vec<Packet>) -> Result<(), AllocError> {
        let less = gap.saturating_sub(1);
        let more = gap.saturating_add(1);
        let mut distance = self.one_of(&[less, gap, more, gap.saturating_add(40), 1]);
        if self.draw(5) == 0 {
            packets.push(self.behind(PacketKind::UartBreak, 1, 0, 0))?;
            distance = 1;
        }
        let count = u16::try_from(self.one_of(&[1, 2, 3, 4, 256, 257, 8, 8])).unwrap_or(8);
        let wrong = if self.draw(4) == 0 { 1 } else { 0 };
        let mut register = 0xFFFF_u16;
        for place in 0..count {
            let left = count - place;
            let byte = self.message_byte(left, register, wrong);
            if left > 2 {
                register = behind(register, byte);
            }
            packets.push(self.frame(distance, byte))?;
            distance = if self.draw(8) == 0 { less } else { 0 };
        }
        Ok(())
    }

    /// Appends a byte: any status, system message or real time message, and else a data byte; now and then with an error, or
    /// a break in place of it.
    pub fn add_byte(&mut self, packets: &mut Vec<Packet>) -> Result<(), AllocError> {
        let low = self.draw(128);
        let status = [0x80 | low, 0xF0 | low % 8, 0xF8 | low % 8, 0xF0, 0xF7];
        let kind = self.draw(15) as usize;
        let a = status.get(kind).copied().unwrap_or(low);
        let packet = match self.draw(40) {
            0 => self.behind(PacketKind::UartBreak, 1, 0, 0),
            1 => self.behind(PacketKind::UartFrame, 1, a, 1 + low % 3),
            _ => self.behind(PacketKind::UartFrame, 1, a, 0),
        };
        packets.push(packet)?;
        Ok(())
    }

    // Appends samples in which line 3 has a level, and the lines below it any.
    fn hold(&mut self, level: Word, count: u64, samples: &mut Vec<Word>) -> Result<(), AllocError> {
        for _ in 0..count {
            samples.push(level << 3 | Word::from(self.draw(8)))?;
        }
        Ok(())
    }

    // Appends a pulse that says a bit where a 0 has three samples and more.
    fn add_bit(&mut self, bit: bool, samples: &mut Vec<Word>) -> Result<(), AllocError> {
        let low = if bit {
            self.one_of(&[1, 2])
        } else {
            self.one_of(&[3, 4, 5])
        };
        self.hold(0, low, samples)?;
        let high = self.one_of(&[1, 2]);
        self.hold(1, high, samples)
    }

    /// Appends a segment of a 1-Wire line where a reset has 48 samples and more, and its answer begins at most ten behind it:
    /// now and then with a reset that is too short, an answer that comes too late, or none; a command, and some bits.
    pub fn add_segment(&mut self, samples: &mut Vec<Word>) -> Result<(), AllocError> {
        let low = self.one_of(&[47, 48, 49, 50]);
        self.hold(0, low, samples)?;
        let pause = self.draw(11).saturating_add(1);
        self.hold(1, pause, samples)?;
        if self.draw(8) != 0 {
            self.hold(0, 12, samples)?;
            self.hold(1, 3, samples)?;
        }
        let any = self.draw(256);
        let command = self.one_of(&[0x33, 0x55, 0x69, 0xF0, 0xEC, 0xCC, any, any]);
        for place in 0..8_u32 {
            self.add_bit(command >> place & 1 == 1, samples)?;
        }
        for _ in 0..self.one_of(&[0, 7, 63, 64, 191, 192, 80, 210]) {
            let bit = self.draw(2) == 1;
            self.add_bit(bit, samples)?;
        }
        Ok(())
    }
}
