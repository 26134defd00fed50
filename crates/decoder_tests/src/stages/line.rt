// A serial line that carries bytes, and the decoders that read it.
use dec_midi::{Midi, MidiOpts};
use dec_modbus::{Modbus, ModbusOpts};
use dec_uart::{Uart, UartOpts};
use decoder_core::{Driver, Follower};
use la_base::{Rate, Run, Word};
use stage_run::HalfRun;
use std::alloc::{AllocError, Global};
use std::test::Fail;

/// Four samples a bit.
pub const RATE: Rate = Rate {
    num: 4_000_000,
    den: 1,
};

/// Samples between two bytes: many, so that a message of Modbus ends, or none.
pub const SILENCE: u64 = 8_000;

pub fn opened_line() -> Result<Driver<Uart>, Fail> {
    opened_line_on(0)
}

/// The same on another line of the samples.
pub fn opened_line_on(rx: u32) -> Result<Driver<Uart>, Fail> {
    let opts = UartOpts {
        rx,
        baud: 1_000_000,
        bits: 8,
        parity: 0,
        stop: 1,
        sp: 50,
    };
    match Uart::open(opts, RATE) {
        Ok(uart) => Ok(Driver::new(uart)),
        Err(_) => Err("not opened".into()),
    }
}

pub fn opened_midi() -> Result<Follower<Midi>, Fail> {
    match dec_midi::open(MidiOpts {}, RATE) {
        Ok(midi) => Ok(Follower::new(midi)),
        Err(_) => Err("not opened".into()),
    }
}

pub fn opened_modbus() -> Result<Follower<Modbus>, Fail> {
    match dec_modbus::open(ModbusOpts { gap: 1_750_000 }, RATE) {
        Ok(modbus) => Ok(Follower::new(modbus)),
        Err(_) => Err("not opened".into()),
    }
}

fn run(value: Word, len: u64) -> Run {
    Run {
        value,
        len: len.max(1),
    }
}

/// The runs of a line that carries bytes, each a start bit, eight data bits from the lowest on, and
/// a stop bit; and behind every tenth of them silence.
pub fn runs_of(alloc: Global, bytes: &[u8]) -> Result<Vec<Run>, AllocError> {
    let mut runs = Vec::new(alloc);
    runs.push(run(1, 40))?;
    for (place, byte) in bytes.iter().enumerate() {
        runs.push(run(0, 4))?;
        for bit in 0..8u32 {
            runs.push(run((*byte >> bit & 1) as Word, 4))?;
        }
        runs.push(run(1, if place % 10 == 9 { SILENCE } else { 4 }))?;
    }
    Ok(runs)
}

/// Runs of which no upper half of the lines is high, as half runs, and the end.
pub fn half_runs_of(alloc: Global, runs: &[Run]) -> Result<Vec<HalfRun>, AllocError> {
    let mut half_runs = Vec::new(alloc);
    for run in runs {
        half_runs.push(HalfRun::of(*run))?;
    }
    half_runs.push(HalfRun::telling(0))?;
    Ok(half_runs)
}

/// Bytes that two decoders have something to say about: a request with its check sum, notes by
/// running status, data without a status.
pub const BYTES: [u8; 40] = [
    0x01, 0x03, 0x00, 0x00, 0x00, 0x0A, 0xC5, 0xCD, 0x90, 0x3C, 0x40, 0xF8, 0x3E, 0x40, 0xF0, 0x01,
    0x02, 0xF7, 0x05, 0x81, 0x02, 0xC0, 0x11, 0xE0, 0x00, 0x40, 0xFE, 0xFF, 0x01, 0x02, 0x03, 0x04,
    0x05, 0x06, 0x07, 0x90, 0x01, 0x00, 0x02, 0x00,
];
