// An I2C bus, from one that is free to one that is free again.
use crate::drawing::Drawing;
use crate::waves::byte_of;
use anyhow::{Result, bail};

const SCL: usize = 0;

const SDA: usize = 1;

// Half a bit with the clock and the data at these levels.
fn step(drawing: &mut Drawing, clock: bool, data: bool) -> Result<()> {
    drawing.set(SCL, clock);
    drawing.set(SDA, data);
    drawing.hold(drawing.half())
}

// A bit: the data change while the clock is low.
fn draw_bit(drawing: &mut Drawing, bit: bool) -> Result<()> {
    step(drawing, false, bit)?;
    step(drawing, true, bit)
}

// The data leave this level while the clock stays high.
fn turn(drawing: &mut Drawing, from: bool) -> Result<()> {
    step(drawing, true, from)?;
    step(drawing, true, !from)
}

// A byte of two hexadecimal digits, from its highest bit on, and its acknowledgement: with a hyphen
// behind it, it isn't acknowledged.
fn draw_byte(drawing: &mut Drawing, word: &str) -> Result<()> {
    let (digits, refused) = match word.strip_suffix('-') {
        Some(digits) => (digits, true),
        None => (word, false),
    };
    let byte = byte_of(digits)?;
    for place in 0..8_u32 {
        draw_bit(drawing, byte << place & 0x80 != 0)?;
    }
    draw_bit(drawing, refused)
}

/// Draws a transaction from a START to a STOP: a slash stands for a repeated START.
pub fn draw_bus(drawing: &mut Drawing, text: &str) -> Result<()> {
    turn(drawing, true)?;
    for word in text.split_whitespace() {
        if word == "/" {
            draw_bit(drawing, true)?;
            step(drawing, true, false)?;
        } else {
            draw_byte(drawing, word)?;
        }
    }
    draw_bit(drawing, false)?;
    step(drawing, true, true)?;
    step(drawing, true, true)
}

/// Draws a bus letter by letter: `0` and `1` are a bit, `S` a START behind a clock that is high, and
/// `P` a STOP behind a 0.
pub fn draw_bits(drawing: &mut Drawing, text: &str) -> Result<()> {
    for letter in text.bytes() {
        match letter {
            b'0' => draw_bit(drawing, false)?,
            b'1' => draw_bit(drawing, true)?,
            b'S' => turn(drawing, true)?,
            b'P' => turn(drawing, false)?,
            b' ' => {}
            _ => bail!("{letter} is no letter of a bus"),
        }
    }
    Ok(())
}
