// A 1-Wire line.
use crate::drawing::Drawing;
use crate::waves::{bytes_of, number_of};
use anyhow::Result;
use std::alloc::Global;

// The line at a level for so many microseconds.
fn hold(drawing: &mut Drawing, level: bool, time: u64) -> Result<()> {
    drawing.set(0, level);
    drawing.hold(drawing.rate().saturating_mul(time) / 1_000_000)
}

// A slot of 70 microseconds.
fn draw_bit(drawing: &mut Drawing, bit: bool) -> Result<()> {
    let low = if bit { 6 } else { 60 };
    hold(drawing, false, low)?;
    hold(drawing, true, 70 - low)
}

// The bits of a byte, from the lowest on.
fn draw_byte(drawing: &mut Drawing, byte: u8) -> Result<()> {
    for place in 0..8_u32 {
        draw_bit(drawing, byte >> place & 1 != 0)?;
    }
    Ok(())
}

// A reset that is answered.
fn draw_reset(drawing: &mut Drawing) -> Result<()> {
    for (level, time) in [(false, 480), (true, 30), (false, 120), (true, 350)] {
        hold(drawing, level, time)?;
    }
    Ok(())
}

// Bits behind a `b`, a pulse of two times, or the bits of bytes.
fn draw_word(drawing: &mut Drawing, alloc: Global, word: &str) -> Result<()> {
    if let Some(bits) = word.strip_prefix('b') {
        for bit in bits.bytes() {
            draw_bit(drawing, bit == b'1')?;
        }
    } else if let Some((low, high)) = word.split_once('-') {
        hold(drawing, false, number_of(low)?)?;
        hold(drawing, true, number_of(high)?)?;
    } else {
        for byte in &bytes_of(alloc, word)? {
            draw_byte(drawing, *byte)?;
        }
    }
    Ok(())
}

/// Draws what words say: `R` is a reset that is answered, `b011` are bits, `480-30` is so long low and
/// then so long high, in microseconds, and hexadecimal digits are bytes.
pub fn draw_wire(drawing: &mut Drawing, alloc: Global, text: &str) -> Result<()> {
    for word in text.split_whitespace() {
        if word == "R" {
            draw_reset(drawing)?;
        } else {
            draw_word(drawing, alloc, word)?;
        }
    }
    Ok(())
}

/// Draws a reset that is answered, and what words say behind it.
pub fn draw_onewire(drawing: &mut Drawing, alloc: Global, text: &str) -> Result<()> {
    draw_reset(drawing)?;
    draw_wire(drawing, alloc, text)
}
