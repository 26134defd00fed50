// An SPI bus whose clock rests low, whose data are taken as it rises, and whose select line is low
// where it is selected.
use crate::drawing::Drawing;
use crate::waves::bytes_of;
use anyhow::Result;
use std::alloc::Global;

const SCK: usize = 0;

const MOSI: usize = 1;

const MISO: usize = 2;

const SELECT: usize = 3;

// Half a bit with the clock at this level.
fn step(drawing: &mut Drawing, clock: bool) -> Result<()> {
    drawing.set(SCK, clock);
    drawing.hold(drawing.half())
}

// The bits of a byte in each direction, from the highest on.
fn draw_bytes(drawing: &mut Drawing, out: u8, back: u8) -> Result<()> {
    for place in 0..8_u32 {
        drawing.set(MOSI, out << place & 0x80 != 0);
        drawing.set(MISO, back << place & 0x80 != 0);
        step(drawing, false)?;
        step(drawing, true)?;
    }
    Ok(())
}

// Half a bit in which the select line changes, while the other lines are low.
fn select(drawing: &mut Drawing, level: bool) -> Result<()> {
    drawing.set(MOSI, false);
    drawing.set(MISO, false);
    drawing.set(SELECT, level);
    step(drawing, false)
}

// The bytes in each direction, with 00 on MISO where there are none.
fn draw_all(drawing: &mut Drawing, out: &[u8], back: &[u8]) -> Result<()> {
    for place in 0..out.len() {
        let answer = back.get(place).copied().unwrap_or(0);
        draw_bytes(drawing, out[place], answer)?;
    }
    Ok(())
}

/// Draws a transaction: the bytes on MOSI and, behind a slash, those on MISO, 00 where there are
/// none.
pub fn draw_spi(drawing: &mut Drawing, alloc: Global, text: &str) -> Result<()> {
    let (out, back) = text.split_once('/').unwrap_or((text, ""));
    let out = bytes_of(alloc, out)?;
    let back = bytes_of(alloc, back)?;
    select(drawing, true)?;
    select(drawing, false)?;
    draw_all(drawing, &out, &back)?;
    select(drawing, true)
}
