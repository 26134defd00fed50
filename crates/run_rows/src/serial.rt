// A serial line of eight data bits and one stop bit.
use crate::drawing::Drawing;
use crate::waves::{bytes_of, number_of};
use anyhow::{Context, Result, ensure};
use std::alloc::Global;

// A line whose bits end where their times fall.
#[derive(Drop)]
struct Bits<'a> {
    drawing: &'a mut Drawing,
    baud: u64,
    // the bits and the samples so far
    bits: u64,
    samples: u64,
}

impl Bits<'_> {
    fn draw_bit(&mut self, level: bool) -> Result<()> {
        self.bits = self.bits.saturating_add(1);
        let end = self.bits.saturating_mul(self.drawing.rate()) / self.baud.max(1);
        self.drawing.set(0, level);
        self.drawing.hold(end.saturating_sub(self.samples))?;
        self.samples = end;
        Ok(())
    }

    fn draw_frame(&mut self, byte: u8) -> Result<()> {
        self.draw_bit(false)?;
        for place in 0..8_u32 {
            self.draw_bit(byte >> place & 1 != 0)?;
        }
        self.draw_bit(true)
    }
}

/// Draws frames one behind another: behind the bits of a second stand bytes, as hexadecimal digits
/// or as text between quotes.
pub fn draw_line(drawing: &mut Drawing, alloc: Global, text: &str) -> Result<()> {
    let (baud, rest) = text.split_once(' ').context("no bytes")?;
    let baud = number_of(baud)?;
    ensure!(baud > 0, "no bits a second");
    let mut bits = Bits {
        drawing,
        baud,
        bits: 0,
        samples: 0,
    };
    let mut quoted = false;
    for part in rest.split('"') {
        let bytes = if quoted {
            part.as_bytes().to_vec(alloc)?
        } else {
            bytes_of(alloc, part)?
        };
        for byte in &bytes {
            bits.draw_frame(*byte)?;
        }
        quoted = !quoted;
    }
    Ok(())
}
