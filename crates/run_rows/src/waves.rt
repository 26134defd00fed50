// The statements of a row that draw its capture.
use crate::drawing::Drawing;
use crate::i2c::{draw_bits, draw_bus};
use crate::onewire::{draw_onewire, draw_wire};
use crate::serial::draw_line;
use crate::spi::draw_spi;
use anyhow::{Context, Result, bail, ensure};
use std::alloc::Global;

/// A number.
pub fn number_of(text: &str) -> Result<u64> {
    text.trim()
        .parse::<u64>()
        .context(format_args!("{text:?} is no number"))
}

/// The byte of two hexadecimal digits.
pub fn byte_of(text: &str) -> Result<u8> {
    ensure!(
        text.len() == 2,
        "{text:?} is no byte of two hexadecimal digits"
    );
    u8::from_str_radix(text, 16).context(format_args!("{text:?} is no byte"))
}

/// The bytes of hexadecimal digits, two for each byte, with blanks wherever they serve.
pub fn bytes_of(alloc: Global, text: &str) -> Result<Vec<u8>> {
    let mut bytes = Vec::new(alloc);
    for word in text.split_whitespace() {
        ensure!(word.len() % 2 == 0, "{word:?} has a digit too many");
        for pair in word.as_bytes().chunks_exact(2) {
            bytes.push(byte_of(str::from_utf8(pair).unwrap_or(""))?)?;
        }
    }
    Ok(bytes)
}

// The bit of a channel that is named by its number, as D5.
fn bit_of(word: &str) -> Result<u128> {
    let channel = number_of(word.strip_prefix('D').unwrap_or(""))?;
    ensure!(channel < 128, "{word:?} is no channel from D0 to D127");
    Ok(1 << channel)
}

// Bytes as they are, each group as often as is said behind an x.
fn draw_samples(drawing: &mut Drawing, alloc: Global, text: &str) -> Result<()> {
    let mut group = Vec::new(alloc);
    let mut counted = false;
    for word in text.split([' ', ',']) {
        if word == "x" {
            counted = true;
        } else if counted {
            let times = number_of(word)?;
            ensure!(1 <= times && times <= 1 << 20, "{word} times");
            for _ in 1..times {
                drawing.add(&group)?;
            }
            counted = false;
        } else if !word.is_empty() {
            group = bytes_of(alloc, word)?;
            drawing.add(&group)?;
        }
    }
    ensure!(!counted, "nothing stands behind the x");
    Ok(())
}

// The channels become high, or low.
fn draw_levels(drawing: &mut Drawing, text: &str, high: bool) -> Result<()> {
    for word in text.split_whitespace() {
        drawing.set_channel(bit_of(word)?, high);
    }
    Ok(())
}

// The waves' lines lie on these channels.
fn choose_lines(drawing: &mut Drawing, alloc: Global, text: &str) -> Result<()> {
    let mut bits = Vec::new(alloc);
    for word in text.split_whitespace() {
        bits.push(bit_of(word)?)?;
    }
    drawing.set_lines(&bits)
}

/// Draws what a statement says, or is no statement that draws.
pub fn draw(drawing: &mut Drawing, alloc: Global, name: &str, text: &str) -> Result<()> {
    match name {
        "samples" => draw_samples(drawing, alloc, text),
        "channels" => drawing.set_channels(number_of(text)?),
        "on" => choose_lines(drawing, alloc, text),
        "high" => draw_levels(drawing, text, true),
        "low" => draw_levels(drawing, text, false),
        "rest" => drawing.hold(number_of(text)?),
        "bus" => draw_bus(drawing, text),
        "bits" => draw_bits(drawing, text),
        "spi" => draw_spi(drawing, alloc, text),
        "line" => draw_line(drawing, alloc, text),
        "onewire" => draw_onewire(drawing, alloc, text),
        "wire" => draw_wire(drawing, alloc, text),
        "half" => {
            drawing.set_half(number_of(text)?);
            Ok(())
        }
        "rate" => {
            drawing.set_rate(number_of(text)?);
            Ok(())
        }
        _ => bail!("{name:?} is no statement"),
    }
}
