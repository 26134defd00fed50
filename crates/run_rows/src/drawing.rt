// A raw capture that is drawn, sample behind sample.
use anyhow::{Result, bail, ensure};
use std::alloc::Global;

// The most samples that are drawn at once.
const MOST: u64 = 1 << 20;

/// A raw capture that grows, and how its channels stand.
#[derive(Drop)]
pub struct Drawing {
    bytes: Vec<u8>,
    // bit k is the level of channel k
    levels: u128,
    // the bytes of a sample
    unit: usize,
    // the channels that have the lines of a wave, each as its bit
    lines: [u128; 4],
    // the samples of half a bit, where a clock tells the bits
    half: u64,
    // the samples of a second
    rate: u64,
}

impl Drawing {
    /// No samples, of eight channels that are high. A wave's lines are the first channels.
    pub fn new(alloc: Global) -> Drawing {
        Drawing {
            bytes: Vec::new(alloc),
            levels: u128::MAX,
            unit: 1,
            lines: [1, 2, 4, 8],
            half: 2,
            rate: 1_000_000,
        }
    }

    /// The bytes so far.
    pub fn bytes(&self) -> &[u8] {
        &self.bytes
    }

    /// The bytes of a sample.
    pub fn unit(&self) -> usize {
        self.unit
    }

    /// The samples of half a bit, where a clock tells the bits.
    pub fn half(&self) -> u64 {
        self.half
    }

    /// The samples of a second.
    pub fn rate(&self) -> u64 {
        self.rate
    }

    /// Each sample has as many bytes as so many channels need.
    pub fn set_channels(&mut self, channels: u64) -> Result<()> {
        ensure!(1 <= channels && channels <= 128, "1 to 128 channels");
        self.unit = channels.div_ceil(8) as usize;
        Ok(())
    }

    /// The waves behind this have so many samples in half a bit.
    pub fn set_half(&mut self, half: u64) {
        self.half = half;
    }

    /// The waves behind this have so many samples in a second.
    pub fn set_rate(&mut self, rate: u64) {
        self.rate = rate;
    }

    /// The waves behind this lie on these channels, each given as its bit.
    pub fn set_lines(&mut self, bits: &[u128]) -> Result<()> {
        ensure!(bits.len() <= 4, "a wave has at most four lines");
        for (line, bit) in self.lines.iter_mut().zip(bits) {
            *line = *bit;
        }
        Ok(())
    }

    /// Channels become high, or low, from the next sample on.
    pub fn set_channel(&mut self, bit: u128, high: bool) {
        if high {
            self.levels |= bit;
        } else {
            self.levels &= !bit;
        }
    }

    /// A line of a wave becomes high, or low, from the next sample on.
    pub fn set(&mut self, line: usize, high: bool) {
        let bit = self.lines.get(line).copied().unwrap_or(0);
        self.set_channel(bit, high);
    }

    /// The channels stay as they are for so many samples.
    pub fn hold(&mut self, count: u64) -> Result<()> {
        ensure!(count <= MOST, "{count} samples are too many");
        let all = self.levels.to_le_bytes();
        let Some(sample) = all.get(..self.unit) else {
            bail!("a sample is too long");
        };
        for _ in 0..count {
            self.bytes.extend_from_slice(sample)?;
        }
        Ok(())
    }

    /// Bytes as they are.
    pub fn add(&mut self, bytes: &[u8]) -> Result<()> {
        self.bytes.extend_from_slice(bytes)?;
        Ok(())
    }

    /// One byte as it is.
    pub fn add_byte(&mut self, byte: u8) -> Result<()> {
        self.bytes.push(byte)?;
        Ok(())
    }
}
