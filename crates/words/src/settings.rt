// What the words set.
ghost use Rattle.std.specs.Prelude.{◌≤◌};
ghost use Rattle.words.specs.Options.{IsWithin, row};
ghost use Rattle.words.specs.declared.options.Name.TheVariants.{Channels, Count, Down, Ring, Seed};
ghost use Rattle.words.specs.declared.values.TheConstants.{MOST_RATE_NUM, MOST_RATE_DEN};

use crate::{Format, Job};
use la_base::{CsvMode, Rate};
use text_parts::ChainWord;

/// The value of each option, and the words that are no options, in order.
#[derive(Drop)]
pub struct Settings {
    pub job: Job,
    pub format: Format,
    /// The channels of a raw capture.
    pub channels: u32,
    /// The rate of a capture that doesn't tell its own.
    pub rate: Rate,
    /// The units of time for which a sample of a VCD capture stands.
    pub down: u64,
    /// What the records of a CSV capture are.
    pub csv: CsvMode,
    /// Whether the first record of a CSV capture names its columns.
    pub header: bool,
    /// Whether decoders run in threads of their own.
    pub threads: bool,
    /// The slots of each ring between two threads.
    pub ring: u32,
    /// The decoders that are shown, where the words name them: the number of the word that holds
    /// the value, and the value.
    pub show: Option<ChainWord>,
    /// The decoder and the class whose binary data is written in place of lines, where the words
    /// name one: the number of the word that holds the value, and the value.
    pub binary: Option<ChainWord>,
    /// The seed of a made capture.
    pub seed: u64,
    /// How many transactions a made capture has.
    pub count: u64,
    /// The checkpoint with which an earlier part ended.
    pub from: Option<String>,
    /// Whether a viewer is shown the listing while it grows.
    pub watch: bool,
    /// The chains of decoders, or the alternatives of a condition; none where a capture is made.
    pub chains: Vec<ChainWord>,
    ghost channels_fit: { IsWithin (row Channels).takes channels },
    ghost rate_fits: { (rate.num ≤ MOST_RATE_NUM) × (rate.den ≤ MOST_RATE_DEN) },
    ghost down_fits: { IsWithin (row Down).takes down },
    ghost ring_fits: { IsWithin (row Ring).takes ring },
    ghost seed_fits: { IsWithin (row Seed).takes seed },
    ghost count_fits: { IsWithin (row Count).takes count },
}
