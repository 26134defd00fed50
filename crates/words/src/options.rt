// The options that a word may name: one row for each.
ghost use Rattle.std.specs.Prelude.{◌≡◌};
ghost use Rattle.words.specs.Options.{name_of, row};
ghost use Rattle.words.specs.Rows.{row_of};

use crate::values::{MOST_RATE_DEN, MOST_RATE_NUM};
use la_base::MOST_PINS;
use std::fmt;

/// An option: a word `--NAME VALUE` or `--NAME=VALUE`.
#[derive(Clone, Copy, PartialEq, Eq)]
pub enum Name {
    Job,
    Format,
    Channels,
    Rate,
    Down,
    Csv,
    Header,
    Threads,
    Ring,
    Show,
    Binary,
    Seed,
    Count,
    From,
    Watch,
}

/// The values that an option takes.
#[derive(Clone, Copy)]
pub enum Takes {
    /// One of these texts.
    OneOf(&'static [&'static str]),
    /// A decimal number from `least` to `most`.
    Number { least: u64, most: u64 },
    /// `N` or `N/D` samples a second.
    Rate,
    /// Any text that isn't empty.
    Text,
}

impl fmt::Display for Takes {
    fn fmt<W: fmt::Write>(&self, f: &mut fmt::Formatter<W>) -> fmt::Result {
        match self {
            Takes::OneOf(choices) => {
                for (place, choice) in choices.iter().enumerate() {
                    if place > 0 {
                        f.write_str(", ")?;
                    }
                    f.write_str(choice)?;
                }
                Ok(())
            }
            Takes::Number { least, most } => write!(f, "{least} to {most}"),
            Takes::Rate => write!(
                f,
                "N or N/D, N 1 to {MOST_RATE_NUM}, D 1 to {MOST_RATE_DEN}"
            ),
            Takes::Text => f.write_str("text"),
        }
    }
}

/// One option as it is told to who asks for help, and as the words are read.
#[derive(Clone, Copy)]
pub struct OptionRow {
    /// What stands behind the `--`.
    pub name: &'static str,
    /// The values that it takes.
    pub takes: Takes,
    /// The value that counts where the option isn't given, if one does.
    pub usual: Option<&'static str>,
    /// What it sets, in one line.
    pub help: &'static str,
}

/// The most units of time for which a sample stands.
pub const MOST_DOWN: u32 = 1_000_000_000;

/// The most slots of a ring.
pub const MOST_RING: u32 = 16_384;

/// The most that the seed of a made capture is.
pub const MOST_SEED: u32 = 2_147_483_647;

/// The most transactions that a made capture has.
pub const MOST_COUNT: u32 = 1_000_000;

/// The options, in the order in which they are told.
pub const OPTIONS: [Name; 15] = [
    Name::Job,
    Name::Format,
    Name::Channels,
    Name::Rate,
    Name::Down,
    Name::Csv,
    Name::Header,
    Name::Threads,
    Name::Ring,
    Name::Show,
    Name::Binary,
    Name::Seed,
    Name::Count,
    Name::From,
    Name::Watch,
];

impl Name {
    /// The row of the option: all that is said of it stands there.
    pub fn row(self) -> OptionRow
        ensures { row_of result ≡ row self }
    {
        match self {
            Name::Job => OptionRow {
                name: "job",
                takes: Takes::OneOf(&["decode", "find", "make", "part"]),
                usual: Some("decode"),
                help: "decode the capture, or a part of it, find where a condition holds, or decode one that is made",
            },
            Name::Format => OptionRow {
                name: "format",
                takes: Takes::OneOf(&["raw", "vcd", "csv"]),
                usual: Some("raw"),
                help: "the form of the capture",
            },
            Name::Channels => OptionRow {
                name: "channels",
                takes: Takes::Number {
                    least: 1,
                    most: MOST_PINS as u64,
                },
                usual: Some("8"),
                help: "channels of a raw capture",
            },
            Name::Rate => OptionRow {
                name: "rate",
                takes: Takes::Rate,
                usual: Some("1000000"),
                help: "samples a second of a raw or csv capture; serial lines, 1-Wire lines and csv captures with times go by it",
            },
            Name::Down => OptionRow {
                name: "down",
                takes: Takes::Number {
                    least: 1,
                    most: MOST_DOWN as u64,
                },
                usual: Some("1"),
                help: "units of time for which a sample of a vcd capture stands",
            },
            Name::Csv => OptionRow {
                name: "csv",
                takes: Takes::OneOf(&["rows", "times"]),
                usual: Some("rows"),
                help: "a record of a csv capture is a sample, or has its time in the first column",
            },
            Name::Header => OptionRow {
                name: "header",
                takes: Takes::OneOf(&["yes", "no"]),
                usual: Some("yes"),
                help: "whether the first record of a csv capture names its columns",
            },
            Name::Threads => OptionRow {
                name: "threads",
                takes: Takes::OneOf(&["yes", "no"]),
                usual: Some("yes"),
                help: "one thread for each decoder, or one for all",
            },
            Name::Ring => OptionRow {
                name: "ring",
                takes: Takes::Number {
                    least: 1,
                    most: MOST_RING as u64,
                },
                usual: Some("256"),
                help: "slots of each ring between two threads",
            },
            Name::Show => OptionRow {
                name: "show",
                takes: Takes::Text,
                usual: Some("all"),
                help: "the decoders whose notes are written: all, or names with commas between them",
            },
            Name::Binary => OptionRow {
                name: "binary",
                takes: Takes::Text,
                usual: None,
                help: "NAME:CLASS, a decoder and a class of its binary data, whose bytes are written in place of lines",
            },
            Name::Seed => OptionRow {
                name: "seed",
                takes: Takes::Number {
                    least: 0,
                    most: MOST_SEED as u64,
                },
                usual: Some("1"),
                help: "the seed of a made capture",
            },
            Name::Count => OptionRow {
                name: "count",
                takes: Takes::Number {
                    least: 1,
                    most: MOST_COUNT as u64,
                },
                usual: Some("1000"),
                help: "how many transactions a made capture has",
            },
            Name::From => OptionRow {
                name: "from",
                takes: Takes::Text,
                usual: None,
                help: "the checkpoint that the part before this one ended with",
            },
            Name::Watch => OptionRow {
                name: "watch",
                takes: Takes::OneOf(&["yes", "no"]),
                usual: Some("no"),
                help: "show a viewer the listing while it grows, and tell how many notes it saw",
            },
        }
    }
}

/// The option that a text names.
pub fn name_of(text: &str) -> Option<Name>
    ensures { result ≡ name_of text.now }
{
    for option in OPTIONS {
        if option.row().name == text {
            return Some(option);
        }
    }
    None
}
