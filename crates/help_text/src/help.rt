// What `--help` and `--version` tell.
ghost use Rattle.std.specs.Prelude.{◌≡◌, IfOk, MatchOption, codes};
ghost use Rattle.std.specs.String.{string_bytes};
ghost use Rattle.kind_table.specs.declared.table.TheConstants.{KINDS};
ghost use Rattle.words.specs.declared.options.TheConstants.{OPTIONS};
ghost use Rattle.help_text.specs.Help.{IsHelp, TellsOption, option_lines};
ghost use Rattle.help_text.specs.declared.help.TheConstants.{USAGE, DECODERS, CLOSING};

use crate::decoders::kind_text;
use kind_table::KINDS;
use std::alloc::{AllocError, Global};
use words::{Name, OPTIONS};

/// What `--version` tells.
pub const VERSION: &str = "ldecode 0.1.0\n";

/// What the program does, and how its words are put.
pub const USAGE: &str = "\
ldecode reads a recorded logic capture on standard input.

ldecode [OPTION..] CHAIN..
    decodes it, and prints a line for each note: FIRST-LAST INSTANCE: TEXT.
    A chain is DECODER:OPTION=VALUE:OPTION=VALUE, and after commas decoders of
    what the one before them gives. It may begin with an earlier instance, which
    is DECODER-NUMBER.
ldecode --job find [OPTION..] ALTERNATIVE..
    prints a line for each sample at which an alternative holds:
    SAMPLE: NUMBERS. An alternative is `any`, or terms with commas between them:
    CHANNEL=LEVEL, where the level is r, f, e (an edge), s (none), h or l; or
    skip=SAMPLES.
ldecode --job part [OPTION..] CHAIN..
    decodes a part of a capture of raw samples, which goes on where the part
    before it ended if --from names its checkpoint, and prints after the notes
    the line checkpoint: WORD, whose word is for the part after it.
ldecode --job make [OPTION..]
    decodes a capture that is made, of transactions that a seed draws, and
    prints how many samples it has, and what its decoders give, in numbers. This
    checks the program: what is printed is known from what was drawn.

A capture is raw samples, with channels D0, D1 and so on; or with --format vcd
a value change dump, which names its channels and tells its rate; or with
--format csv a table, whose first record names its columns.
A channel is named, as D0 or A, or is a number, counted from 0.

Options, as --NAME VALUE or --NAME=VALUE, before, between or after the other
words:
";

// The columns for what an option sets, after six blanks.
const MOST_SETS: usize = 74;

/// The heading of the decoders.
pub const DECODERS: &str = "
Decoders, and what each stands on, its options and its binary data:
";

/// A whole example of each job, and what an exit status says.
pub const CLOSING: &str = "
An I2C bus on the first two of eight channels, a byte a sample; and with an
EEPROM:
    ldecode i2c:scl=D0:sda=D1 < capture.raw
    ldecode i2c:scl=D0:sda=D1,eeprom24 < capture.raw
What a serial line says, as it was said:
    ldecode --binary uart-1:data uart:rx=D0 < capture.raw
Messages of Modbus at 19200 baud, 3.5 characters apart; above that gap=1750000:
    ldecode uart:rx=D0:baud=19200,modbus:gap=1822917 < capture.raw
Where D0 rises while D3 is low:
    ldecode --job find D0=r,D3=l < capture.raw
The first part of a capture, and the part after it:
    ldecode --job part i2c:scl=D0:sda=D1 < first.raw
    ldecode --job part --from WORD i2c:scl=D0:sda=D1 < second.raw
What the decoders give of a made capture:
    ldecode --job make --seed 1 --count 1000

Exit statuses:
  0  the capture was read to its end, and all of it is written
  1  a fault of the words, the decoders, a channel, the rate or a checkpoint
  2  standard input failed; what came before is written
  3  a fault of the capture; what came before is written
  4  standard output failed; a prefix of what comes is written
  5  there was no memory; a prefix of what comes is written
  6  the system gave no words, or none that are UTF-8, or no memory for them
";

/// What `--help` tells: the jobs, the options, the decoders, an example of each job, and the exit
/// statuses.
pub fn help_text(alloc: Global) -> Result<String, AllocError>
    ensures { IfOk result (λ text. IsHelp USAGE.now DECODERS.now CLOSING.now OPTIONS KINDS (string_bytes text)) }
{
    let mut text = String::from_str(alloc, USAGE)?;
    for name in OPTIONS {
        text.push_str(option_text(alloc, name)?.as_str())?;
    }
    text.push_str(DECODERS)?;
    for kind in KINDS {
        text.push_str(kind_text(alloc, kind)?.as_str())?;
    }
    text.push_str(CLOSING)?;
    Ok(text)
}

// The lines of an option.
fn option_lines(
    alloc: Global,
    name: &str,
    sets: &str,
    values: &str,
    usual: &str,
) -> Result<String, AllocError>
    ensures { IfOk result (λ text. string_bytes text ≡ option_lines name.now sets.now values.now usual.now) }
{
    format!(in alloc; "  --{name}\n      {sets}\n      takes {values}; usual: {usual}\n")
}

// The usual value of an option, or that it has none.
fn usual_text(usual: Option<&'static str>) -> &'static str
    ensures { MatchOption usual.entry (result.now ≡ codes "none") (λ text. result.now ≡ text.now) }
{
    match usual {
        Some(text) => text,
        None => "none",
    }
}

// A text in lines of at most `MOST_SETS` columns, where none of its words is longer.
fn folded(alloc: Global, text: &str) -> Result<String, AllocError> {
    let mut folded = String::new(alloc);
    let mut column = 0_usize;
    for word in text.split(' ') {
        if column > 0 {
            if word.len() < MOST_SETS.saturating_sub(column) {
                folded.push_str(" ")?;
                column = column.saturating_add(1);
            } else {
                folded.push_str("\n      ")?;
                column = 0;
            }
        }
        folded.push_str(word)?;
        column = column.saturating_add(word.len());
    }
    Ok(folded)
}

// One option of the program.
fn option_text(alloc: Global, name: Name) -> Result<String, AllocError>
    ensures { IfOk result (λ text. TellsOption name (string_bytes text)) }
{
    let row = name.row();
    let sets = folded(alloc, row.help)?;
    let values = format!(in alloc; "{}", row.takes)?;
    let usual = usual_text(row.usual);
    option_lines(alloc, row.name, sets.as_str(), values.as_str(), usual)
}
