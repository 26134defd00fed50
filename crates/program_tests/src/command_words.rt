use crate::rows::parts_of;
use la_base::CsvMode;
use std::alloc::Global;
use std::test::Fail;
use words::{Format, Job, Settings, WordWhy, WordsError, read_words};

// Settings that words make; which words are at fault is in the rows of `run_rows`. A row has words between brackets, and behind
// them what they give. In a word a star stands before the number of bytes `x` that go on.

// The job, the channels, the rate, whether there are threads, and the ring; for a VCD capture the units of
// a sample besides, for a CSV capture what its records are, and whether the first one names its columns; for
// a capture that is made the seed and the count; and `watch` where a viewer is shown the listing.
pub const VALUES: &str = "\
[i2c] decode 8 1000000/1 yes 256
[--job decode i2c] decode 8 1000000/1 yes 256
[D0=h --job find] find 8 1000000/1 yes 256
[--job=find D0=h] find 8 1000000/1 yes 256
[a*4095] decode 8 1000000/1 yes 256
[--format raw i2c] decode 8 1000000/1 yes 256
[i2c --format=raw] decode 8 1000000/1 yes 256
[--channels 128 i2c] decode 128 1000000/1 yes 256
[--channels=1 i2c] decode 1 1000000/1 yes 256
[i2c --channels=0000000000000000007] decode 7 1000000/1 yes 256
[--rate 1 i2c] decode 8 1/1 yes 256
[--rate 0001/0003 i2c] decode 8 1/3 yes 256
[--rate=4/2 i2c] decode 8 4/2 yes 256
[--rate=1000000000000000/1000000000 i2c] decode 8 1000000000000000/1000000000 yes 256
[--threads no i2c] decode 8 1000000/1 no 256
[--threads=yes i2c] decode 8 1000000/1 yes 256
[--watch yes i2c] decode 8 1000000/1 yes 256 watch
[--watch=no i2c] decode 8 1000000/1 yes 256
[i2c --threads=no --watch=yes] decode 8 1000000/1 no 256 watch
[--job find --watch yes D0=h] find 8 1000000/1 yes 256 watch
[--watch=yes --job=part i2c] part 8 1000000/1 yes 256 watch
[--job make --watch yes] make 8 1000000/1 yes 256 seed 1 count 1000 watch
[--ring 1 i2c] decode 8 1000000/1 yes 1
[--ring=16384 i2c] decode 8 1000000/1 yes 16384
[--format vcd i2c] decode 8 1000000/1 yes 256 vcd 1
[--down=1000000000 --format vcd i2c] decode 8 1000000/1 yes 256 vcd 1000000000
[--format=vcd --job find --down 007 D0=h] find 8 1000000/1 yes 256 vcd 7
[--down 7 i2c] decode 8 1000000/1 yes 256
[--format csv i2c] decode 8 1000000/1 yes 256 csv rows yes
[--csv=times --header no --format=csv i2c] decode 8 1000000/1 yes 256 csv times no
[--csv times i2c] decode 8 1000000/1 yes 256
[--job make] make 8 1000000/1 yes 256 seed 1 count 1000
[--job=make --seed 0] make 8 1000000/1 yes 256 seed 0 count 1000
[--seed=2147483647 --job make] make 8 1000000/1 yes 256 seed 2147483647 count 1000
[--count 1 --job=make] make 8 1000000/1 yes 256 seed 1 count 1
[--job make --seed 7 --count=1000000] make 8 1000000/1 yes 256 seed 7 count 1000000
[--seed 5 i2c] decode 8 1000000/1 yes 256
[--job part i2c] part 8 1000000/1 yes 256
[--job=part --from 00 --channels 4 --format raw i2c] part 4 1000000/1 yes 256
[--ring=4 --threads no D0=h --rate=2/3 --channels 16 --format=raw --show all --job=find] find 16 2/3 no 4";

// The decoders that are shown, the binary data that is wanted, and the other words, each with its number. Decode takes 24 chains,
// whatever they are, and find 8 alternatives.
pub const TEXTS: &str = "\
[help] 0:help
[é a=b] 0:é 1:a=b
[a --ring 5 b --rate=5 c] 0:a 3:b 5:c
[--job=find D0=h --ring 5 D1=r] 1:D0=h 4:D1=r
[--show all a] 2:a
[--show=all a] 1:a
[--show i2c-1 i2c] 1:i2c-1 of 2:i2c
[i2c --show=i2c-1,spi-1] 1:i2c-1,spi-1 of 0:i2c
[a --show all,i2c-1] 2:all,i2c-1 of 0:a
[--show=-all a] 0:-all of 1:a
[--show=a=b a] 0:a=b of 1:a
[--show==x a] 0:=x of 1:a
[--binary i2c-1:read i2c] bytes 1:i2c-1:read of 2:i2c
[a --binary=all] bytes 1:all of 0:a
[--show=b --binary c a] 0:b of bytes 2:c of 3:a
[--binary=-x D0=h --job=find] bytes 0:-x of 1:D0=h
[--job part --from 00 i2c] from 00 of 4:i2c
[i2c --from=-x] from -x of 0:i2c
[D0=q a a a a a a a a a a a a a a a a a a a a a a a] 0:D0=q 1:a 2:a 3:a 4:a 5:a 6:a 7:a 8:a 9:a 10:a 11:a 12:a 13:a 14:a 15:a 16:a 17:a 18:a 19:a 20:a 21:a 22:a 23:a
[a=h a=l a=r a=f a=e a=s a=h a=h --job=find] 0:a=h 1:a=l 2:a=r 3:a=f 4:a=e 5:a=s 6:a=h 7:a=h";

// A word of a row.
fn word_of(alloc: Global, text: &str) -> Result<String, Fail> {
    let (begin, more) = text.split_once('*').unwrap_or((text, "0"));
    let mut word = String::from_str(alloc, begin)?;
    for _ in 0..more.parse::<u32>().unwrap_or(0) {
        word.push_str("x")?;
    }
    Ok(word)
}

// The words of a line. They stand between single blanks.
fn words_of(alloc: Global, line: &str) -> Result<Vec<String>, Fail> {
    let mut words = Vec::new(alloc);
    for text in line.split(' ') {
        words.push(word_of(alloc, text)?)?;
    }
    Ok(words)
}

// What the options of a format set.
fn add_format(settings: &Settings, values: &mut String) -> Result<(), Fail> {
    if settings.format == Format::Vcd {
        write!(values, " vcd {}", settings.down)?;
    }
    if settings.format == Format::Csv {
        let records = if settings.csv == CsvMode::Times {
            "times"
        } else {
            "rows"
        };
        let header = if settings.header { "yes" } else { "no" };
        write!(values, " csv {records} {header}")?;
    }
    Ok(())
}

// What is set but for texts.
fn values_of(alloc: Global, settings: &Settings) -> Result<String, Fail> {
    let job = match settings.job {
        Job::Decode => "decode",
        Job::Find => "find",
        Job::Make => "make",
        Job::Part => "part",
    };
    let mut values = format!(in alloc;
        "{job} {} {}/{} {} {}",
        settings.channels,
        settings.rate.num,
        settings.rate.den,
        if settings.threads { "yes" } else { "no" },
        settings.ring
    )?;
    add_format(settings, &mut values)?;
    if settings.job == Job::Make {
        write!(values, " seed {} count {}", settings.seed, settings.count)?;
    }
    if settings.watch {
        values.push_str(" watch")?;
    }
    Ok(values)
}

// The texts that are set, with the numbers of their words.
fn texts_of(alloc: Global, settings: &Settings) -> Result<String, Fail> {
    let mut texts = String::new(alloc);
    if let Some(show) = &settings.show {
        write!(texts, "{}:{} of ", show.word, show.text)?;
    }
    if let Some(binary) = &settings.binary {
        write!(texts, "bytes {}:{} of ", binary.word, binary.text)?;
    }
    if let Some(from) = &settings.from {
        write!(texts, "from {from} of ")?;
    }
    for chain in &settings.chains {
        write!(texts, "{}:{} ", chain.word, chain.text)?;
    }
    Ok(texts)
}

/// Whether words set what their row says.
pub fn holds(alloc: Global, row: &str) -> Result<bool, Fail> {
    let (_, line, want) = parts_of(row);
    match read_words(alloc, &words_of(alloc, line)?) {
        Ok(settings) => {
            let values = values_of(alloc, &settings)?;
            let texts = texts_of(alloc, &settings)?;
            Ok(values.as_str() == want || texts.as_str().trim_end() == want)
        }
        Err(_) => Ok(false),
    }
}

/// Whether a word asks for help or the version: where these are no first words of the program, they are no options.
pub fn is_unknown(alloc: Global, word: &str) -> Result<bool, Fail> {
    match read_words(alloc, &words_of(alloc, word)?) {
        Err(WordsError::Fault(fault)) => Ok(fault.word == 0 && fault.why == WordWhy::Unknown),
        _ => Ok(false),
    }
}

/// What the table of options tells of each: its name, the values that it takes and the usual one.
pub const OPTIONS_TOLD: &str = "\
job (decode, find, make, part) decode
format (raw, vcd, csv) raw
channels (1 to 128) 8
rate (N or N/D, N 1 to 1000000000000000, D 1 to 1000000000) 1000000
down (1 to 1000000000) 1
csv (rows, times) rows
header (yes, no) yes
threads (yes, no) yes
ring (1 to 16384) 256
show (text) all
binary (text) none
seed (0 to 2147483647) 1
count (1 to 1000000) 1000
from (text) none
watch (yes, no) no
";
