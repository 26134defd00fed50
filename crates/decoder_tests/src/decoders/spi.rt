// SPI by hand, and beside its reference program.
ghost use Rattle.std.specs.Prelude.{◌≤◌};

use super::feeding::{Told, decoded, list_of, runs_of};
use super::feeds::{RATE, said, samples_of};
use dec_spi::{Spi, SpiOpts};
use kind_table::Kind;
use la_base::{Out, Word};
use reference_decoders::spi::outputs_of;
use std::alloc::Global;
use std::process::Abort;
use std::test::Fail;

// A row: the bits of the clock, of MOSI, MISO and the select line, a hyphen where one isn't given; polarity, phase, the
// bits of a word, the mode; between the brackets the samples; and what they say, with the floor behind it.
const ROWS: &str = "\
# a word, and three clocks that give nothing; then fronts of it: a word that isn't given yet is begun at its first clock
0 1 - 2 1 1 8 0 [5123010123232323230101015] 1-1 Select; 1-1 #S 0/0; 3-17 MOSI 9F; 3-17 .0 9F; 3-17 #W 9F/0; 24-24 Deselect; 24-24 #D 0/0; @25
0 1 - 2 1 1 8 0 [] @0
0 1 - 2 1 1 8 0 [5] @1
0 1 - 2 1 1 8 0 [51] 1-1 Select; 1-1 #S 0/0; @2
0 1 - 2 1 1 8 0 [512] 1-1 Select; 1-1 #S 0/0; @3
0 1 - 2 1 1 8 0 [5123] 1-1 Select; 1-1 #S 0/0; @3
0 1 - 2 1 1 8 0 [51230101232323232] 1-1 Select; 1-1 #S 0/0; @3
0 1 - 2 1 1 8 0 [512301012323232323] 1-1 Select; 1-1 #S 0/0; 3-17 MOSI 9F; 3-17 .0 9F; 3-17 #W 9F/0; @18
0 1 - 2 1 1 8 0 [5123010123232323230] 1-1 Select; 1-1 #S 0/0; 3-17 MOSI 9F; 3-17 .0 9F; 3-17 #W 9F/0; @19
0 1 - 2 1 1 8 0 [51230101232323232301] 1-1 Select; 1-1 #S 0/0; 3-17 MOSI 9F; 3-17 .0 9F; 3-17 #W 9F/0; @19
0 1 - 2 1 1 8 0 [512301012323232323010101] 1-1 Select; 1-1 #S 0/0; 3-17 MOSI 9F; 3-17 .0 9F; 3-17 #W 9F/0; @19
# without a select line all samples are selected; a word of 32 bits on both lines, which from the other end is the other one
0 1 3 - 1 1 32 0 [ABAB89AB23ABAB892389AB89ABAB01ABAB01ABAB23AB238923ABAB89AB23ABAB] 0-0 Select; 0-0 #S 0/0; 1-63 MOSI DEADBEEF MISO F77DB57B; 1-63 .0 DE; 1-63 .0 AD; 1-63 .0 BE; 1-63 .0 EF; 1-63 .1 F7; 1-63 .1 7D; 1-63 .1 B5; 1-63 .1 7B; 1-63 #W DEADBEEF/F77DB57B; @64
0 1 3 - 1 1 32 2 [ABAB89AB23ABAB892389AB89ABAB01ABAB01ABAB23AB238923ABAB89AB23ABAB] 0-0 Select; 0-0 #S 0/0; 1-63 MOSI F77DB57B MISO DEADBEEF; 1-63 .0 F7; 1-63 .0 7D; 1-63 .0 B5; 1-63 .0 7B; 1-63 .1 DE; 1-63 .1 AD; 1-63 .1 BE; 1-63 .1 EF; 1-63 #W F77DB57B/DEADBEEF; @64
# a read of two bytes from address 000100h: MISO answers behind the address
0 1 2 3 0 0 8 0 [800101010101012323010101010101010101010101010101230101010101010101450145014501450101450145014501458] 1-1 Select; 1-1 #S 0/0; 3-17 MOSI 03 MISO 00; 3-17 .0 03; 3-17 .1 00; 3-17 #W 3/0; 19-33 MOSI 00 MISO 00; 19-33 .0 00; 19-33 .1 00; 19-33 #W 0/0; 35-49 MOSI 01 MISO 00; 35-49 .0 01; 35-49 .1 00; 35-49 #W 1/0; 51-65 MOSI 00 MISO 00; 51-65 .0 00; 51-65 .1 00; 51-65 #W 0/0; 67-81 MOSI 00 MISO AA; 67-81 .0 00; 67-81 .1 AA; 67-81 #W 0/AA; 83-97 MOSI 00 MISO 55; 83-97 .0 00; 83-97 .1 55; 83-97 #W 0/55; 98-98 Deselect; 98-98 #D 0/0; @99
# no sample; never selected; selected at the first sample, and at the last
0 1 - 2 0 0 1 0 [] @0
0 1 - 2 0 0 1 0 [4567] @4
0 1 - 2 0 0 1 0 [0] 0-0 Select; 0-0 #S 0/0; @1
0 1 - 2 0 0 1 0 [4440] 3-3 Select; 3-3 #S 0/0; @4
# a word of each level of MOSI
0 1 - 2 0 0 1 0 [40123] 1-1 Select; 1-1 #S 0/0; 2-2 MOSI 00; 2-2 .0 00; 2-2 #W 0/0; 4-4 MOSI 01; 4-4 .0 01; 4-4 #W 1/0; @5
# an edge of the clock in the sample that selects or deselects is none
0 1 - 2 0 0 1 0 [415] 1-1 Select; 1-1 #S 0/0; 2-2 Deselect; 2-2 #D 0/0; @3
0 1 - 2 0 0 1 0 [405] 1-1 Select; 1-1 #S 0/0; 2-2 Deselect; 2-2 #D 0/0; @3
# a word doesn't go on over a deselect
0 1 - 2 0 0 2 0 [401401015] 1-1 Select; 1-1 #S 0/0; 3-3 Deselect; 3-3 #D 0/0; 4-4 Select; 4-4 #S 0/0; 5-7 MOSI 00; 5-7 .0 00; 5-7 #W 0/0; 8-8 Deselect; 8-8 #D 0/0; @9
# bits are read where the clock falls
0 1 - 2 0 1 1 0 [0132] 0-0 Select; 0-0 #S 0/0; 3-3 MOSI 01; 3-3 .0 01; 3-3 #W 1/0; @4
0 1 - 2 1 0 1 0 [0132] 0-0 Select; 0-0 #S 0/0; 3-3 MOSI 01; 3-3 .0 01; 3-3 #W 1/0; @4
# the select line is active high
0 1 - 2 0 0 1 1 [014573] 2-2 Select; 2-2 #S 0/0; 3-3 MOSI 00; 3-3 .0 00; 3-3 #W 0/0; 5-5 Deselect; 5-5 #D 0/0; @6
# MISO alone, the least significant bit first: 1, then 0
0 - 1 2 0 0 2 3 [46745] 0-0 Select; 0-0 #S 0/0; 2-4 MISO 01; 2-4 .1 01; 2-4 #W 0/1; @5
# the highest that each option may be, and the lowest number of bits; then each is one too high, bits too low, and no data line given
127 - 127 127 1 1 32 3 [] @0
0 1 - - 1 1 1 0 [] @0";

fn opts_of(settings: &str) -> SpiOpts {
    let mut words = settings.split(' ');
    SpiOpts {
        sck: words.next().unwrap_or("").parse().unwrap_or(0),
        mosi: words.next().unwrap_or("").parse().ok(),
        miso: words.next().unwrap_or("").parse().ok(),
        cs: words.next().unwrap_or("").parse().ok(),
        cpol: words.next().unwrap_or("").parse().unwrap_or(0),
        cpha: words.next().unwrap_or("").parse().unwrap_or(0),
        bits: words.next().unwrap_or("").parse().unwrap_or(0),
        mode: words.next().unwrap_or("").parse().unwrap_or(0),
    }
}

// What the decoder gives of samples in runs of at most so many.
fn given(alloc: Global, opts: SpiOpts, samples: &[Word], most: u64) -> Result<Told, Fail> {
    match Spi::open(opts, RATE) {
        Ok(machine) => Ok(decoded(alloc, machine, &runs_of(alloc, samples, most)?)?),
        Err(_) => Err("not opened".into()),
    }
}

// What the reference program gives of them.
fn wanted(alloc: Global, opts: SpiOpts, samples: &[Word]) -> Result<Vec<Out>, Fail> {
    match Spi::open(opts, RATE) {
        Ok(_) => Ok(outputs_of(alloc, &opts, samples)?),
        Err(_) => Err("not opened".into()),
    }
}

// However they are cut into runs, the decoder gives of samples what the reference program gives.
fn check(rt: &impl Abort, alloc: Global, opts: SpiOpts, samples: &[Word]) -> Result<(), Fail> {
    let want = wanted(alloc, opts, samples)?;
    for most in [1, 2, u64::MAX] {
        let told = given(alloc, opts, samples, most)?;
        assert!(rt; told.outs.as_slice() == want.as_slice());
    }
    Ok(())
}

fn row_holds(rt: &impl Abort, alloc: Global, row: &str) -> Result<bool, Fail> {
    let (settings, rest) = row.split_once('[').unwrap_or(("", ""));
    let (digits, want) = rest.split_once(']').unwrap_or(("", "?"));
    let opts = opts_of(settings);
    let samples = samples_of(alloc, digits)?;
    check(rt, alloc, opts, &samples)?;
    let told = given(alloc, opts, &samples, 1)?;
    let mut says = said(alloc, Kind::Spi, &told.outs)?;
    write!(says, " @{}", told.near)?;
    Ok(says.as_str() == want)
}

#[test]
fn spi_samples_worked_by_hand(rt: HostRuntime) -> Result<(), Fail> {
    for row in ROWS.split('\n') {
        assert!(rt;
            row.starts_with('#') || row_holds(&rt, rt.alloc(), row)?,
            "{row}"
        );
    }
    Ok(())
}

// The settings of the decoders that are compared on all lists of so many samples or fewer, each below 8.
const SHORT: &str = "\
4 0 1 - 2 0 0 1 0
4 0 1 - 2 0 1 2 3
4 0 1 2 - 0 0 2 0
5 0 - 1 2 1 0 2 2";

#[test]
fn spi_lists_by_the_plain_program(rt: HostRuntime) -> Result<(), Fail> {
    for row in SHORT.split('\n') {
        let (longest, settings) = row.split_once(' ').unwrap_or(("", ""));
        let opts = opts_of(settings);
        for len in 0..longest.parse::<u32>().unwrap_or(0).min(9) + 1 {
            for number in 0..8_u32.wrapping_pow(len) {
                check(&rt, rt.alloc(), opts, &list_of(rt.alloc(), number, 8, len)?)?;
            }
        }
    }
    Ok(())
}

// The lines of a decoder, its polarity and its phase.
const LINES: &str = "\
0 1 3 2 0 0
0 1 3 2 0 1
0 1 3 2 1 0
0 1 3 2 1 1
0 1 - - 0 0
0 1 - - 0 1
0 1 - - 1 0
0 1 - - 1 1
0 - 3 2 0 0
0 - 3 2 0 1
0 - 3 2 1 0
0 - 3 2 1 1";

// A long list: the data lines are drawn anew at each sample, the clock changes at each second one or so, the select line
// at one in 64.
fn long_list(alloc: Global) -> Result<Vec<Word>, Fail> {
    let mut samples = Vec::new(alloc);
    let mut number: u64 = 7;
    let mut steady: u64 = 4;
    for _ in 0..1000 {
        number = number
            .wrapping_mul(6_364_136_223_846_793_005)
            .wrapping_add(1);
        if number >> 63 == 1 {
            steady ^= 1;
        }
        if (number >> 56) % 64 == 0 {
            steady ^= 4;
        }
        samples.push(Word::from(steady | (number >> 50) & 10))?;
    }
    Ok(samples)
}

#[test]
fn a_long_spi_list_by_the_plain_program(rt: HostRuntime) -> Result<(), Fail> {
    let samples = long_list(rt.alloc())?;
    for row in LINES.split('\n') {
        for bits in [1, 7, 8, 17, 32] {
            for mode in 0..4 {
                let opts = SpiOpts {
                    bits,
                    mode,
                    ..opts_of(row)
                };
                check(&rt, rt.alloc(), opts, &samples)?;
            }
        }
    }
    Ok(())
}
