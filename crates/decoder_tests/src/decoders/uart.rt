// Serial lines by hand, and beside their reference program.
ghost use Rattle.std.specs.Prelude.{◌≤◌, ◌^◌};

use super::feeding::{Told, decoded, list_of, runs_of};
use super::feeds::said;
use dec_uart::{Line, Uart, UartOpts};
use kind_table::Kind;
use la_base::{Out, Rate, Word};
use reference_decoders::uart::{near_of, outputs_of};
use std::alloc::{AllocError, Global};
use std::process::Abort;
use std::test::Fail;

const KILOHERTZ: Rate = Rate { num: 1000, den: 1 };

// Samples in which line 0 has a level and the other lines are high.
const HIGH: Word = Word::MAX;

const LOW: Word = Word::MAX - 1;

// Line 0, read in the middle of a bit.
const LINE: UartOpts = UartOpts {
    rx: 0,
    baud: 1,
    bits: 8,
    parity: 0,
    stop: 1,
    sp: 50,
};

// What the decoder gives of samples in runs of at most so many.
fn given(
    alloc: Global,
    opts: UartOpts,
    rate: Rate,
    samples: &[Word],
    most: u64,
) -> Result<Told, Fail>
    requires { rate.num ≤ 10 ^ 15 }
{
    match Uart::open(opts, rate) {
        Ok(machine) => Ok(decoded(alloc, machine, &runs_of(alloc, samples, most)?)?),
        Err(_) => Err("not opened".into()),
    }
}

// What the reference program gives of them.
fn wanted(alloc: Global, opts: UartOpts, rate: Rate, samples: &[Word]) -> Result<Told, Fail>
    requires { rate.num ≤ 10 ^ 15 }
{
    match Uart::open(opts, rate) {
        Ok(_) => {
            let line = Line { opts, rate };
            Ok(Told {
                outs: outputs_of(alloc, line, samples)?,
                near: near_of(alloc, line, samples)?,
            })
        }
        Err(_) => Err("not opened".into()),
    }
}

// What the reference program gives of samples, which has to be what the decoder gives, however they are cut into runs.
fn check(
    rt: &impl Abort,
    alloc: Global,
    opts: UartOpts,
    rate: Rate,
    samples: &[Word],
) -> Result<Told, Fail>
    requires { rate.num ≤ 10 ^ 15 }
{
    let want = wanted(alloc, opts, rate, samples)?;
    for most in [1, 3, u64::MAX] {
        let told = given(alloc, opts, rate, samples, most)?;
        assert!(rt; told.outs.as_slice() == want.outs.as_slice() && told.near == want.near);
    }
    Ok(want)
}

// Lines at 1,000 samples a second, one in each row: bits a second, data bits, parity, stop bits, and how many samples
// each letter is; between the brackets the levels; and what they say. The letter A has two ones, the first data bit and
// the seventh.
const ROWS: &str = "\
9 8 0 1 1 [] @0
# bits of three and of four samples
300 8 0 1 1 [1111 000 111 00000000000000000 111 0000 111111] 4-35 41; 4-35 .0 41; 4-35 #F 41/0; @40
# frames without a one under odd parity, the second without its stop bit: it may become a break, and does
250 8 1 1 2 [1 00000000000000000000 11 000000000000000000000000000] 2-44 00; 2-44 Parity error; 2-44 .0 00; 2-44 #F 0/1; 46-88 00; 46-88 Parity error; 46-88 Frame error; 46-88 .0 00; 46-88 #F 0/3; @46
250 8 1 1 2 [1 00000000000000000000 11 000000000000000000000000000 1] 2-44 00; 2-44 Parity error; 2-44 .0 00; 2-44 #F 0/1; 46-88 00; 46-88 Parity error; 46-88 Frame error; 46-88 .0 00; 46-88 #F 0/3; 46-100 Break; 46-100 #B 0/0; @102
# shorter than half a bit, and long enough to be a start bit
100 8 0 1 1 [11 00 11111111111111111] 2-7 False start; @21
100 8 0 1 1 [11 00000 1] 2-7 False start; @8
100 8 0 1 1 [11 00000] @2
100 8 0 1 1 [11 000000 1111111] @2
# behind a false start the line may fall within what would have been the frame
100 8 0 1 1 [11 000 111 00 11111111] 2-7 False start; 8-13 False start; @18
# low for a sample less than a frame has, and for as many
250 5 0 1 1 [1111 000000000000000000000000000 111] 4-30 00; 4-30 Frame error; 4-30 .0 00; 4-30 #F 0/2; @34
250 5 0 1 1 [1111 0000000000000000000000000000 111] 4-30 00; 4-30 Frame error; 4-30 .0 00; 4-30 #F 0/2; 4-32 Break; 4-32 #B 0/0; @35
# a stop bit that is high, and one that is low
250 8 0 1 4 [1 0 10000010 1] 4-42 41; 4-42 .0 41; 4-42 #F 41/0; @44
250 8 0 1 4 [1 0 10000010 0] 4-42 41; 4-42 Frame error; 4-42 .0 41; 4-42 #F 41/2; @44
# odd, even, always zero, always one
250 8 1 1 4 [1 0 10000010 1 1] 4-46 41; 4-46 .0 41; 4-46 #F 41/0; @48
250 8 1 1 4 [1 0 10000010 0 1] 4-46 41; 4-46 Parity error; 4-46 .0 41; 4-46 #F 41/1; @48
250 8 2 1 4 [1 0 10000010 0 1] 4-46 41; 4-46 .0 41; 4-46 #F 41/0; @48
250 8 2 1 4 [1 0 10000010 1 1] 4-46 41; 4-46 Parity error; 4-46 .0 41; 4-46 #F 41/1; @48
250 8 3 1 4 [1 0 10000010 0 1] 4-46 41; 4-46 .0 41; 4-46 #F 41/0; @48
250 8 3 1 4 [1 0 10000010 1 1] 4-46 41; 4-46 Parity error; 4-46 .0 41; 4-46 #F 41/1; @48
250 8 4 1 4 [1 0 10000010 1 1] 4-46 41; 4-46 .0 41; 4-46 #F 41/0; @48
250 8 4 1 4 [1 0 10000010 0 1] 4-46 41; 4-46 Parity error; 4-46 .0 41; 4-46 #F 41/1; @48
250 8 1 1 4 [1 0 00000000 1 1] 4-46 00; 4-46 .0 00; 4-46 #F 0/0; @48
250 8 2 1 4 [1 0 00000000 0 1] 4-46 00; 4-46 .0 00; 4-46 #F 0/0; @48
250 8 2 1 4 [1 0 10000000 1 1] 4-46 01; 4-46 .0 01; 4-46 #F 1/0; @48
250 8 1 1 4 [1 0 10000010 0 0] 4-46 41; 4-46 Parity error; 4-46 Frame error; 4-46 .0 41; 4-46 #F 41/3; @48
# two stop bits
250 8 0 2 4 [1 0 10000010 11] 4-46 41; 4-46 .0 41; 4-46 #F 41/0; @48
250 8 0 2 4 [1 0 10000010 10] 4-46 41; 4-46 Frame error; 4-46 .0 41; 4-46 #F 41/2; @48
250 8 0 2 4 [1 0 10000010 01] 4-46 41; 4-46 Frame error; 4-46 .0 41; 4-46 #F 41/2; @48
# nine data bits, seven and five
250 9 0 1 4 [1 0 100000101 1] 4-46 141; 4-46 .0 01; 4-46 .0 41; 4-46 #F 141/0; @48
250 9 2 2 4 [1 0 111111111 1 11] 4-54 1FF; 4-54 .0 01; 4-54 .0 FF; 4-54 #F 1FF/0; @56
250 7 2 1 4 [1 0 1000001 0 1] 4-42 41; 4-42 .0 41; 4-42 #F 41/0; @44
250 5 0 1 4 [1 0 10101 1] 4-30 15; 4-30 .0 15; 4-30 #F 15/0; @32
# no pause between two frames; and the line has to fall again behind a stop bit that is low
250 8 0 1 4 [1 0 10000010 1 0 01000001 1] 4-42 41; 4-42 .0 41; 4-42 #F 41/0; 44-82 82; 44-82 .0 82; 44-82 #F 82/0; @84
250 8 0 1 4 [1 0 10000010 0 01 0 01000001 1] 4-42 41; 4-42 Frame error; 4-42 .0 41; 4-42 #F 41/2; 52-90 82; 52-90 .0 82; 52-90 #F 82/0; @92
# the last bit isn't read yet
250 8 0 1 4 [1 0 10000010] @4";

// The samples of levels, so many of each.
fn levels_of(alloc: Global, wave: &str, times: u64) -> Result<Vec<Word>, AllocError> {
    let mut samples = Vec::new(alloc);
    for letter in wave.bytes() {
        if letter != b' ' {
            for _ in 0..times {
                samples.push(if letter == b'1' { HIGH } else { LOW })?;
            }
        }
    }
    Ok(samples)
}

// The settings of a line, and how many samples each of its levels is.
fn line_of(settings: &str) -> (UartOpts, u64) {
    let mut words = settings.split(' ');
    let opts = UartOpts {
        baud: words.next().unwrap_or("").parse().unwrap_or(0),
        bits: words.next().unwrap_or("").parse().unwrap_or(0),
        parity: words.next().unwrap_or("").parse().unwrap_or(0),
        stop: words.next().unwrap_or("").parse().unwrap_or(0),
        ..LINE
    };
    (opts, words.next().unwrap_or("").parse().unwrap_or(0))
}

// Whether a line says what its row tells.
fn row_holds(rt: &impl Abort, alloc: Global, row: &str) -> Result<bool, Fail> {
    let (settings, rest) = row.split_once('[').unwrap_or(("", ""));
    let (wave, want) = rest.split_once(']').unwrap_or(("", "?"));
    let (opts, times) = line_of(settings);
    let samples = levels_of(alloc, wave, times)?;
    let told = check(rt, alloc, opts, KILOHERTZ, &samples)?;
    let mut says = said(alloc, Kind::Uart, &told.outs)?;
    write!(says, " @{}", told.near)?;
    Ok(says.as_str() == want)
}

#[test]
fn lines_worked_by_hand(rt: HostRuntime) -> Result<(), Fail> {
    for row in ROWS.split('\n') {
        assert!(rt;
            row.starts_with('#') || row_holds(&rt, rt.alloc(), row)?,
            "{row}"
        );
    }
    Ok(())
}

// A sample a bit and a little more, and three samples for two bits.
const ONE: Rate = Rate { num: 102, den: 100 };

const THREE_FOR_TWO: Rate = Rate { num: 3, den: 2 };

// The list of so many levels that has a number.
fn list_of_levels(alloc: Global, number: u32, count: u32) -> Result<Vec<Word>, AllocError> {
    let mut samples = list_of(alloc, number, 2, count)?;
    for sample in &mut samples {
        *sample |= LOW;
    }
    Ok(samples)
}

// All lists of up to twelve levels.
#[test]
fn lists_of_levels_by_the_plain_program(rt: HostRuntime) -> Result<(), Fail> {
    for (rate, sp, parity, stop) in [(ONE, 99, 0, 1), (ONE, 99, 1, 2), (THREE_FOR_TWO, 67, 0, 1)] {
        let opts = UartOpts {
            bits: 5,
            parity,
            stop,
            sp,
            ..LINE
        };
        for count in 0..13 {
            for number in 0..2_u32.wrapping_pow(count) {
                let samples = list_of_levels(rt.alloc(), number, count)?;
                check(&rt, rt.alloc(), opts, rate, &samples)?;
            }
        }
    }
    Ok(())
}

// A long list, whose levels stand for up to two bits of four samples, and at times for a frame and more: numbers that
// look like chance, from a seed.
fn long_list(alloc: Global, seed: u32) -> Result<Vec<Word>, AllocError> {
    let mut samples = Vec::new(alloc);
    let mut number = seed;
    for place in 0..60 {
        number = number.wrapping_mul(1_103_515_245).wrapping_add(12345);
        let most = if number & 7 == 0 { 63 } else { 7 };
        for _ in 0..(number >> 16) & most {
            samples.push(if place % 2 == 0 { HIGH } else { LOW })?;
        }
    }
    Ok(samples)
}

// The classes of the notes among outputs, each as a bit.
fn classes_of(outs: &[Out]) -> u64 {
    let mut classes = 0;
    for out in outs {
        if let Out::Note(note) = out {
            classes |= 1 << note.class.min(5);
        }
    }
    classes
}

#[test]
fn long_lists_of_levels_by_the_plain_program(rt: HostRuntime) -> Result<(), Fail> {
    let mut seen: u64 = 0;
    for seed in 0..75_u32 {
        let (rate, baud, stop, sp) = match seed / 25 {
            0 => (KILOHERTZ, 300, 1, 50),
            1 => (KILOHERTZ, 300, 2, 34),
            _ => (THREE_FOR_TWO, 1, 1, 67),
        };
        let opts = UartOpts {
            baud,
            bits: u64::from(5 + seed % 5),
            parity: u64::from(seed / 5 % 5),
            stop,
            sp,
            ..LINE
        };
        let samples = long_list(rt.alloc(), seed)?;
        seen |= classes_of(&check(&rt, rt.alloc(), opts, rate, &samples)?.outs);
    }
    // each class came
    assert!(rt; seen == 31);
    Ok(())
}
