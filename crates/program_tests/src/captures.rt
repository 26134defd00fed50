// Captures through the public calls, of the raw reader and of the reader of any form.
ghost use Rattle.std.specs.Prelude.{◌≡◌, ◌≤◌, ◌<◌, ℕ, [], ◌∷◌, codes, length, slice_index};
ghost use Rattle.la_base.specs.declared.samples.Rate.{Rate as ItsRate};
ghost use Rattle.la_base.specs.declared.samples.TheConstants.{MOST_PINS};
ghost use Rattle.la_io.specs.Capture.{AtEnd, Ends, Faulty};
ghost use Rattle.la_io.specs.declared.fault.CaptureFault.TheVariants.{ShortUnit};
ghost use Rattle.capture_raw.specs.Raw.{raw_capture, raw_names};

use crate::rows::{bytes_of, is_send, numbers_of, parts_of, source_of};
use capture_any::{Capture, Form};
use capture_raw::{RawReader, RawStep};
use la_base::{MOST_PINS, Pins, Rate, Word};
use la_io::Failed;
use std::alloc::Global;
use std::process::Abort;
use std::test::Fail;

// More than the runs of any test.
const MANY: u32 = 10_000;

// The sample rate of the tests.
const RATE: Rate = Rate { num: 3, den: 2 };

// A row has how many channels there are, the least and the most bytes of a read that are tried, and the
// number of the call that fails, if one does; between brackets the pins; then the bytes in hexadecimal. The
// raw reader gives these samples or runs, and this answer behind them.

const SAMPLES: &str = "\
# channel 8 is the lowest bit of the second byte
9 1 9 [8] 0000010102 > [0, 1] > Some(Ok(ShortUnit { at: 4 }))
# the pins' order is that of the bits; channel 9 isn't declared
9 1 9 [8, 0] 000101000103 > [1, 2, 3] > Some(Ok(End))
# bits above the channels are ignored
3 1 9 [0, 1, 2] f8ff05 > [0, 7, 5] > Some(Ok(End))
8 1 9 [7, 0, 3] 880180 > [5, 2, 1] > Some(Ok(End))
64 1 9 [63, 0, 40] 0100000000010080 > [7] > Some(Ok(End))
# the highest channel is the highest bit of the sixteenth byte, the lowest one the lowest bit of the first
128 1 17 [127, 0, 64] 00*15 80 01 00*15 00*8 01 00*7 > [1, 2, 4] > Some(Ok(End))
121 1 17 [120, 63, 64, 1] 02 00*6 80 01 00*6 01 0200 > [15] > Some(Ok(ShortUnit { at: 16 }))
# no pins
8 1 9 [] aa5555 > [0, 0, 0] > Some(Ok(End))
8 1 9 [0]  > [] > Some(Ok(End))
16 1 9 [0] 01 > [] > Some(Ok(ShortUnit { at: 0 }))
# unit k has k in its lowest byte and k modulo 2 in its highest
17 1 9 [16, 1, 0] 0000000100010200000300010400000500010600000900 > [0, 5, 2, 7, 0, 5, 2] > Some(Ok(ShortUnit { at: 21 }))";

const RUNS: &str = "\
# units join within a read of five bytes
8 5 5 [0, 1] 00000001010101020203 > [(0, 3), (1, 2), (1, 2), (2, 2), (3, 1)] > Some(Ok(End))
# what no pin picks parts no run
8 1000 1000 [3] 0017f0080f07 > [(0, 3), (1, 2), (0, 1)] > Some(Ok(End))
8 1000 1000 [] 01020304 > [(0, 4)] > Some(Ok(End))
# bit 9 is bit 1 of the second byte
16 1000 1000 [9] 01000201030204ff > [(0, 2), (1, 2)] > Some(Ok(End))
17 1000 1000 [16] 000001090901090900 > [(1, 2), (0, 1)] > Some(Ok(End))
# longer than what is compared at once
16 1000 1000 [0, 8] 07*301 06 > [(3, 150), (1, 1)] > Some(Ok(End))
8 1000 1000 [0] 07*301 06 > [(1, 301), (0, 1)] > Some(Ok(End))
# bit 0 is noise
8 1000 1000 [1] 0302*35 0102 0302*64 > [(1, 70), (0, 1), (1, 129)] > Some(Ok(End))
8 1000 1000 [0]  > [] > Some(Ok(End))
# the third read fails, in the second unit
16 2 2 2 [0, 15] 018001 > [(3, 1)] > Some(Err(Failed))
8 2 2 0 [0]  > [] > Some(Err(Failed))";

// The pins of these channels.
fn chosen(rt: &impl Abort, channels: u32, pins: &[u64]) -> Pins
    ensures { (k : ℕ) → k < length result.items → slice_index result.items k < channels }
{
    let mut chosen = Pins::new();
    for pin in pins {
        assert!(rt; *pin < u64::from(channels) && !chosen.is_full());
        chosen.push(*pin as u32);
    }
    chosen
}

// What the raw reader gives of these bytes, in pieces of `size` and with these calls of the source failing: the value and
// length of each run, each sample by itself, and the answer behind them. It is open behind runs alone.
fn read_raw(
    rt: &impl Abort,
    alloc: Global,
    (channels, pins): (u64, &[u64]),
    bytes: &[u8],
    size: usize,
    fails: &[u64],
) -> Result<(Vec<(Word, u64)>, Vec<Word>, Option<Result<RawStep, Failed>>), Fail> {
    assert!(rt; 1 <= channels && channels <= u64::from(MOST_PINS) && 1 <= size);
    let mut source = source_of(alloc, bytes, size, fails)?;
    let mut reader = RawReader::open(channels as u32, RATE);
    is_send(&reader);
    reader.select(chosen(rt, channels as u32, pins));
    let mut runs = Vec::new(alloc);
    let mut samples = Vec::new(alloc);
    let mut last = None;
    for _ in 0..MANY {
        if !reader.is_open() {
            break;
        }
        match reader.next(&mut source) {
            Ok(RawStep::Run(run)) => {
                runs.push((run.value, run.len))?;
                for _ in 0..run.len {
                    samples.push(run.value)?;
                }
            }
            end => {
                last = Some(end);
                assert!(rt; !reader.is_open());
            }
        }
    }
    Ok((runs, samples, last))
}

// Whether a capture read as raw samples gives what a row says, by its runs or by its samples.
fn read_holds(
    rt: &impl Abort,
    alloc: Global,
    of: (u64, &[u64]),
    bytes: &[u8],
    size: usize,
    fails: &[u64],
    want: &str,
) -> Result<bool, Fail> {
    let (runs, samples, last) = read_raw(rt, alloc, of, bytes, size, fails)?;
    let by_runs = format!(in alloc; "{:?} > {last:?}", runs.as_slice())?;
    let by_samples = format!(in alloc; "{:?} > {last:?}", samples.as_slice())?;
    Ok(by_runs.as_str() == want || by_samples.as_str() == want)
}

// Whether a row holds, with its bytes in pieces of each size that it names.
fn row_holds(rt: &impl Abort, alloc: Global, row: &str) -> Result<bool, Fail> {
    let (numbers, pins, behind) = parts_of(row);
    let (bytes, want) = behind.split_once("> ").unwrap_or(("", ""));
    let bytes = bytes_of(alloc, bytes)?;
    let pins = numbers_of(alloc, pins)?;
    let numbers = numbers_of(alloc, numbers)?;
    let [channels, least, most, fails @ ..] = numbers.as_slice() else {
        return Err("a row has too few numbers".into());
    };
    let of = (*channels, pins.as_slice());
    for size in *least as usize..=*most as usize {
        if !read_holds(rt, alloc, of, &bytes, size, fails, want)? {
            return Ok(false);
        }
    }
    Ok(true)
}

#[test]
fn rows_of_captures(rt: HostRuntime) -> Result<(), Fail> {
    for table in [SAMPLES, RUNS] {
        for row in table.split('\n') {
            assert!(rt;
                row.starts_with('#') || row_holds(&rt, rt.alloc(), row)?,
                "{row}"
            );
        }
    }
    Ok(())
}

// The samples of bytes, unit by unit: bit j of a sample is bit `pins[j]` of the unit, whose lowest byte comes first.
fn plain_samples(
    alloc: Global,
    channels: u64,
    pins: &[u64],
    bytes: &[u8],
) -> Result<Vec<Word>, Fail>
    requires { 1 ≤ channels }
{
    let mut samples = Vec::new(alloc);
    for unit in bytes.chunks_exact(channels.div_ceil(8) as usize) {
        let mut sample = 0;
        for place in 0..MOST_PINS {
            let Some(pin) = pins.get(place as usize) else {
                break;
            };
            let byte = unit.get((*pin / 8) as usize).ok_or("no such channel")?;
            if byte >> (*pin % 8) & 1 == 1 {
                sample |= 1 << place;
            }
        }
        samples.push(sample)?;
    }
    Ok(samples)
}

// Bytes of units whose neighbours differ in noise alone, but for one channel, that changes behind
// stretches of 1, 2, 3 .. units. So changes lie at all places of the blocks that are compared at once.
fn stretches(alloc: Global, channels: u64, noise: Word, most: u32) -> Result<Vec<u8>, Fail>
    requires some { 1 ≤ channels }
    requires few { channels ≤ MOST_PINS }
{
    let unit = channels.div_ceil(8) as usize;
    let mut bytes = Vec::new(alloc);
    let mut random: Word = 1;
    let mut value: Word = 0x1234_5678_9abc_def0_0fed_cba9_8765_4321;
    for len in 1..most {
        value ^= 1 << (channels - 1);
        for _ in 0..len {
            // numbers that look like chance (xorshift)
            random ^= random << 23;
            random ^= random >> 17;
            random ^= random << 52;
            let number = (value ^ (random & noise)).to_le_bytes();
            bytes.extend_from_slice(&number[..unit])?;
        }
    }
    Ok(bytes)
}

// The definition's names, written out; and what it gives for units of two bytes that end inside the third.
fn worked_captures()
    ensures names { raw_names 3 ≡ codes "D0" ∷ codes "D1" ∷ codes "D2" ∷ [] }
    ensures unit { (rate : ItsRate) → Ends (raw_capture 9 rate (8 ∷ []) (0 ∷ 0 ∷ 1 ∷ 1 ∷ 2 ∷ []) AtEnd) (0 ∷ 1 ∷ []) (Faulty (ShortUnit 4)) }
{}

// Reads a capture in pieces of several sizes, with these pins.
fn reads_in_pieces(
    rt: &impl Abort,
    alloc: Global,
    channels: u64,
    pins: &[u64],
    bytes: &[u8],
) -> Result<(), Fail>
    requires { 1 ≤ channels }
{
    let plain = plain_samples(alloc, channels, pins, bytes)?;
    for size in [1, 7, 64, 1000, 100_000] {
        let (_, samples, _) = read_raw(rt, alloc, (channels, pins), bytes, size, &[])?;
        assert!(rt;
            samples.as_slice() == plain.as_slice(),
            "{channels} {pins:?}"
        );
    }
    Ok(())
}

// With each choice of pins.
fn reads_by_pins(rt: &impl Abort, alloc: Global, channels: u64, bytes: &[u8]) -> Result<(), Fail>
    requires { 1 ≤ channels }
{
    let high = channels - 1;
    let lists: [&[u64]; 6] = [&[], &[0], &[high], &[0, high], &[high, 0], &[channels / 2]];
    for pins in lists {
        reads_in_pieces(rt, alloc, channels, pins, bytes)?;
    }
    Ok(())
}

#[test]
fn samples_of_a_raw_capture(rt: HostRuntime) -> Result<(), Fail> {
    let alloc = rt.alloc();
    for channels in [1, 8, 9, 16, 17, 24, 32, 40, 63, 64, 65, 127, 128] {
        assert!(rt; 1 <= channels && channels <= u64::from(MOST_PINS));
        // no noise, the lowest bit of each byte, the highest one, all
        for (noise, most) in [
            (0, 70),
            (0x0101_0101_0101_0101_0101_0101_0101_0101, 35),
            (0x8080_8080_8080_8080_8080_8080_8080_8080, 35),
            (Word::MAX, 5),
        ] {
            let bytes = stretches(alloc, channels, noise, most)?;
            reads_by_pins(&rt, alloc, channels, &bytes)?;
        }
    }
    Ok(())
}

#[test]
fn head_of_a_raw_capture(rt: HostRuntime) -> Result<(), Fail> {
    let alloc = rt.alloc();
    // names, rate, and no read
    let mut source = source_of(alloc, &[], 1, &[0])?;
    let form = Form::Raw {
        channels: 12,
        rate: RATE,
    };
    let capture = Capture::open(alloc, form, &mut source)?;
    is_send(&capture);
    let names = capture.names();
    assert!(rt; names.count() == 12 && capture.rate() == RATE && capture.is_open());
    for (name, channel) in [
        ("D0", Some(0)),
        ("D11", Some(11)),
        ("D12", None),
        ("d1", None),
    ] {
        assert!(rt; names.find(name.as_bytes()) == channel, "{name}");
    }
    Ok(())
}

#[test]
fn laws_of_captures() {
    worked_captures();
    capture_raw::longer_extends();
    capture_raw::fault_stays();
    capture_raw::stands_fixes();
    capture_raw::given_is_front();
    capture_raw::samples_are_levels();
    capture_any::longer_extends();
    capture_any::fault_stays();
    capture_any::head_stays();
    capture_any::pins_leave_the_head();
    capture_any::given_is_front();
}
