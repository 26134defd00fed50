// I2C beside its reference program.
use super::feeding::{decoded, list_of, runs_of};
use super::feeds::RATE;
use crate::stages::bus::waves_of;
use dec_i2c::{I2c, I2cOpts};
use la_base::Word;
use reference_decoders::i2c::outputs_of;
use std::alloc::Global;
use std::process::Abort;
use std::test::Fail;

// The lines of all samples.
const LINES: I2cOpts = I2cOpts { scl: 0, sda: 1 };

// The decoder gives of samples what the reference program gives.
fn check(rt: &impl Abort, alloc: Global, samples: &[Word]) -> Result<(), Fail> {
    let Ok(machine) = I2c::open(LINES, RATE) else {
        return Err("not opened".into());
    };
    let want = outputs_of(alloc, LINES, samples)?;
    let told = decoded(alloc, machine, &runs_of(alloc, samples, 1)?)?;
    assert!(rt; told.outs.as_slice() == want.as_slice(), "{samples:?}");
    Ok(())
}

// All lists of up to seven samples.
#[test]
fn i2c_lists_by_the_plain_program(rt: HostRuntime) -> Result<(), Fail> {
    for len in 0..8 {
        for number in 0..4_u32.wrapping_pow(len) {
            check(&rt, rt.alloc(), &list_of(rt.alloc(), number, 4, len)?)?;
        }
    }
    Ok(())
}

// Scripts whose notes are rows of `run_rows`: ten-bit addresses, general calls, bytes that are written and read, and a
// START or a STOP wherever one may stand.
const SCRIPTS: &str = "\
S 11110010 0 01010000 0 10101011 0 1S 11110011 0 10101011 1 1S 11110011 0 00000000 1 0P
S 11110010 0 01010000 0 1S 11110101 0 10101011 1 1S 11110011 1 0P
S 11110110 0 01010000 0 0P 1S 11110111 0 10101011 1 0P
S 11110110 0 01010000 0 1S 11110111 0 0P 1S 11110111 1 0P
S 11110000 0 01010000 0 1S 1S 11110001 0 10101011 1 0P
S 11110000 0 01010000 0 1S 10100000 0 1S 11110001 0 10101011 1 0P
S 11110000 0 010100 1S 11110001 0 10101011 1 0P
S 11110000 0 11111111 1S 11110001 S 11110001 0P
S 11110000 0 00000001 0 1S 11110000 0 1S 11110001 0P
S 00000000 0 00000110 0 01000011 0 0P
S 00000001 0 00000110 0 0P
S 11111000 0 00000110 0 0P
S 10100000 0 11000011 0 00111100 1 0P
S 10100001 0 11000011 0 00111100 1 0P
S 11111110 1 0P
S 10100001 1 0P
S 101 1S 10100000 0 0P
S 10100001 0 1100 1S 01010100 0 0P
S 10100000 0 00000111 0 1S 10100001 0 10000000 1 0P
S 10100001 S 10100000 0 0P
S 101 0P 1S 10100000 0 0P
S 10100000 0 1100 0P
S 10100001 0 00110010 P
10100000 0 11000011 1 S 10100000 0
S 10100000 0 0P 10100001 0 11110000 0 0P";

// Each script, and each script that lost one of its samples.
fn check_script(rt: &impl Abort, alloc: Global, script: &str) -> Result<(), Fail> {
    let samples = waves_of(alloc, script)?;
    check(rt, alloc, &samples)?;
    for lost in 0..samples.len() {
        let mut others = Vec::from_slice(alloc, &samples)?;
        others.remove(lost);
        check(rt, alloc, &others)?;
    }
    Ok(())
}

#[test]
fn i2c_scripts_by_the_plain_program(rt: HostRuntime) -> Result<(), Fail> {
    for script in SCRIPTS.split('\n') {
        check_script(&rt, rt.alloc(), script)?;
    }
    Ok(())
}
