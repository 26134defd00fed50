// Checkpoints that no run shows: a word without digits, and what a refusal leaves.
use check_point::{CheckFault, CheckWhy, a_word_is_one_check, read_check, write_check};
use decoder_core::{Machine, Outs};
use decoder_set::AnyDecoder;
use kind_table::Kind;
use la_base::{Feed, Run};
use la_io::MemSink;
use std::alloc::Global;
use std::test::Fail;

// The place of I2C in the table of kinds.
const KINDS: [u8; 2] = [0, 0];

// A decoder of I2C that has consumed two samples, or nothing.
fn opened(fed: bool) -> Result<AnyDecoder, Fail> {
    let mut decoder = crate::stages::bus::opened(Kind::I2c, Some(0), Some(1))?;
    if fed {
        decoder.step(Feed::Run(Run { value: 3, len: 2 }), &mut Outs::new());
    }
    Ok(decoder)
}

// The line of the checkpoint of two decoders of I2C behind two samples.
fn line_of(alloc: Global, machines: &[AnyDecoder; 2]) -> Result<Vec<u8>, Fail> {
    let mut sink = MemSink::new(alloc, 7, Vec::new(alloc), 4200)?;
    match write_check(&mut sink, 2, machines, &KINDS) {
        Ok(()) => Ok(sink.written().to_vec(alloc)?),
        Err(_) => Err("not written".into()),
    }
}

// Of two, the second of which has consumed nothing and yet saw a sample.
const MISFIT: &str = "01000000000000000002002100000000000000000000000000000000000000000000000000\
00000000000000000021000000000000000000000000000000000000000000000000000000000000000100";

#[test]
fn a_word_fits_up_to_the_first_misfit(rt: HostRuntime) -> Result<(), Fail> {
    let alloc = rt.alloc();
    a_word_is_one_check();
    let mut pair = [opened(true)?, opened(true)?];
    let form = CheckFault {
        instance: 0,
        why: CheckWhy::Form,
    };
    assert!(rt; read_check("", &mut pair, &KINDS) == Err(form));
    assert!(rt; line_of(alloc, &pair)? == line_of(alloc, &[opened(true)?, opened(true)?])?);
    let fault = CheckFault {
        instance: 1,
        why: CheckWhy::Fit,
    };
    assert!(rt; read_check(MISFIT, &mut pair, &KINDS) == Err(fault));
    // the first was loaded, and the second is as before
    assert!(rt; line_of(alloc, &pair)? == line_of(alloc, &[opened(false)?, opened(true)?])?);
    Ok(())
}
