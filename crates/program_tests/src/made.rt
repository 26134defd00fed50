// Made captures through their source, and their laws.
use capture_make::{MadeSource, blocks_are_whole, draw, worked_draws_hold};
use la_io::Source;
use ldecode::made_captures_are_read_back;
use made_laws::{made_buses_tell, made_lines_tell};
use std::alloc::Global;
use std::test::Fail;

// The first samples for seed 7: both lines of the bus are high, SDA falls, and two bits of the address follow, both 1; the
// serial line falls with the eleventh sample.
const FIRST: [u8; 12] = [7, 7, 5, 5, 6, 6, 7, 7, 6, 6, 3, 3];

/// All bytes of a source, read so many at once, at most 500.
pub fn bytes_of(alloc: Global, source: &mut MadeSource, most: usize) -> Result<Vec<u8>, Fail> {
    let mut bytes = Vec::new(alloc);
    let mut buf = [0; 500];
    let most = most.min(500);
    for _ in 0..1_000 {
        match source.read(&mut buf[..most]) {
            Ok(0) => break,
            Ok(count) => bytes.extend_from_slice(&buf[..count.min(500)])?,
            Err(_) => return Err("a made capture failed".into()),
        }
    }
    Ok(bytes)
}

#[test]
fn made_captures_in_any_cut(rt: HostRuntime) -> Result<(), Fail> {
    let alloc = rt.alloc();
    for (number, drawn) in [(1, 108), (2, 78), (3, 116), (4, 146)] {
        assert!(rt; number <= 4 && draw(7, number) == drawn);
    }
    let whole = bytes_of(alloc, &mut MadeSource::new(7, 3), 500)?;
    assert!(rt; whole.len() == 360 && whole.starts_with(&FIRST));
    for most in [1, 7, 119, 120, 121, 359, 360, 361] {
        let bytes = bytes_of(alloc, &mut MadeSource::new(7, 3), most)?;
        assert!(rt; bytes.as_slice() == whole.as_slice(), "{most}");
    }
    blocks_are_whole();
    worked_draws_hold();
    made_buses_tell();
    made_lines_tell();
    made_captures_are_read_back();
    Ok(())
}
