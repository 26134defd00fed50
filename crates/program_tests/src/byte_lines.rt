// Lines of a stream and their numbers, by hand.
use crate::rows::source_of;
use byte_feed::{FeedFault, Lines, lines_can_be_cut, lines_extend, lines_hold};
use std::test::Fail;

// What stands before so many bytes in a row, the calls of the source that fail, and what comes of it.
const LONG: [(&[u8], usize, &[u64], Result<Option<u64>, FeedFault>); 6] = [
    (b"\xEF\xBB\xBF", 65_535, &[], Ok(Some(1))),
    (b"\r", 65_535, &[], Ok(Some(1))),
    (
        b"\xEF\xBB\xBF",
        65_536,
        &[],
        Err(FeedFault::TooLong { at: 1 }),
    ),
    (b"\xEF\xBB", 65_534, &[], Err(FeedFault::TooLong { at: 1 })),
    (b"", 65_535, &[2], Err(FeedFault::Read)),
    // what is too long stays so, whatever follows
    (b"", 65_536, &[2], Err(FeedFault::TooLong { at: 1 })),
];

#[test]
fn lines_and_their_numbers(rt: HostRuntime) -> Result<(), Fail> {
    let alloc = rt.alloc();
    for size in 1..9 {
        let bytes = b"\xEF\xBB\r\xBFa,b\r\n\n\xEF\xBB\xBF0\r1";
        let mut source = source_of(alloc, bytes, size, &[])?;
        let mut lines = Lines::new(alloc)?;
        let wants: [(u64, &[u8]); 3] = [(1, b"a,b"), (2, b""), (3, b"\xEF\xBB\xBF01")];
        for (number, text) in wants {
            assert!(rt; lines.next(&mut source) == Ok(Some(number)), "{size}");
            assert!(rt; lines.text() == text);
        }
        assert!(rt; lines.next(&mut source) == Ok(None));
        assert!(rt; lines.next(&mut source) == Ok(None));
    }
    lines_can_be_cut();
    lines_extend();
    lines_hold();
    Ok(())
}

#[test]
fn lines_up_to_the_longest(rt: HostRuntime) -> Result<(), Fail> {
    let alloc = rt.alloc();
    for &(front, count, fails, want) in &LONG {
        let mut bytes = front.to_vec(alloc)?;
        bytes.resize(front.len().min(9) + count.min(70_000), b'b')?;
        let mut source = source_of(alloc, &bytes, 40_000, fails)?;
        let mut lines = Lines::new(alloc)?;
        assert!(rt; lines.next(&mut source) == want, "{count}");
        let then = if want.is_ok() {
            Ok(None)
        } else {
            Err(FeedFault::Spent)
        };
        assert!(rt; lines.next(&mut source) == then, "{count}");
    }
    Ok(())
}

// What is held behind a line is seen without a read, up to a line feed.
#[test]
fn lines_that_are_held_are_seen(rt: HostRuntime) -> Result<(), Fail> {
    let alloc = rt.alloc();
    let mut source = source_of(alloc, b"a\nbc\r\nd\ne", 90, &[1])?;
    let mut lines = Lines::new(alloc)?;
    assert!(rt; lines.ahead(2).is_none());
    assert!(rt; lines.next(&mut source) == Ok(Some(1)));
    assert!(rt; lines.ahead(1).is_none() && lines.ahead(2) == Some(b"bc".as_slice()));
    assert!(rt; lines.next(&mut source) == Ok(Some(2)));
    assert!(rt; lines.next(&mut source) == Ok(Some(3)));
    assert!(rt; lines.text() == b"d".as_slice() && lines.ahead(1).is_none());
    Ok(())
}
