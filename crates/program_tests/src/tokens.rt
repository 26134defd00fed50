// Tokens between blanks, by hand.
use crate::rows::source_of;
use byte_feed::{FeedFault, Tokens, tokens_extend};
use std::test::Fail;

// So many bytes in a row, the calls of the source that fail, and what comes of it.
const LONG: [(usize, &[u64], Result<Option<u64>, FeedFault>); 5] = [
    (65_535, &[], Ok(Some(2))),
    (65_536, &[], Err(FeedFault::TooLong { at: 2 })),
    (65_537, &[], Err(FeedFault::TooLong { at: 2 })),
    (65_535, &[3], Err(FeedFault::Read)),
    // what is too long stays so, whatever follows
    (65_536, &[3], Err(FeedFault::TooLong { at: 2 })),
];

#[test]
fn tokens_and_their_places(rt: HostRuntime) -> Result<(), Fail> {
    let alloc = rt.alloc();
    for size in 1..9 {
        let mut source = source_of(alloc, b" \t$end\x0b\x0c1ns\r\n#0", size, &[])?;
        let mut tokens = Tokens::new(alloc)?;
        for (at, text) in [(2, "$end"), (8, "1ns"), (13, "#0")] {
            assert!(rt; tokens.next(&mut source) == Ok(Some(at)), "{size}");
            assert!(rt; tokens.text() == text.as_bytes());
        }
        assert!(rt; tokens.next(&mut source) == Ok(None));
        assert!(rt; tokens.next(&mut source) == Ok(None));
    }
    for &(count, fails, want) in &LONG {
        let mut bytes = b"a ".to_vec(alloc)?;
        bytes.resize(2 + count.min(70_000), b'b')?;
        let mut source = source_of(alloc, &bytes, 40_000, fails)?;
        let mut tokens = Tokens::new(alloc)?;
        assert!(rt; tokens.next(&mut source) == Ok(Some(0)));
        assert!(rt; tokens.next(&mut source) == want, "{count}");
        let then = if want.is_ok() {
            Ok(None)
        } else {
            Err(FeedFault::Spent)
        };
        assert!(rt; tokens.next(&mut source) == then, "{count}");
    }
    tokens_extend();
    Ok(())
}
