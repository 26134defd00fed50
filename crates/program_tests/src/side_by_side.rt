// Decoders that have to run at the same time.
use crate::threads::run_threaded;
use ldecode::Pacer;
use std::sync::atomic::{AtomicBool, AtomicU32, Ordering};
use std::test::Fail;
use std::thread::yield_now;

// Lets none of so many stages go on before all have begun.
#[derive(Drop)]
struct Gate {
    stages: u32,
    begun: AtomicU32,
    waited_out: AtomicBool,
}

impl Pacer for Gate {
    fn turn(&self, _stage: u32, turn: u64) -> u32 {
        if turn == 0 {
            self.begun.fetch_add(1, Ordering::SeqCst);
            for _ in 0..10_000_000u32 {
                if self.begun.load(Ordering::SeqCst) >= self.stages {
                    return 64;
                }
                yield_now();
            }
            self.waited_out.store(true, Ordering::SeqCst);
        }
        64
    }
}

// Decoders of lines that rest, how many there are, and the notice of their run.
const ROWS: [(&str, u32, &str); 4] = [
    ("uart:rx=D0 uart:rx=D1", 2, ""),
    ("uart:rx=D0,midi uart:rx=D1", 3, ""),
    (
        "uart:rx=D0,midi uart:rx=D1,modbus i2c:scl=D0:sda=D1,lm75 uart:rx=D1 uart-1,modbus",
        8,
        "",
    ),
    (
        "--watch yes uart:rx=D0,midi uart:rx=D1",
        3,
        "ldecode: viewer saw 0 notes|",
    ),
];

#[test]
fn decoders_run_side_by_side(rt: HostRuntime) -> Result<(), Fail> {
    let alloc = rt.alloc();
    let high = [3u8; 100];
    for &(words, stages, notice) in &ROWS {
        let gate = Gate {
            stages,
            begun: AtomicU32::new(0),
            waited_out: AtomicBool::new(false),
        };
        let told = run_threaded(&rt, alloc, words, &high, 100, &gate)?;
        let wanted = format!(in alloc; "0 > {notice} > ")?;
        assert!(rt; told.as_str() == wanted.as_str(), "{words}: {told}");
        assert!(rt; gate.begun.load(Ordering::SeqCst) == stages, "{words}");
        assert!(rt; !gate.waited_out.load(Ordering::SeqCst), "{words}");
    }
    Ok(())
}
