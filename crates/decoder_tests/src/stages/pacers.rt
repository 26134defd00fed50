// A pacer is asked before each turn of a stage.
ghost use Rattle.std.specs.Prelude.{◌≡◌};

use crate::stages::bus::{Marks, Samples, opened};
use decoder_core::RunEnd;
use kind_table::Kind;
use stack_threads::{InThreads, run_stages};
use stage_crew::Pacer;
use std::sync::atomic::{AtomicBool, AtomicU64, Ordering};
use std::test::Fail;

// Counts how often it was asked, and looks whether the turns are counted likewise.
#[derive(Drop)]
struct Asked {
    turns: [AtomicU64; 3],
    in_order: AtomicBool,
}

impl Pacer for Asked {
    fn turn(&self, stage: u32, turn: u64) -> u32 {
        let expected = match self.turns.get(stage as usize) {
            Some(asked) => asked.fetch_add(1, Ordering::SeqCst),
            None => u64::MAX,
        };
        if turn != expected {
            self.in_order.store(false, Ordering::SeqCst);
        }
        64
    }
}

#[test]
fn each_turn_asks(rt: HostRuntime) -> Result<(), Fail> {
    let alloc = rt.alloc();
    let mut machines = Vec::new(alloc);
    machines.push(opened(Kind::I2c, Some(0), Some(1))?)?;
    machines.push(opened(Kind::Eeprom24, None, None)?)?;
    machines.push(opened(Kind::Eeprom24, Some(1), None)?)?;
    let pacer = Asked {
        turns: [AtomicU64::new(0), AtomicU64::new(0), AtomicU64::new(0)],
        in_order: AtomicBool::new(true),
    };
    let mut feed = Samples::new(alloc)?;
    let mut take = Marks::new(alloc, 100_000);
    let parents = [None, Some(0), Some(0)];
    let way = InThreads {
        runtime: &rt,
        alloc,
        slots: 8,
        pacer: &pacer,
    };
    match run_stages(&way, machines, &parents, &mut feed, &mut take) {
        Ok(end) => assert!(rt; end == RunEnd::Ended),
        Err(_) => return Err("no memory".into()),
    }
    assert!(rt; pacer.in_order.load(Ordering::SeqCst));
    for asked in &pacer.turns {
        assert!(rt; asked.load(Ordering::SeqCst) > 0);
    }
    Ok(())
}
