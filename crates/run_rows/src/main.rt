//! Whole runs as data: a row of the files in `data/` says what a run is given and what it has to
//! give. Each row is run in several ways, and those are told that don't hold.
#![tactic(auto)]

mod cuts;
mod drawing;
mod hostile;
mod i2c;
mod onewire;
mod reading;
mod row;
mod running;
mod serial;
mod spi;
mod text;
mod waves;
mod ways;

use anyhow::{Result, ensure};
use hostile::tell_hostile;
use reading::{Found, rows_of};
use running::fault_of;
use std::alloc::Global;
use std::fs;
use std::sync::Wait;
use std::thread::Threads;

// The files of rows.
const FILES: [&str; 21] = [
    "i2c.txt",
    "i2c_bits.txt",
    "i2c_devices.txt",
    "spi_and_serial.txt",
    "serial_devices.txt",
    "silences.txt",
    "onewire.txt",
    "ds18b20.txt",
    "flash.txt",
    "devices.txt",
    "stacks.txt",
    "binary.txt",
    "find.txt",
    "vcd.txt",
    "csv.txt",
    "refused.txt",
    "limits.txt",
    "parts.txt",
    "watched.txt",
    "cuts.txt",
    HOSTILE,
];

// Rows of which words are made that no run wrote.
const HOSTILE: &str = "hostile.txt";

// Rows that don't hold, on purpose: what is told of each is compared, so that a wrong row is seen.
const WRONG: &str = "wrong.txt";

// How many rows there are, and how many of them hold.
#[derive(Clone, Copy)]
struct Tally {
    all: u32,
    held: u32,
}

// Runs the rows of a file's text, and tells those that don't hold.
fn tell_rows<R: Threads + Wait + Sync + Print>(
    rt: &R,
    alloc: Global,
    file: &str,
    text: &str,
) -> Result<Tally> {
    let mut all: u32 = 0;
    let mut held: u32 = 0;
    for found in &rows_of(alloc, text)? {
        let fault = match found {
            Found::Row(row) => fault_of(rt, alloc, row)?,
            Found::Fault(fault) => Some(fault.clone()?),
        };
        all = all.saturating_add(1);
        match fault {
            None => held = held.saturating_add(1),
            Some(fault) => println!(rt; "{file}:{fault}")?,
        }
    }
    println!(rt; "{file}: {held} of {all} rows hold")?;
    Ok(Tally { all, held })
}

// Tells what words come to that are made of the rows of a text, and answers how many come to nothing
// that may be.
fn tell_words<R: Threads + Wait + Sync + Print>(rt: &R, alloc: Global, text: &str) -> Result<u32> {
    let mut wrong: u32 = 0;
    for found in &rows_of(alloc, text)? {
        if let Found::Row(row) = found {
            wrong = wrong.saturating_add(tell_hostile(rt, alloc, row)?);
        }
    }
    Ok(wrong)
}

fn main(rt: HostRuntime) -> Result<()> {
    let mut failed: u32 = 0;
    for file in FILES {
        let text = fs::read_to_string(&rt, file)?;
        let Tally { all, held } = tell_rows(&rt, rt.alloc(), file, text.as_str())?;
        failed = failed.saturating_add(all.saturating_sub(held));
    }
    let text = fs::read_to_string(&rt, HOSTILE)?;
    let wrong = tell_words(&rt, rt.alloc(), text.as_str())?;
    let text = fs::read_to_string(&rt, WRONG)?;
    let Tally { held, .. } = tell_rows(&rt, rt.alloc(), WRONG, text.as_str())?;
    println!(rt; "{failed} rows don't hold that should, and {held} that shouldn't do")?;
    ensure!(
        failed == 0 && held == 0 && wrong == 0,
        "not as it should be"
    );
    Ok(())
}
