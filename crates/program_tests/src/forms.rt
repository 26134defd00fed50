// Made captures in each form, for tests of how they are read.
use capture_make::MadeSource;
use la_io::Source;
use std::alloc::{AllocError, Global};

/// A form of a capture: raw samples, a dump of changes, a table of samples, and one of changes with their times.
#[derive(Clone, Copy)]
pub enum Form {
    Raw,
    Dump,
    Rows,
    Times,
}

// What is said of the three channels where they have these levels, in a dump.
const CHANGES: [&str; 8] = [
    "0!\n0%\n0&\n",
    "1!\n0%\n0&\n",
    "0!\n1%\n0&\n",
    "1!\n1%\n0&\n",
    "0!\n0%\n1&\n",
    "1!\n0%\n1&\n",
    "0!\n1%\n1&\n",
    "1!\n1%\n1&\n",
];

// And in a table.
const FIELDS: [&str; 8] = [
    "0,0,0\n", "1,0,0\n", "0,1,0\n", "1,1,0\n", "0,0,1\n", "1,0,1\n", "0,1,1\n", "1,1,1\n",
];

const SIGNALS: &str = "\
$timescale 1 us $end
$var wire 1 ! D0 $end
$var wire 1 % D1 $end
$var wire 1 & D2 $end
$enddefinitions $end
";

// What stands before the samples.
fn heading(form: Form) -> &'static str {
    match form {
        Form::Raw => "",
        Form::Dump => SIGNALS,
        Form::Rows => "D0,D1,D2\n",
        Form::Times => "Time,D0,D1,D2\n",
    }
}

// Appends a sample, where the form has it: one that differs from the sample before it, or each.
fn append(
    alloc: Global,
    form: Form,
    place: u64,
    before: u8,
    sample: u8,
    capture: &mut Vec<u8>,
) -> Result<(), AllocError> {
    let levels = (sample % 8) as usize;
    let line = match form {
        Form::Raw => {
            capture.push(sample)?;
            return Ok(());
        }
        Form::Rows => format!(in alloc; "{}", FIELDS[levels])?,
        Form::Dump | Form::Times if sample == before => return Ok(()),
        Form::Dump => format!(in alloc; "#{place}\n{}", CHANGES[levels])?,
        Form::Times => format!(in alloc; "{place},{}", FIELDS[levels])?,
    };
    capture.extend_from_slice(line.as_bytes())?;
    Ok(())
}

/// So many made transactions of a bus on D0 and D1 and a serial line on D2. A time counts seconds.
pub fn made_in(alloc: Global, form: Form, transactions: u64) -> Result<Vec<u8>, AllocError> {
    let mut source = MadeSource::new(7, transactions);
    let mut capture = heading(form).as_bytes().to_vec(alloc)?;
    let mut samples = [0u8; 120];
    let mut before = 255u8;
    let mut place: u64 = 0;
    for _ in 0..transactions {
        let Ok(count) = source.read(&mut samples) else {
            return Ok(capture);
        };
        for &sample in &samples[..count] {
            append(alloc, form, place, before, sample, &mut capture)?;
            before = sample;
            place = place.saturating_add(1);
        }
    }
    Ok(capture)
}
