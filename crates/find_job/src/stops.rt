// The lines of the stops in a run.
ghost use Rattle.std.specs.Prelude.{◌≡◌, ◌≢◌, ◌+◌, ◌≤◌, ◌^◌, OnOk, length};
ghost use Rattle.la_base.specs.Samples.{samples};
ghost use Rattle.la_io.specs.Causes.{HasCause};
ghost use Rattle.la_base.specs.Runs.{samples_of};
ghost use Rattle.wait_cond.specs.Conds.{IsExact};
ghost use Rattle.wait_cond.specs.Waiting.{alts_of, consumed_by};
ghost use Rattle.find_job.specs.Stopping.{WritesStops};

use la_base::Run;
use la_io::{Failed, Sink};
use listing_out::StopLine;
use wait_cond::{Scan, Waiter};

// Writes the line of each stop in a run that may have one.
#[inline(always)]
fn write_stops<K: Sink>(
    waiter: &mut Waiter,
    run: Run,
    line: &mut StopLine,
    sink: &mut K,
) -> Result<(), Failed>
    requires { consumed_by waiter.old + run.len ≤ 2 ^ 60 }
    ensures written { WritesStops waiter.old waiter.new (samples run) (K.written sink.old)
        (K.written sink.new) result }
    ensures consumed { OnOk result (consumed_by waiter.new ≡ consumed_by waiter.old + run.len) }
    ensures alts { alts_of waiter.new ≡ alts_of waiter.old }
    ensures cause { HasCause (K.faults sink.old) (K.faults sink.new) result }
    ensures goes_on { K.goes_on sink.old sink.new }
{
    let mut left = run;
    loop {
        match waiter.scan(left) {
            Scan::Met { at, met, rest, .. } => {
                match line.write(sink, at, met) {
                    Ok(()) => {}
                    Err(Failed) => return Err(Failed),
                }
                match rest {
                    None => return Ok(()),
                    Some(more) => {
                        if waiter.rests(more) {
                            waiter.pass(more);
                            return Ok(());
                        }
                        left = more;
                    }
                }
            }
            Scan::Through => return Ok(()),
        }
    }
}

// Writes the line of each stop in a run. `Failed` comes where the sink failed.
#[inline(always)]
fn write_run<K: Sink>(
    waiter: &mut Waiter,
    run: Run,
    line: &mut StopLine,
    sink: &mut K,
) -> Result<(), Failed>
    requires { consumed_by waiter.old + run.len ≤ 2 ^ 60 }
    ensures written { WritesStops waiter.old waiter.new (samples run) (K.written sink.old)
        (K.written sink.new) result }
    ensures consumed { OnOk result (consumed_by waiter.new ≡ consumed_by waiter.old + run.len) }
    ensures alts { alts_of waiter.new ≡ alts_of waiter.old }
    ensures cause { HasCause (K.faults sink.old) (K.faults sink.new) result }
    ensures goes_on { K.goes_on sink.old sink.new }
{
    if waiter.passes(run) {
        waiter.pass(run);
        return Ok(());
    }
    write_stops(waiter, run, line, sink)
}

// Writes the line of each stop in runs by the masks of what is waited for. It isn't inlined, so
// that the walk has its registers.
#[inline(never)]
fn write_exact<K: Sink>(
    waiter: &mut Waiter,
    runs: &[Run],
    line: &mut StopLine,
    sink: &mut K,
) -> Result<(), Failed>
    requires room { consumed_by waiter.old + length (samples_of runs.now) ≤ 2 ^ 60 }
    requires exact { IsExact (alts_of waiter.old) }
    requires some { consumed_by waiter.old ≢ 0 }
    ensures written { WritesStops waiter.old waiter.new (samples_of runs.now) (K.written sink.old)
        (K.written sink.new) result }
    ensures consumed { OnOk result
        (consumed_by waiter.new ≡ consumed_by waiter.old + length (samples_of runs.now)) }
    ensures alts { alts_of waiter.new ≡ alts_of waiter.old }
    ensures cause { HasCause (K.faults sink.old) (K.faults sink.new) result }
    ensures goes_on { K.goes_on sink.old sink.new }
{
    let pair = waiter.pair();
    let mut walk = waiter.walk();
    for run in runs {
        let met = pair.met(walk.last(), run.value);
        if met == 0 {
            walk.pass(*run);
        } else {
            let at = walk.consumed();
            walk.stop(*run);
            match line.write(sink, at, met) {
                Ok(()) => {}
                Err(Failed) => return Err(Failed),
            }
        }
    }
    waiter.put(walk);
    Ok(())
}

/// Writes the line of each stop in runs. `Failed` comes where the sink failed.
pub fn write_runs<K: Sink>(
    waiter: &mut Waiter,
    runs: &[Run],
    line: &mut StopLine,
    sink: &mut K,
) -> Result<(), Failed>
    requires { consumed_by waiter.old + length (samples_of runs.now) ≤ 2 ^ 60 }
    ensures written { WritesStops waiter.old waiter.new (samples_of runs.now) (K.written sink.old)
        (K.written sink.new) result }
    ensures consumed { OnOk result
        (consumed_by waiter.new ≡ consumed_by waiter.old + length (samples_of runs.now)) }
    ensures alts { alts_of waiter.new ≡ alts_of waiter.old }
    ensures cause { HasCause (K.faults sink.old) (K.faults sink.new) result }
    ensures goes_on { K.goes_on sink.old sink.new }
{
    let mut at = 0;
    while at < runs.len() {
        if waiter.is_exact() {
            return write_exact(waiter, &runs[at..], line, sink);
        }
        match write_run(waiter, runs[at], line, sink) {
            Ok(()) => at += 1,
            Err(Failed) => return Err(Failed),
        }
    }
    Ok(())
}
