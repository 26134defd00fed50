// Bytes taken until a unit is held.
ghost use Rattle.std.specs.Prelude.{◌≡◌, ◌<◌, ◌≤◌, ◌^◌, length};
ghost use Rattle.la_io.specs.Causes.{HasCause};
ghost use Rattle.capture_raw.specs.Filling.{Fills, outcome};

use crate::filled::Filled;
use la_io::{Intake, MOST_BYTES, Source};

/// How many bytes there is room for.
pub const ROOM: usize = 32_768;

/// Takes bytes until a unit is held; none where one is held already.
#[inline(always)]
pub fn fill<S: Source>(held: &mut Intake<ROOM>, unit: usize, source: &mut S) -> Filled
    requires { unit ≤ ROOM }
    ensures fills { Fills unit held.old held.new (S.left source.old) (S.left source.new) result }
    ensures few { held.new.taken ≤ 2 ^ 60 }
    ensures held { length held.new.bytes ≤ held.new.taken }
    ensures prompt { unit ≤ length held.old.bytes → source.new ≡ source.old }
    ensures cause { HasCause (S.faults source.old) (S.faults source.new) (outcome result) }
{
    if held.bytes().len() >= unit {
        return Filled::Unit;
    }
    read_on(held, unit, source)
}

// The same by at least one read. It isn't inlined, since mostly a unit is held.
#[inline(never)]
fn read_on<S: Source>(held: &mut Intake<ROOM>, unit: usize, source: &mut S) -> Filled
    requires few { unit ≤ ROOM }
    requires short { length held.old.bytes < unit }
    ensures fills { Fills unit held.old held.new (S.left source.old) (S.left source.new) result }
    ensures few { held.new.taken ≤ 2 ^ 60 }
    ensures held { length held.new.bytes ≤ held.new.taken }
    ensures cause { HasCause (S.faults source.old) (S.faults source.new) (outcome result) }
{
    while held.bytes().len() < unit {
        if held.taken() >= MOST_BYTES {
            return Filled::Full;
        }
        match held.more(source) {
            Ok(0) => return Filled::End,
            Ok(_) => {}
            Err(_) => return Filled::Failed,
        }
    }
    Filled::Unit
}
