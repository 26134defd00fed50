// The definition of stops, computed.
ghost use Rattle.std.specs.Prelude.{◌≡◌, ◌≤◌, ◌^◌, length, IfOk};
ghost use Rattle.la_base.specs.Samples.{before_of};
ghost use Rattle.wait_cond.specs.Stops.{AreStops};

use crate::Alt;
use crate::met::met_set;
use la_base::{NoMemory, Word};
use std::alloc::Global;

// The sample before place `at`, if there is one.
fn before(samples: &[Word], at: usize) -> Option<Word>
    requires { at ≤ length samples.now }
    ensures { result ≡ before_of samples.now at }
{
    if at == 0 {
        return None;
    }
    Some(samples[at - 1])
}

/// All stops of a list of samples, from the first wait to the last: for each its place, counted
/// from 0, and the set of the alternatives that are met there, bit i for alternative i. It is the
/// definition of stops, computed sample by sample: for small inputs, and to compare `Waiter::scan`
/// with.
pub fn all_stops(alloc: Global, alts: &[Alt], samples: &[Word]) -> Result<Vec<(u64, u8)>, NoMemory>
    requires few { length alts.now ≤ 8 }
    requires early { length samples.now ≤ 2 ^ 60 }
    ensures { IfOk result (λ stops. AreStops samples.now alts.now stops.items) }
{
    let mut stops = Vec::new(alloc);
    let mut from = 0;
    for at in 0..samples.len() {
        let met = met_set(alts, before(samples, at), samples[at], from, at as u64);
        if met != 0 {
            stops.push((at as u64, met))?;
            from = at as u64 + 1;
        }
    }
    Ok(stops)
}
