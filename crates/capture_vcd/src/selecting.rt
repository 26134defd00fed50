// Channels of a file, as those that are selected.
ghost use Rattle.std.specs.Prelude.{◌≡◌, ◌≤◌, length, map};
ghost use Rattle.capture_vcd.specs.Slots.{slot_at};

use crate::place::Place;
use crate::slots::Slot;
use arrayvec::ArrayVec;
use la_base::MOST_PINS;

/// How many channels can be selected.
pub const PLACES: usize = MOST_PINS as usize;

// A channel of the file, low. `none` is the number of no variable.
fn slot_at(places: &[Place], none: usize, pin: usize) -> Slot
    ensures { result ≡ slot_at places.now none pin }
{
    match places.get(pin) {
        Some(place) => Slot {
            variable: place.variable,
            bit: place.bit,
            level: false,
            value: false,
        },
        None => Slot {
            variable: none,
            bit: 0,
            level: false,
            value: false,
        },
    }
}

/// The channels that are selected, all low. `none` is the number of no variable.
pub fn slots_of(places: &[Place], none: usize, pins: &[u32]) -> ArrayVec<Slot, PLACES>
    requires { length pins.now ≤ PLACES }
    ensures { result.items ≡ map (slot_at places.now none) pins.now }
{
    let mut slots = ArrayVec::new();
    for pin in pins {
        slots.push(slot_at(places, none, *pin as usize));
    }
    slots
}
