// The bits of a variable: their names and places.
ghost use Rattle.std.specs.Prelude.{◌≡◌, ◌+◌, ◌≤◌, ◌++◌, codes, length, map, IfOk, OnOk};
ghost use Rattle.std.specs.Fmt.{decimal};
ghost use Rattle.capture_vcd.specs.Header.{bit_names};
ghost use Rattle.capture_vcd.specs.Gathered.{names_by, placed};
ghost use Rattle.capture_vcd.specs.Places.{places_of};

use crate::place::Place;
use crate::section::{Word, joined};
use la_base::{Names, NoMemory};
use line_text::LineBuf;
use std::alloc::Global;

// The name of a bit of a vector.
fn bit_name(alloc: Global, reference: &[u8], bit: u64) -> Result<Vec<u8>, NoMemory>
    ensures { IfOk result (λ name. name.items ≡ reference.now ++ codes "." ++ decimal bit) }
{
    let mut digits = LineBuf::new();
    digits.push_bytes(b".");
    digits.push_dec(bit);
    let mut name = reference.to_vec(alloc)?;
    name.extend_from_slice(digits.bytes())?;
    Ok(name)
}

// Adds the names of so many bits.
fn push_bits(alloc: Global, names: &mut Names, reference: &[u8], width: u64) -> Result<(), NoMemory>
    requires { length names.old + width ≤ 4096 }
    ensures { OnOk result (names.new ≡ names.old ++ bit_names reference.now width) }
{
    for bit in 0..width {
        names.push(&bit_name(alloc, reference, bit)?)?;
    }
    Ok(())
}

/// Adds the names of the channels that the words of a `$var` declare.
pub fn push_names(
    alloc: Global,
    names: &mut Names,
    words: &[Word],
    width: u64,
) -> Result<(), NoMemory>
    requires words { 4 ≤ length words.now }
    requires some { 1 ≤ width }
    requires few { length names.old + width ≤ 4096 }
    ensures { OnOk result (names.new ≡ names.old ++ names_by width (map placed words.now)) }
{
    if width == 1 {
        return names.push(&joined(alloc, &words[3..])?);
    }
    push_bits(alloc, names, &words[3].text, width)
}

/// Adds the places of so many bits of a variable.
pub fn push_places(places: &mut Vec<Place>, variable: usize, width: u64) -> Result<(), NoMemory>
    requires { width ≤ 4096 }
    ensures { OnOk result (places.new.items ≡ places.old.items ++ places_of variable width) }
{
    for bit in 0..width {
        places.push(Place {
            variable,
            bit: bit as usize,
        })?;
    }
    Ok(())
}
