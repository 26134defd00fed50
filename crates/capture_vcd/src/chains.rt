// The channels that are selected, chained by keys of their codes: a change looks only at those
// whose code has the key of its own.
ghost use Rattle.std.specs.Prelude.{◌≡◌, ◌≤◌, ◌<◌, length, map, slice_index, slice_set};
ghost use Rattle.capture_vcd.specs.Chains.{keys_of, key_of};
ghost use Rattle.capture_vcd.specs.Slots.{channel_of, code_at};

use crate::selecting::PLACES;
use crate::slots::Slot;

// How many keys there are.
const KEYS: usize = 256;

// Ends a chain: it is the place of no channel.
const NONE: u8 = 255;

/// For each key the place of the first channel whose code has it, and for each channel that of the
/// next one whose code has the same key.
#[derive(Clone, Drop)]
pub struct Chains {
    heads: [u8; KEYS],
    next: [u8; PLACES],
}

// A byte that tells most codes apart. Where codes are given out in order, some files change the
// first byte from one to the next, and others the last.
#[inline(always)]
fn key_of(code: &[u8]) -> u8
    ensures { result ≡ key_of code.now }
{
    if code.is_empty() {
        return 0;
    }
    code[0].wrapping_add(code[code.len() - 1])
}

// The code of a variable.
fn code_of(codes: &[Vec<u8>], variable: usize) -> &[u8]
    ensures { result.now ≡ code_at codes.now variable }
{
    match codes.get(variable) {
        Some(code) => code.as_slice(),
        None => b"".as_slice(),
    }
}

// Puts a channel before those behind it.
fn link(heads: &mut [u8; KEYS], next: &mut [u8; PLACES], place: usize, key: u8)
    requires { place < PLACES }
    ensures heads { heads.new ≡ slice_set heads.old key place }
    ensures next { next.new ≡ slice_set next.old place (slice_index heads.old key) }
{
    next[place] = heads[key as usize];
    heads[key as usize] = place as u8;
}

impl Chains {
    ghost use Rattle.std.specs.Prelude.{◌+◌, [], List};
    ghost use Rattle.capture_vcd.specs.Body.{Channel};
    ghost use Rattle.capture_vcd.specs.Chains.{Leads};
    ghost use Rattle.capture_vcd.specs.Linked.{Linked};

    /// There are no channels.
    pub fn new() -> Chains
        ensures { Linked result [] }
    {
        Chains {
            heads: [NONE; KEYS],
            next: [NONE; PLACES],
        }
    }

    /// The chains of these channels.
    pub fn of(codes: &[Vec<u8>], slots: &[Slot]) -> Chains
        requires { length slots.now ≤ PLACES }
        ensures { Linked result (map (channel_of codes.now) slots.now) }
    {
        let mut heads = [NONE; KEYS];
        let mut next = [NONE; PLACES];
        let mut left = slots.len();
        while left > 0 {
            left -= 1;
            let key = key_of(code_of(codes, slots[left].variable));
            link(&mut heads, &mut next, left, key);
        }
        Chains { heads, next }
    }

    /// The place of the first channel whose code has the key of this one; where there is none, a
    /// place behind all channels.
    #[inline(always)]
    pub fn first(&self, code: &[u8]) -> usize
        ensures { (channels : List Channel) → Linked self.now channels
            → Leads (keys_of channels) (key_of code.now) 0 result }
    {
        usize::from(self.heads[usize::from(key_of(code))])
    }

    /// The place of the next channel whose code has the key of this one's, or one behind all
    /// channels.
    #[inline(always)]
    pub fn behind(&self, place: usize) -> usize
        requires { place < PLACES }
        ensures { (channels : List Channel) → Linked self.now channels → place < length channels
            → Leads (keys_of channels) (slice_index (keys_of channels) place) (place + 1) result }
    {
        usize::from(self.next[place])
    }
}
