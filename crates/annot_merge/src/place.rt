// Where a note is put among those that are in order.
ghost use Rattle.std.specs.Prelude.{◌≡◌, ◌≤◌, ◌<◌, ◌+◌, ◌-◌, ◌∷◌, ◌++◌, [], List, drop, length};
ghost use Rattle.std.specs.Prelude.{false, true};
ghost use Rattle.std.specs.List.{HoldsAt};
ghost use Rattle.note_order.specs.Order.{is_before};
ghost use Rattle.annot_merge.specs.Merging.{InOrder, PutsIn};

use la_base::NoMemory;
use note_order::Entry;

// How far from the end the first look for a note's place is.
const NEAR: usize = 4;

// Whether a note stands before another, wherever they were pushed.
#[inline(always)]
fn is_before(entry: &Entry, other: &Entry) -> bool
    ensures { result ≡ is_before entry.now other.now }
{
    if entry.note.start == other.note.start {
        return entry.instance < other.instance;
    }
    entry.note.start < other.note.start
}

// Where a note stands among those from `first` on, behind all that don't stand behind it. Mostly
// that is near the end, however many are held: the looks go back from there, each time twice as
// far, and then by halves.
fn place_of(entries: &[Entry], first: usize, entry: &Entry) -> usize
    requires { first ≤ length entries.now }
    ensures least { first ≤ result }
    ensures most { result ≤ length entries.now }
    ensures behind { result < length entries.now
        → HoldsAt (λ other. is_before entry.now other ≡ true) entries.now result }
    ensures before { first < result
        → HoldsAt (λ other. is_before entry.now other ≡ false) entries.now (result - 1) }
{
    let mut low = first;
    let mut high = entries.len();
    let mut back = NEAR;
    while high - low > back {
        let middle = high - back;
        if is_before(entry, &entries[middle]) {
            high = middle;
            back = back.saturating_mul(2);
        } else {
            low = middle + 1;
        }
    }
    while low < high {
        let middle = low + (high - low) / 2;
        if is_before(entry, &entries[middle]) {
            high = middle;
        } else {
            low = middle + 1;
        }
    }
    low
}

/// Whether a note stands before none of those from `first` on.
#[inline(always)]
pub fn is_late(entries: &[Entry], first: usize, entry: &Entry) -> bool
    ensures { result ≡ true → first < length entries.now
        → HoldsAt (λ other. is_before entry.now other ≡ false) entries.now
        (length entries.now - 1) }
{
    if first >= entries.len() {
        return true;
    }
    !is_before(entry, &entries[entries.len() - 1])
}

/// Puts the last note among those from `first` on, behind all that don't stand behind it.
pub fn settle_last(entries: &mut Vec<Entry>, first: usize)
    requires { first < length entries.old.items }
    ensures puts { (before : List Entry) (entry : Entry)
        → drop first entries.old.items ≡ before ++ entry ∷ [] → InOrder before
        → PutsIn entry before (drop first entries.new.items) }
    ensures many { length entries.new.items ≡ length entries.old.items }
{
    if entries.len() - first == 1 {
        return;
    }
    if let Some(entry) = entries.pop() {
        let at = place_of(entries, first, &entry);
        match entries.insert(at, entry) {
            Ok(()) => {}
            // There was room for it before.
            Err(_) => {}
        }
    }
}

// So many notes that were given stand before those that are held, until their room is used again.
const MOST_GIVEN: usize = 64;

/// Where the notes behind `first` begin: the room of those before it is used again, once they are
/// many.
#[inline(always)]
pub fn behind_given(entries: &mut Vec<Entry>, first: usize) -> usize
    requires { first ≤ length entries.old.items }
    ensures within { result ≤ length entries.new.items }
    ensures room { result + result ≤ 64 + length entries.new.items }
    ensures kept { drop result entries.new.items ≡ drop first entries.old.items }
{
    if first < MOST_GIVEN {
        return first;
    }
    forget_given(entries, first)
}

// Lets go of the notes before `first`, where those behind are no more than these, and answers where
// those behind begin now.
#[inline(never)]
fn forget_given(entries: &mut Vec<Entry>, first: usize) -> usize
    requires { first ≤ length entries.old.items }
    ensures within { result ≤ length entries.new.items }
    ensures room { result + result ≤ 64 + length entries.new.items }
    ensures kept { drop result entries.new.items ≡ drop first entries.old.items }
{
    let len = entries.len();
    if first < len - first {
        return first;
    }
    entries.copy_within(first..len, 0);
    entries.truncate(len - first);
    0
}
