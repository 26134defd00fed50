// Lists that are cut, and notes that are put in order.
ghost use Rattle.std.specs.Prelude.{◌==◌, ◌≡◌, ◌<◌};
ghost use Rattle.annot_merge.specs.Held.{count_of};

use annot_merge::Merge;
use la_base::{Mark, Note};
use list_cuts::*;
use note_order::{Entry, instances_make_the_listing, one_order, order_keeps_each_instance};

// The numbers that equal one.
#[derive(Clone, Copy)]
struct Is(u64);

impl Test<u64> for Is {
    ghost passes = { λ s x. x == s.0 };

    fn test(&self, item: &u64) -> bool {
        *item == self.0
    }
}

const LIST: [u64; 7] = [5, 6, 7, 8, 9, 10, 11];

// The groups of a size in that list, and how many numbers are in them.
const GROUPS: [(usize, &[&[u64]], usize); 6] = [
    (3, &[&[5, 6, 7], &[8, 9, 10]], 6),
    (4, &[&[5, 6, 7, 8]], 4),
    (7, &[&[5, 6, 7, 8, 9, 10, 11]], 7),
    (8, &[], 0),
    (1, &[&[5], &[6], &[7], &[8], &[9], &[10], &[11]], 7),
    (0, &[], 0),
];

// Lists, and their parts from each 0 on.
const PARTS: [(&[u64], &[&[u64]]); 4] = [
    (&[4, 0, 1, 2, 0, 0, 3], &[&[0, 1, 2], &[0], &[0, 3]]),
    (&[0], &[&[0]]),
    (&[1, 2], &[]),
    (&[], &[]),
];

// Lists, and where the last 7 stands.
const LAST: [(&[u64], Option<usize>, Option<u64>); 5] = [
    (&[7, 2, 7, 3], Some(2), Some(7)),
    (&[7, 2, 2, 3], Some(0), Some(7)),
    (&[1, 2, 3, 7], Some(3), Some(7)),
    (&[1, 2, 3, 4], None, None),
    (&[], None, None),
];

#[test]
fn lists_are_cut(rt: HostRuntime) {
    let alloc = rt.alloc();
    for &(size, groups, count) in &GROUPS {
        let found = groups_of(alloc, size, &LIST).expect(&rt, "memory");
        assert!(rt; found.len() == groups.len());
        for (list, want) in found.iter().zip(groups) {
            assert!(rt; list.as_slice() == *want);
        }
        assert!(rt; after_groups_of(size, &LIST) == &LIST[count..], "{size}");
    }
}

#[test]
fn lists_are_parted(rt: HostRuntime) {
    let alloc = rt.alloc();
    for &(list, parts) in &PARTS {
        let found = parts_of(alloc, &Is(0), list).expect(&rt, "memory");
        assert!(rt; found.len() == parts.len());
        for (list, want) in found.iter().zip(parts) {
            assert!(rt; list.as_slice() == *want);
        }
    }
}

// 1 begins a part, and 9 ends it.
#[test]
fn parts_stand_between_their_ends(rt: HostRuntime) {
    let alloc = rt.alloc();
    let list = [5, 9, 1, 2, 3, 9, 4, 9, 1, 1, 6];
    let parts = parts_between(alloc, &Is(1), &Is(9), &list).expect(&rt, "memory");
    let wants: [(&[u64], Option<u64>); 3] = [
        (&[1, 2, 3], Some(9)),
        (&[1], Some(1)),
        (&[1, 6], None),
    ];
    assert!(rt; parts.len() == 3);
    for (part, want) in parts.iter().zip(&wants) {
        assert!(rt; part.items.as_slice() == want.0);
        assert!(rt; part.ended_by == want.1);
    }
}

#[test]
fn the_last_and_the_rising(rt: HostRuntime) {
    for &(list, place, found) in &LAST {
        assert!(rt; last_where(&Is(7), list) == place);
        assert!(rt; last_that(&Is(7), list) == found);
    }
    // where numbers rise: the first has none before it, and an equal one doesn't rise
    let rising: [(&[u64], &[usize]); 3] = [
        (&[3, 4, 4, 1, 2, 9], &[1, 4, 5]),
        (&[3], &[]),
        (&[], &[]),
    ];
    for (list, places) in rising {
        let found = events_of(rt.alloc(), &Rises, list).expect(&rt, "memory");
        assert!(rt; found.as_slice() == places);
    }
    group_laws::<u64>();
    neighbour_laws::<u64, usize>();
    part_laws::<u64>();
    between_laws::<u64>();
    last_laws::<u64>();
    along_laws::<u64, usize>();
    bit_laws();
    place_laws::<u64>();
}

const INSTANCES: u32 = 71;

// A note of an instance that starts there; its class tells it apart.
fn entry(instance: u32, start: u64, class: u16) -> Entry {
    Entry {
        instance,
        note: Note {
            class,
            start,
            end: u64::MAX,
            a: 0,
            b: 0,
        },
    }
}

// A merge of so many instances.
#[derive(Drop)]
struct Many {
    merge: Merge,
    ghost count: { count_of merge ≡ 71 },
}

impl Many {
    fn push(&mut self, instance: u32, mark: Mark) -> bool
        requires { instance < 71 }
    {
        self.merge.push(instance, mark).is_ok()
    }

    // The class of the next note, if there is one that may be given.
    fn next_class(&mut self) -> Option<u16> {
        match self.merge.ready() {
            Some((_, note)) => Some(note.class),
            None => None,
        }
    }
}

#[test]
fn entries_stand_by_start_then_instance_then_as_given(rt: HostRuntime) {
    let alloc = rt.alloc();
    let cases: [(&[Entry], &[u16]); 6] = [
        (&[], &[]),
        (&[entry(0, 7, 1)], &[1]),
        // later starts behind earlier ones
        (
            &[entry(0, 9, 1), entry(0, 2, 2), entry(0, 5, 3)],
            &[2, 3, 1],
        ),
        // of those that start alike the lower instance first
        (
            &[
                entry(2, 4, 1),
                entry(0, 4, 2),
                entry(1, 4, 3),
                entry(1, 3, 4),
            ],
            &[4, 2, 3, 1],
        ),
        // also of many instances
        (
            &[
                entry(70, 4, 1),
                entry(0, 9, 2),
                entry(0, 4, 3),
                entry(70, 2, 4),
            ],
            &[4, 3, 1, 2],
        ),
        // one instance keeps its order where starts are alike
        (
            &[
                entry(1, 6, 9),
                entry(0, 6, 8),
                entry(1, 6, 7),
                entry(0, 6, 6),
                entry(1, 6, 5),
                entry(0, 1, 4),
            ],
            &[4, 8, 6, 9, 7, 5],
        ),
    ];
    for (given, classes) in cases {
        let entries = given.to_vec(alloc).expect(&rt, "memory");
        let mut many = Many {
            merge: Merge::new(alloc, INSTANCES).expect(&rt, "memory"),
        };
        for entry in &entries {
            let instance = entry.instance.min(INSTANCES - 1);
            assert!(rt; many.push(instance, Mark::Note(entry.note)));
        }
        for instance in 0..INSTANCES {
            assert!(rt; many.push(instance, Mark::End));
        }
        let mut given_back = Vec::new(alloc);
        for _ in &entries {
            given_back.push(many.next_class()).expect(&rt, "memory");
        }
        let mut wanted = Vec::new(alloc);
        for class in &classes.to_vec(alloc).expect(&rt, "memory") {
            wanted.push(Some(*class)).expect(&rt, "memory");
        }
        assert!(rt; given_back.as_slice() == wanted.as_slice());
        assert!(rt; many.next_class().is_none());
    }
    one_order();
    order_keeps_each_instance();
    instances_make_the_listing();
}
