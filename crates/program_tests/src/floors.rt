// Notes that wait for floors.
use annot_merge::Merge;
use la_base::{Mark, Note};

fn note(start: u64) -> Note {
    Note {
        class: 0,
        start,
        end: start,
        a: 0,
        b: 0,
    }
}

#[test]
fn a_note_waits_for_the_floors(rt: HostRuntime) {
    let mut merge = Merge::new(rt.alloc(), 2).expect(&rt, "memory");
    assert!(rt; merge.push(1, Mark::Note(note(5))).is_ok());
    assert!(rt; merge.ready().is_none());
    assert!(rt; merge.push(1, Mark::Floor(5)).is_ok());
    assert!(rt; merge.push(0, Mark::Floor(5)).is_ok());
    // Instance 0 may still give a note at 5.
    assert!(rt; merge.ready().is_none());
    assert!(rt; merge.held() == 1);
    assert!(rt; merge.push(0, Mark::Floor(6)).is_ok());
    assert!(rt; merge.ready() == Some((1, note(5))));
    assert!(rt; merge.held() == 0);
    assert!(rt; merge.push(0, Mark::End).is_ok());
    assert!(rt; merge.push(1, Mark::End).is_ok());
    assert!(rt; merge.ready().is_none());
}

#[test]
fn a_summary_comes_before_what_it_sums_up(rt: HostRuntime) {
    let mut merge = Merge::new(rt.alloc(), 2).expect(&rt, "memory");
    for start in 0..1000 {
        assert!(rt; merge.push(0, Mark::Note(note(3 * start))).is_ok());
        assert!(rt; merge.push(0, Mark::Floor(3 * start + 1)).is_ok());
        assert!(rt; merge.push(1, Mark::Note(note(3 * start))).is_ok());
    }
    // All but the first of instance 0 wait for instance 1, whose floor is 0.
    assert!(rt; merge.ready() == Some((0, note(0))));
    assert!(rt; merge.ready() == Some((1, note(0))));
    assert!(rt; merge.ready().is_none());
    assert!(rt; merge.held() == 1998);
    assert!(rt; merge.push(1, Mark::Note(note(1))).is_ok());
    assert!(rt; merge.push(1, Mark::End).is_ok());
    assert!(rt; merge.ready() == Some((1, note(1))));
    assert!(rt; merge.ready() == Some((0, note(3))));
    assert!(rt; merge.ready() == Some((1, note(3))));
}
