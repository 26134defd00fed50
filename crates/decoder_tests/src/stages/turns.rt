// The answers of single turns.
use super::line::{opened_line, opened_midi};
use la_base::{Feed, Mark, Packet, PacketKind};
use stage_ring::link;
use stage_run::{HalfRun, Input, Stage, Turn};
use std::test::Fail;

// Nothing to take: idle, with a miss. A half run: it moves. The end: it ends, after a floor and the
// end on each link.
#[test]
fn a_stage_waits_moves_and_ends(rt: HostRuntime) -> Result<(), Fail> {
    let Ok((mut feeds, input)) = link::<HalfRun>(rt.alloc(), 4) else {
        return Err("no memory".into());
    };
    let Ok((child, mut packets)) = link::<Feed>(rt.alloc(), 4) else {
        return Err("no memory".into());
    };
    let Ok((sends, mut marks)) = link::<Mark>(rt.alloc(), 4) else {
        return Err("no memory".into());
    };
    let mut children = Vec::new(rt.alloc());
    children.push(child)?;
    let mut stage = Stage::open(opened_line()?, Input::Samples(input), children, sends);
    assert!(rt; !stage.is_over() && stage.turn(5) == Turn::Idle && stage.misses() == 1);
    assert!(rt;
        feeds
            .offer(HalfRun {
                value: 1,
                len: 1000
            })
            .is_ok()
    );
    // it receives and works, and has a floor to give
    assert!(rt; !stage.is_over() && stage.turn(2) == Turn::Moved && stage.misses() == 1);
    assert!(rt; marks.take().is_none());
    assert!(rt; !stage.is_over() && stage.turn(1) == Turn::Moved);
    assert!(rt; matches!(marks.take(), Some(Mark::Floor(_))));
    // and tells its child the same
    assert!(rt; packets.take().is_none());
    assert!(rt; !stage.is_over() && stage.turn(1) == Turn::Moved);
    assert!(rt; matches!(packets.take(), Some(Feed::From(_))) && packets.take().is_none());
    assert!(rt; !stage.is_over() && stage.turn(9) == Turn::Idle && stage.misses() == 2);
    assert!(rt; feeds.offer(HalfRun::telling(0)).is_ok());
    assert!(rt; !stage.is_over() && stage.turn(9) == Turn::Ended && stage.is_over());
    assert!(rt; matches!(marks.take(), Some(Mark::End)) && marks.take().is_none());
    assert!(rt; packets.take() == Some(Feed::End) && packets.take().is_none());
    if stage.is_over() {
        let parts = stage.into_parts();
        assert!(rt; parts.children.len() == 1);
    }
    Ok(())
}

// A link of one slot that is full: the stage is idle until it was taken from, and nothing is lost.
#[test]
fn a_full_link_holds_a_stage(rt: HostRuntime) -> Result<(), Fail> {
    let Ok((mut feeds, input)) = link::<Feed>(rt.alloc(), 8) else {
        return Err("no memory".into());
    };
    let Ok((sends, mut marks)) = link::<Mark>(rt.alloc(), 1) else {
        return Err("no memory".into());
    };
    let mut stage = Stage::open(
        opened_midi()?,
        Input::Packets(input),
        Vec::new(rt.alloc()),
        sends,
    );
    for start in 0..3u64 {
        let packet = Packet {
            kind: PacketKind::UartFrame,
            start: start * 10,
            end: start * 10 + 9,
            a: 0xF8,
            b: 0,
        };
        assert!(rt; feeds.offer(Feed::Packet(packet)).is_ok());
    }
    // three notes and a floor, of which one has room
    assert!(rt; !stage.is_over() && stage.turn(20) == Turn::Moved && stage.misses() == 1);
    assert!(rt; !stage.is_over() && stage.turn(20) == Turn::Idle && stage.misses() == 2);
    for start in 0..3u64 {
        let Some(Mark::Note(note)) = marks.take() else {
            return Err("no note".into());
        };
        assert_eq!(rt; note.start, start * 10);
        assert!(rt; !stage.is_over() && stage.turn(20) == Turn::Moved);
    }
    assert!(rt; matches!(marks.take(), Some(Mark::Floor(_))) && marks.take().is_none());
    Ok(())
}
