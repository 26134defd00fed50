// A driver of edges, worked by hand from where line 0 changes.
use crate::moving::is_send;
use decoder_core::{
    Driver, LogicMachine, Machine, Outs, Taken, note_at, one_input_makes_one_driver,
};
use la_base::{Feed, Packet, PacketKind, Run, Wire};
use sample_walks::{Edges, event_laws, walk_laws};

// A driver can move to another thread.
fn driver_is_send<L: LogicMachine + Send>(driver: &Driver<L>) {
    is_send(driver);
}

#[test]
fn a_driver_gives_each_edge_once(rt: HostRuntime) {
    let mut driver = Driver::new(Edges::new());
    driver_is_send(&driver);
    one_input_makes_one_driver(&driver, &Driver::new(Edges::new()));
    let mut outs = Outs::new();
    assert!(rt; driver.wants() == Wire::Logic);
    let packet = Packet {
        kind: PacketKind::I2cStart,
        start: 7,
        end: 9,
        a: 0,
        b: 0,
    };
    let pair = Run { value: 2, len: 2 };
    let one = Run { value: 2, len: 1 };
    let many = Run {
        value: 0,
        len: 1 << 60,
    };
    let rest = Run {
        value: 0,
        len: (1 << 60) - 1,
    };
    // samples 1 1 1 0 0 1 0: edges at 3, 5 and 6; packets and the end give nothing, and what is left of a run that
    // has more samples than may count is answered whole
    for (feed, left, floor, note) in [
        (Feed::Run(Run { value: 1, len: 3 }), None, 3, None),
        (
            Feed::Run(pair),
            Some(Feed::Run(one)),
            4,
            Some(note_at(0, 3, 0)),
        ),
        (Feed::Packet(packet), None, 4, None),
        (Feed::Run(one), None, 5, None),
        (
            Feed::Run(Run { value: 5, len: 1 }),
            None,
            6,
            Some(note_at(0, 5, 1)),
        ),
        (
            Feed::Run(many),
            Some(Feed::Run(rest)),
            7,
            Some(note_at(0, 6, 0)),
        ),
        (Feed::End, None, 7, None),
    ] {
        outs.clear();
        let answer = driver.step(feed, &mut outs);
        assert!(rt; answer == left);
        assert!(rt; outs.list().first().copied() == note);
        assert!(rt; outs.list().len() < 2);
        assert!(rt; driver.floor(0) == floor);
    }
    // runs without an edge are passed, up to one that has it
    let mut driver = Driver::new(Edges::new());
    let mut outs = Outs::new();
    let first = Feed::Run(Run { value: 1, len: 3 });
    assert!(rt; driver.step(first, &mut outs) == None);
    let runs = [
        Run { value: 1, len: 2 },
        Run { value: 3, len: 1 },
        Run { value: 0, len: 2 },
    ];
    outs.clear();
    let taken = Taken {
        count: 3,
        rest: None,
    };
    assert!(rt; driver.step_runs(&runs, &mut outs) == taken);
    assert!(rt; outs.list() == [note_at(0, 6, 0)].as_slice());
    assert!(rt; driver.floor(0) == 8);
    walk_laws::<u8>();
    event_laws::<u8, u8>();
}
