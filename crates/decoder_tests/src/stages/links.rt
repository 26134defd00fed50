// Each call of a link with ample room and at its limits, both ends in one thread.
use stage_ring::{all_pass_through, ends_are_send, link, passes_through, settle};
use std::test::Fail;

#[test]
fn items_come_out_in_order(rt: HostRuntime) -> Result<(), Fail> {
    let Ok((mut tx, mut rx)) = link::<u32>(rt.alloc(), 64) else {
        return Err(Fail::new("no memory"));
    };
    ends_are_send(&tx, &rx);
    assert!(rt; tx.room() == 64);
    for item in 0..40u32 {
        assert!(rt; tx.offer(item).is_ok());
    }
    for item in 0..40u32 {
        assert!(rt; rx.take() == Some(item));
    }
    assert!(rt; rx.take() == None);
    assert!(rt; (tx.misses(), rx.misses()) == (0, 1));
    Ok(())
}

#[test]
fn a_full_link_hands_back(rt: HostRuntime) -> Result<(), Fail> {
    let Ok((mut tx, mut rx)) = link::<u32>(rt.alloc(), 1) else {
        return Err(Fail::new("no memory"));
    };
    settle(&mut tx, &mut rx);
    assert!(rt; tx.offer(7).is_ok());
    settle(&mut tx, &mut rx);
    assert!(rt; tx.offer(8) == Err(8));
    assert!(rt; tx.misses() == 1);
    assert!(rt; rx.take() == Some(7));
    settle(&mut tx, &mut rx);
    assert!(rt; rx.take() == None);
    assert!(rt; rx.misses() == 1);
    Ok(())
}

// One slot: each item waits until the one before it was taken, and neither end has to settle.
#[test]
fn one_slot_passes_many(rt: HostRuntime) -> Result<(), Fail> {
    let Ok((mut tx, mut rx)) = link::<u32>(rt.alloc(), 1) else {
        return Err(Fail::new("no memory"));
    };
    for item in 0..100u32 {
        assert!(rt; tx.offer(item).is_ok());
        assert!(rt; tx.offer(1000) == Err(1000));
        assert!(rt; rx.take() == Some(item));
        assert!(rt; rx.take() == None);
    }
    assert!(rt; (tx.misses(), rx.misses()) == (100, 100));
    Ok(())
}

#[test]
fn settling_keeps_what_waits(rt: HostRuntime) -> Result<(), Fail> {
    let Ok((mut tx, mut rx)) = link::<u32>(rt.alloc(), 3) else {
        return Err(Fail::new("no memory"));
    };
    assert!(rt; tx.offer_some(&[1, 2, 3]) == 3);
    settle(&mut tx, &mut rx);
    settle(&mut tx, &mut rx);
    assert!(rt; rx.take() == Some(1));
    settle(&mut tx, &mut rx);
    assert!(rt; tx.offer(4).is_ok());
    assert!(rt; tx.offer(5) == Err(5));
    settle(&mut tx, &mut rx);
    assert!(rt; rx.take() == Some(2));
    assert!(rt; rx.take() == Some(3));
    assert!(rt; rx.take() == Some(4));
    assert!(rt; (tx.misses(), rx.misses()) == (1, 0));
    Ok(())
}

#[test]
fn many_at_once(rt: HostRuntime) -> Result<(), Fail> {
    let Ok((mut tx, mut rx)) = link::<u32>(rt.alloc(), 5) else {
        return Err(Fail::new("no memory"));
    };
    let mut room = [0u32; 4];
    assert!(rt; rx.take_some(&mut room) == 0);
    assert!(rt; (rx.misses(), room) == (1, [0, 0, 0, 0]));
    assert!(rt; tx.offer_some(&[10, 11, 12]) == 3);
    assert!(rt; tx.misses() == 0);
    assert!(rt; tx.offer_some(&[13, 14, 15, 16]) == 2);
    assert!(rt; tx.misses() == 1);
    assert!(rt; tx.offer_some(&[15]) == 0);
    assert!(rt; tx.misses() == 2);
    assert!(rt; rx.take_some(&mut room) == 4);
    assert!(rt; room == [10, 11, 12, 13]);
    assert!(rt; tx.offer_some(&[15, 16]) == 2);
    assert!(rt; rx.take_some(&mut room) == 3);
    assert!(rt; room == [14, 15, 16, 13]);
    assert!(rt; rx.take_some(&mut room) == 0);
    assert!(rt; (tx.misses(), rx.misses()) == (2, 2));
    Ok(())
}

// To send nothing and to ask for nothing is no miss, however full or empty the link is.
#[test]
fn nothing_at_once(rt: HostRuntime) -> Result<(), Fail> {
    let Ok((mut tx, mut rx)) = link::<u32>(rt.alloc(), 1) else {
        return Err(Fail::new("no memory"));
    };
    let mut none = [0u32; 0];
    assert!(rt; rx.take_some(&mut none) == 0);
    assert!(rt; tx.offer_some(&[]) == 0);
    assert!(rt; tx.offer(1).is_ok());
    assert!(rt; tx.offer_some(&[]) == 0);
    assert!(rt; rx.take_some(&mut none) == 0);
    assert!(rt; (tx.misses(), rx.misses()) == (0, 0));
    assert!(rt; rx.take() == Some(1));
    Ok(())
}

#[test]
fn the_widest_link_is_filled(rt: HostRuntime) -> Result<(), Fail> {
    let Ok((mut tx, mut rx)) = link::<u32>(rt.alloc(), 16384) else {
        return Err(Fail::new("no memory"));
    };
    for item in 0..16384u32 {
        assert!(rt; tx.offer(item).is_ok());
    }
    assert!(rt; tx.offer(16384) == Err(16384));
    for item in 0..16384u32 {
        assert!(rt; rx.take() == Some(item));
    }
    assert!(rt; rx.take() == None);
    assert!(rt; (tx.misses(), rx.misses()) == (1, 1));
    Ok(())
}

#[test]
fn what_is_sent_is_taken(rt: HostRuntime) -> Result<(), Fail> {
    let Ok((mut tx, mut rx)) = link::<u32>(rt.alloc(), 1) else {
        return Err(Fail::new("no memory"));
    };
    assert!(rt; passes_through(&mut tx, &mut rx, 7) == Some(7));
    assert!(rt; passes_through(&mut tx, &mut rx, 8) == Some(8));
    let Ok((mut tx, mut rx)) = link::<u32>(rt.alloc(), 3) else {
        return Err(Fail::new("no memory"));
    };
    let mut into = [0u32; 3];
    all_pass_through(&mut tx, &mut rx, &[4, 5, 6], &mut into);
    assert!(rt; into == [4, 5, 6]);
    all_pass_through(&mut tx, &mut rx, &[7, 8], &mut into[1..]);
    assert!(rt; into == [4, 7, 8]);
    assert!(rt; (tx.misses(), rx.misses()) == (0, 0));
    Ok(())
}
