// Plain values and what they tell, byte by byte.
ghost use Rattle.std.specs.Prelude.{refl};

use plain_bytes::{Parted, Plain, Saved, front_of, get_parts, is_put, put_parts, read_as};

// A place that its number tells.
#[derive(Clone, Copy, PartialEq, Eq, Drop)]
struct Place {
    at: u16,
}

impl Parted for Place {
    type Parts = u16;

    ghost parts_of = { λ place. place.at };

    ghost value_of = { λ at. record { at = at } };

    fn parts(&self) -> u16 {
        self.at
    }

    fn of_parts(parts: u16) -> Place {
        Place { at: parts }
    }

    ghost comes_back = { λ place fits. refl };
}

type Numbers = (u8, (u16, (u32, (u64, u128))));

#[test]
fn numbers_are_put_with_their_highest_byte_first(rt: HostRuntime) {
    let numbers: Numbers = (
        0x01,
        (
            0x0203,
            (
                0x0405_0607,
                (
                    0x0809_0a0b_0c0d_0e0f,
                    0x1011_1213_1415_1617_1819_1a1b_1c1d_1e1f,
                ),
            ),
        ),
    );
    let mut saved = Saved::new();
    numbers.put(&mut saved);
    assert!(rt; saved.len() == 31);
    for (place, byte) in saved.iter().enumerate() {
        assert!(rt; *byte as usize == place + 1);
    }
    assert!(rt; is_put(numbers, saved.as_slice()));
    assert!(rt; read_as::<Numbers>(saved.as_slice()) == numbers);
    assert!(rt; !is_put(numbers, &saved.as_slice()[..30]));
    // what is missing is read as 0
    assert!(rt; read_as::<(u8, u16)>(&[7, 1]) == (7, 0));
    let mut front = Saved::new();
    (0x01u8, 0x0203u16).put(&mut front);
    match front_of::<(u8, u16)>(saved.as_slice()) {
        Some((pair, rest)) => assert!(rt; pair == (0x01, 0x0203) && rest.len() == 28),
        None => assert!(rt; false),
    }
    assert!(rt; front_of::<u32>(front.as_slice()).is_none());
}

#[test]
fn an_option_begins_with_its_own_byte(rt: HostRuntime) {
    let mut saved = Saved::new();
    let pair: (Option<u8>, Option<u8>) = (Some(5), None);
    pair.put(&mut saved);
    assert!(rt; saved.as_slice() == [1, 5, 0].as_slice());
    assert!(rt; front_of::<Option<u8>>(&[1, 5, 9]).is_some());
    assert!(rt; front_of::<Option<u8>>(&[2, 5, 9]).is_none());
    assert!(rt; front_of::<Option<u8>>(&[1]).is_none());
}

#[test]
fn parts_tell_a_value_and_no_other(rt: HostRuntime) {
    let value = (Place { at: 0x0102 }, Some(Place { at: 3 }));
    let mut saved = Saved::new();
    put_parts(&value, &mut saved);
    assert!(rt; saved.as_slice() == [1, 2, 1, 0, 3].as_slice());
    match get_parts::<(Place, Option<Place>)>(saved.as_slice()) {
        Some(back) => assert!(rt; back.0 == value.0 && back.1 == value.1),
        None => assert!(rt; false),
    }
    // another byte for Some, a byte too few, and one too many
    for bytes in [&[1u8, 2, 2, 0, 3][..], &[1, 2, 1, 0][..], &[1, 2, 0, 9][..]] {
        assert!(rt; get_parts::<(Place, Option<Place>)>(bytes).is_none());
    }
}
