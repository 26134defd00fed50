// Numbers and lines, read and written.
ghost use Rattle.std.specs.Prelude.{◌≡◌, ◌<◌, ◌≤◌, ◌^◌};

use line_text::{Decimal, LineBuf, ROOM, ShortText};
use std::alloc::{AllocError, Global};
use std::test::Fail;
use text_parts::{
    NumberWhy, first_fault_is_answered, number_in, parts_fill_the_text, place_behind,
};

// Numbers in decimal, one behind the other: whatever number was there before.
const DECIMALS: &str = "\
0 7 99 100 107 199 200 10 1000000 12399 12300 12299 18446744073709551615 18446744073709551600 5";

// Numbers, how many digits they have at least, and their text in hexadecimal.
const HEXADECIMALS: &str = "\
0 1 0
0 2 00
160 2 A0
61248 2 EF40
2559 4 09FF
16 1 10
3021 16 0000000000000BCD
18446744073709551615 1 FFFFFFFFFFFFFFFF";

// The text of a number with so many digits behind the point.
#[tactic(auto, using(line_text::proofs::Widths::fixed_room))]
fn fixed_line(negative: bool, whole: u64, part: u64, digits: u32) -> LineBuf
    requires digits { (1 ≤ digits) × (digits ≤ 4) }
    requires part { part < 10 ^ digits }
{
    let mut line = LineBuf::new();
    line.push_fixed(negative, whole, part, digits);
    line
}

#[test]
#[tactic(auto, using(line_text::proofs::Widths::decimal_room))]
fn decimal_numbers_are_written(rt: HostRuntime) {
    let mut number = Decimal::new();
    for text in DECIMALS.split(' ') {
        let next = text.parse::<u64>().unwrap_or(0);
        number.set(next);
        let mut line = LineBuf::new();
        line.push_short(number.text());
        assert!(rt; line.bytes() == text.as_bytes(), "{next}");
        line.clear();
        line.push_dec(next);
        assert!(rt; line.bytes() == text.as_bytes(), "{next}");
    }
}

// The text of a number in so many hexadecimal digits at least.
#[tactic(auto, using(line_text::proofs::Widths::hex_room))]
fn hex_line(number: u64, digits: u32) -> LineBuf
    requires { (1 ≤ digits) × (digits ≤ 16) }
{
    let mut line = LineBuf::new();
    line.push_hex(number, digits);
    line
}

#[test]
fn hexadecimal_numbers_are_written(rt: HostRuntime) {
    for row in HEXADECIMALS.split('\n') {
        let (number, rest) = row.split_once(' ').unwrap_or(("", ""));
        let (digits, want) = rest.split_once(' ').unwrap_or(("", "?"));
        let digits = digits.parse().unwrap_or(1_u32).clamp(1, 16);
        let line = hex_line(number.parse().unwrap_or(0), digits);
        assert!(rt; line.bytes() == want.as_bytes(), "{row}");
    }
}

#[test]
fn numbers_with_a_point_are_written(rt: HostRuntime) {
    for (negative, whole, part, text) in [
        (false, 85, 0, "85.0000"),
        (true, 0, 5, "-0.0005"),
        (true, 10, 1250, "-10.1250"),
    ] {
        assert!(rt; part < 10_000);
        let line = fixed_line(negative, whole, part, 4);
        assert!(rt; line.bytes() == text.as_bytes(), "{text}");
    }
    assert!(rt; fixed_line(false, 25, 5, 1).bytes() == b"25.5".as_slice());
    assert!(rt; fixed_line(true, 55, 0, 1).bytes() == b"-55.0".as_slice());
    assert!(rt; fixed_line(false, 0, 25, 3).bytes() == b"0.025".as_slice());
}

#[test]
fn lines_are_pushed(rt: HostRuntime) {
    let mut line = LineBuf::new();
    assert!(rt; line.bytes() == b"".as_slice());
    line.push_bytes(b"at ");
    line.push_bytes(b"12");
    assert!(rt; line.bytes() == b"at 12".as_slice());
    line.clear();
    assert!(rt; line.bytes() == b"".as_slice());
    let mut text = ShortText::new();
    text.push_byte(b'7');
    line.push_short(&text);
    text.clear();
    text.push_byte(b'?');
    line.push_short(&text);
    assert!(rt; line.bytes() == b"7?".as_slice());
    line.clear();
    line.push_bytes(&[b'x'; ROOM]);
    assert!(rt; line.bytes().len() == 256);
}

// The least and the most number that a text may be, the text between brackets, and what is read.
const NUMBERS: &str = "\
0 9[0]0
1 64[007]7
1 64[64]64
1 64[0000000000000000064]64
1 18446744073709551615[9999999999999999999]9999999999999999999
0 9[]Value
0 9[+5]Value
0 9[-5]Value
0 9[5 ]Value
0 9[1e3]Value
1 64[0]Range
1 64[65]Range
1 64[00000000000000000064]Range
0 18446744073709551615[99999999999999999999]Range";

// What is read of a row's text.
fn read(alloc: Global, bounds: &str, text: &str) -> Result<String, AllocError> {
    let (least, most) = bounds.split_once(' ').unwrap_or(("", ""));
    let (least, most) = (least.parse().unwrap_or(0), most.parse().unwrap_or(0));
    match number_in(text, least, most) {
        Ok(number) => format!(in alloc; "{number}"),
        Err(NumberWhy::Value) => String::from_str(alloc, "Value"),
        Err(NumberWhy::Range) => String::from_str(alloc, "Range"),
    }
}

#[test]
fn numbers_are_read(rt: HostRuntime) -> Result<(), Fail> {
    for row in NUMBERS.split('\n') {
        let (bounds, rest) = row.split_once('[').unwrap_or(("", ""));
        let (text, want) = rest.split_once(']').unwrap_or(("", "?"));
        assert!(rt; read(rt.alloc(), bounds, text)?.as_str() == want, "{row}");
    }
    for (place, text, behind) in [(0, "", 1), (0, "D0=r", 5), (5, "é", 8)] {
        assert!(rt; place_behind(place, text) == behind);
    }
    first_fault_is_answered::<u8, u16, u32>();
    parts_fill_the_text();
    Ok(())
}
