// How a stop changes what is held.
ghost use Rattle.std.specs.Prelude.{◌≡◌, ◌≤◌};
ghost use Rattle.dec_uart.specs.laws.Machine.{held_after, point_held, stop_held};
ghost use Rattle.dec_uart.specs.laws.Machine.{is_point, point_taken};

use crate::frames::with_level;
use crate::points::last_bit;
use crate::{Held, Line};

// What is held behind all points of a frame.
fn held_after(start: u64, word: u16) -> Held
    ensures { result ≡ held_after start word }
{
    if word == 0 {
        Held::Low { start }
    } else {
        Held::Idle
    }
}

// What is held behind point i of a frame.
fn point_held(line: Line, start: u64, i: u64, word: u16, at: u64, level: bool) -> Held
    requires { i ≤ 12 }
    ensures { result ≡ point_held line.opts start i word at level }
{
    if i == 0 && level {
        return Held::Idle;
    }
    let word = with_level(i, word, level);
    if i < last_bit(line) {
        Held::Inside {
            start,
            points: i as u8 + 1,
            word,
            reached: at.saturating_sub(start),
        }
    } else {
        held_after(start, word)
    }
}

/// What is held behind a stop.
pub fn step(line: Line, held: Held, at: u64, level: bool) -> Held
    ensures { result ≡ stop_held line.opts held at level }
{
    match held {
        Held::Idle => Held::Inside {
            start: at,
            points: 0,
            word: 0,
            reached: 0,
        },
        Held::Inside {
            start,
            points,
            word,
            ..
        } => {
            let i = (points as u64).min(last_bit(line));
            point_held(line, start, i, word, at, level)
        }
        Held::Low { .. } => Held::Idle,
    }
}

/// Takes a point in place that gives nothing and isn't the last, and answers whether it did; else
/// nothing is changed.
#[inline(always)]
pub fn takes_point(held: &mut Held, last: u8, at: u64, level: bool) -> bool
    requires { last ≤ 12 }
    ensures answers { result ≡ is_point last held.old level }
    ensures keeps { held.new ≡ point_taken last held.old at level }
{
    match held {
        Held::Inside {
            start,
            points,
            word,
            reached,
        } => {
            if *points >= last || (*points == 0 && level) {
                return false;
            }
            *word = with_level(*points as u64, *word, level);
            *points += 1;
            *reached = at.saturating_sub(*start);
            true
        }
        Held::Idle | Held::Low { .. } => false,
    }
}
