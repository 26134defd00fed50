// Binding the terms of an alternative to channels.
ghost use Rattle.std.specs.Prelude.{◌≡◌, ◌≢◌, ◌==◌, ◌<◌, length, IfErr};
ghost use Rattle.std.specs.List.{position};
ghost use Rattle.cond_words.specs.Binding.{AllBelow, Binds, Distinct, mask_of};
ghost use Rattle.cond_words.specs.Steps.{AsksMore, LineStep, OneMore, Placed, TermStep};
ghost use Rattle.cond_words.specs.Words.{alt_terms, meaning_of};
ghost use Rattle.cond_words.specs.declared.words.Letter.{Letter};

use crate::faults::{BindWhy, ItemFault};
use crate::words::{AltWords, Letter, Term};
use la_base::{MOST_PINS, Names, Pins, Word};
use wait_cond::Alt;

// The alternative without terms.
fn no_terms() -> Alt
    ensures masks { (letter : Letter) → mask_of result letter ≡ 0 }
    ensures skip { result.skip ≡ 0 }
{
    Alt {
        low: 0,
        high: 0,
        rise: 0,
        fall: 0,
        edge: 0,
        steady: 0,
        skip: 0,
    }
}

// Where a channel stands among the pins.
fn place_among(pins: &[u32], channel: u32) -> Option<usize>
    ensures { result ≡ position (λ pin. pin == channel) pins.now }
{
    pins.iter().position(|pin| *pin == channel)
}

/// The place of a channel among the pins, which it joins behind if it isn't one; or none where
/// there is no place left, and then the pins stay as they were.
pub fn place_of(pins: &mut Pins, channel: u32) -> Option<u32>
    ensures { Placed MOST_PINS pins.old.items pins.new.items channel result }
{
    if let Some(place) = place_among(pins, channel) {
        return Some(place as u32);
    }
    if pins.is_full() {
        return None;
    }
    let place = pins.len() as u32;
    pins.push(channel);
    Some(place)
}

// A mask with one line more.
fn with_line(mask: Word, line: u32) -> Word
    requires { line < MOST_PINS }
    ensures { OneMore mask line result }
{
    mask | (1 << line)
}

// Asks a letter of a line.
fn ask(alt: &mut Alt, letter: Letter, line: u32)
    requires { line < MOST_PINS }
    ensures { AsksMore alt.old alt.new letter line }
{
    match letter {
        Letter::Low => alt.low = with_line(alt.low, line),
        Letter::High => alt.high = with_line(alt.high, line),
        Letter::Rise => alt.rise = with_line(alt.rise, line),
        Letter::Fall => alt.fall = with_line(alt.fall, line),
        Letter::Edge => alt.edge = with_line(alt.edge, line),
        Letter::Steady => alt.steady = with_line(alt.steady, line),
    }
}

// Asks a letter of the channel that was found.
fn bind_line(
    found: Option<u32>,
    letter: Letter,
    pins: &mut Pins,
    alt: &mut Alt,
) -> Result<(), BindWhy>
    ensures { LineStep MOST_PINS pins.old.items pins.new.items alt.old alt.new letter found result }
{
    let Some(channel) = found else {
        return Err(BindWhy::Unknown);
    };
    let Some(line) = place_of(pins, channel) else {
        return Err(BindWhy::TooMany);
    };
    ask(alt, letter, line);
    Ok(())
}

// Binds one term.
fn bind_term(term: &Term, names: &Names, pins: &mut Pins, alt: &mut Alt) -> Result<(), BindWhy>
    ensures { TermStep MOST_PINS names.now pins.old.items pins.new.items alt.old alt.new
        (meaning_of term.now) result }
{
    match term {
        Term::Line { reference, letter } => bind_line(
            names.find(reference.as_bytes()),
            *letter,
            pins,
            alt,
        ),
        Term::Skip(number) => {
            alt.skip = alt.skip.max(*number);
            Ok(())
        }
    }
}

/// Binds the terms of an alternative to channels, in their order. `Unknown` comes exactly where a
/// term's channel isn't found by its reference, and `TooMany` exactly where it would be one pin
/// more than `MOST_PINS`; `item` is the place of the first such term among all terms. The pins must
/// be distinct, and stay so: new ones join them behind, in the order in which the terms use them. A
/// refusal leaves the pins as they were. `Rate` never comes, and no memory is taken.
pub fn bind_alt(words: &AltWords, names: &Names, pins: &mut Pins) -> Result<Alt, ItemFault>
    requires { Distinct pins.old.items }
    ensures binds { Binds MOST_PINS names.now pins.old.items pins.new.items
        (alt_terms words.now) result }
    ensures distinct { Distinct pins.new.items }
    ensures below { AllBelow (length names.now) pins.old.items
        → AllBelow (length names.now) pins.new.items }
    ensures never { IfErr result (λ fault. fault.why ≢ BindWhy.Rate) }
{
    let known = pins.len();
    let mut alt = no_terms();
    for (item, term) in words.terms.iter().enumerate() {
        match bind_term(term, names, pins, &mut alt) {
            Ok(()) => {}
            Err(why) => {
                pins.truncate(known);
                return Err(ItemFault {
                    item: item as u32,
                    why,
                });
            }
        }
    }
    Ok(alt)
}
