// Binding the alternatives of a condition to channels.
ghost use Rattle.std.specs.Prelude.{◌≡◌, ◌<◌, ◌≤◌, List, ℕ, [], length, IfOk, IsOk, Ok};
ghost use Rattle.std.specs.String.{string_bytes};
ghost use Rattle.cond_words.specs.Binding.{AllBelow, Distinct};
ghost use Rattle.cond_words.specs.Grammar.{terms_of};
ghost use Rattle.cond_words.specs.Words.{Meaning};
ghost use Rattle.words.specs.Readable.{IsReadable};
ghost use Rattle.words.specs.declared.kinds.Job.TheVariants.{Find};
ghost use Rattle.search_job.specs.Chosen.{AreTerms, Chooses, ChoosesOne};

use cond_words::{BindError, BindFault, CondError, bind_alt, read_alt};
use la_base::{Names, Pins};
use std::alloc::Global;
use text_parts::ChainWord;
use wait_cond::{Alt, Cond};

/// A condition, and the channels that its lines stand for.
#[derive(Drop)]
pub struct Wanted {
    pub cond: Cond,
    pub pins: Pins,
}

// One alternative with its number, bound behind the pins of those before it.
fn bind_word(
    alloc: Global,
    entry: u32,
    chain: &ChainWord,
    names: &Names,
    pins: &mut Pins,
) -> Result<Alt, BindError>
    requires short { length (string_bytes chain.now.text) ≤ 4096 }
    requires good { IsOk (terms_of (string_bytes chain.now.text)) }
    requires distinct { Distinct pins.old.items }
    ensures chooses { (terms : List Meaning) → terms_of (string_bytes chain.now.text) ≡ Ok terms
        → ChoosesOne names.now entry pins.old.items pins.new.items terms result }
    ensures distinct { Distinct pins.new.items }
    ensures below { AllBelow (length names.now) pins.old.items
        → AllBelow (length names.now) pins.new.items }
{
    let words = match read_alt(alloc, chain.text.as_str()) {
        Ok(words) => words,
        Err(CondError::Fault(_)) => unreachable!(),
        Err(CondError::NoMemory) => return Err(BindError::NoMemory),
    };
    match bind_alt(&words, names, pins) {
        Ok(alt) => Ok(alt),
        Err(fault) => Err(BindError::Fault(BindFault {
            entry,
            item: fault.item,
            why: fault.why,
        })),
    }
}

/// The condition of the alternatives of a search, and its pins. `Fault` comes exactly where one of
/// their terms can't be bound, with the number of the alternative as its entry.
pub fn bind_words(alloc: Global, chains: &[ChainWord], names: &Names) -> Result<Wanted, BindError>
    requires { IsReadable Find chains.now }
    ensures chooses { (alternatives : List (List Meaning)) → AreTerms chains.now alternatives
        → Chooses names.now alternatives result }
    ensures below { IfOk result (λ wanted. AllBelow (length names.now) wanted.pins.items) }
{
    let mut pins = Pins::new();
    let mut cond = match bind_word(alloc, 0, &chains[0], names, &mut pins) {
        Ok(alt) => Cond::one(alt),
        Err(error) => return Err(error),
    };
    for entry in 1..chains.len() {
        match bind_word(alloc, entry as u32, &chains[entry], names, &mut pins) {
            Ok(alt) => cond.add(alt),
            Err(error) => return Err(error),
        }
    }
    Ok(Wanted { cond, pins })
}
