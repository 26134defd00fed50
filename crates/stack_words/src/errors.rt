// Faults as errors.
ghost use Rattle.std.specs.Prelude.{◌≡◌, Some, option_map};
ghost use Rattle.stack_words.specs.Meaning.{stack_fault_in, why_in};

use crate::instance::Refused;
use crate::{StackError, StackFault, StackWhy};

/// A fault at a place of a word.
pub fn fault(word: u32, at: u32, why: StackWhy) -> StackError
    ensures { stack_fault_in result ≡ Some (record { word = word; at = at; why = why }) }
{
    StackError::Fault(StackFault { word, at, why })
}

/// What was refused, at a place of a word.
pub fn refusal(word: u32, at: u32, refused: Refused) -> StackError
    ensures { stack_fault_in result
        ≡ option_map (λ why. record { word = word; at = at; why = why }) (why_in refused) }
{
    match refused {
        Refused::Why(why) => fault(word, at, why),
        Refused::NoMemory => StackError::NoMemory,
    }
}
