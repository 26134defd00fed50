// What holds of terms that are bound, as a function that does nothing: its contract is the law.
ghost use Rattle.cond_words.specs.Holding.{MetWhereTermsHold};

/// An alternative that terms are bound to is met at a sample exactly where each of the terms holds:
/// each letter of the channel of its reference, and each skip.
pub fn bound_terms_are_what_is_met()
    ensures { MetWhereTermsHold }
{}
