// Laws of checks, as functions that do nothing.
ghost use Rattle.check_point.specs.CheckLaws.{OneWord};
ghost use Rattle.check_point.specs.laws.EntryLaws.{one_word};

/// A word is one check at most. (A law; nothing is done.)
pub fn a_word_is_one_check()
    ensures { OneWord }
{}
