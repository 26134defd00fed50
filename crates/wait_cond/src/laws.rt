// What holds of stops and waiters, as functions that do nothing: each contract is a law.
ghost use Rattle.wait_cond.specs.StopLaws.{ChainStays, GoOn, NoneStays, OneList, OneStop};
ghost use Rattle.wait_cond.specs.Waiting.{OneWaiter, EveryList};

/// A wait has one stop at most: two are equal in place and set.
pub fn a_wait_has_one_stop()
    ensures { OneStop }
{}

/// A list of samples has one list of all stops.
pub fn samples_have_one_list_of_stops()
    ensures { OneList }
{}

/// The stops of a longer list of samples go on from those of the shorter one, and each chain of
/// stops of the shorter one is a chain of the longer one. What meets nothing in a front meets
/// nothing in the whole.
pub fn stops_go_on_with_samples()
    ensures go_on { GoOn }
    ensures stays { ChainStays }
    ensures none { NoneStays }
{}

/// Two waiters with equal alternatives and last stops that stand for the same samples are equal,
/// and a waiter stands for every list of samples that its numbers allow.
pub fn samples_make_the_waiter()
    ensures one { OneWaiter }
    ensures every { EveryList }
{}
