// Laws of raw captures, each on a function that does nothing.
ghost use Rattle.capture_raw.specs.Laws.{LongerExtends, FaultStays, StandsFixes, GivenIsFront};
ghost use Rattle.capture_raw.specs.Laws.{SamplesAreLevels};

/// The settled samples of bytes that are cut are the first of those of every longer input.
pub fn longer_extends()
    ensures { LongerExtends }
{}

/// A fault that bytes hold that are cut is the fault of every longer input, with the same samples.
pub fn fault_stays()
    ensures { FaultStays }
{}

/// What a reader holds follows from its channels, the bytes that it took and the samples that it
/// gave.
pub fn stands_fixes()
    ensures { StandsFixes }
{}

/// What a reader has given are the first samples that the bytes settle which it took.
pub fn given_is_front()
    ensures { GivenIsFront }
{}

/// Bit j of a sample is channel `pins[j]`: channel i is bit `i % 8` of byte `i / 8` of the unit.
pub fn samples_are_levels()
    ensures { SamplesAreLevels }
{}
