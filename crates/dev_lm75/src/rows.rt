// Rows that are worked by hand.
ghost use Rattle.std.specs.Prelude.{◌≡◌};
ghost use Rattle.dev_lm75.specs.Rows.{KeptPointer, NothingOfOthers, ReadTemperature, Thresholds};
ghost use Rattle.dev_lm75.specs.Rows.{WriteConfiguration};

/// The definition gives what was worked by hand. (Nothing is done.)
pub fn rows_hold()
    ensures read { ReadTemperature }
    ensures write { WriteConfiguration }
    ensures kept { KeptPointer }
    ensures pairs { Thresholds }
    ensures others { NothingOfOthers }
{}
