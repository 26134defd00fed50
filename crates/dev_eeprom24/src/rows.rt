// Rows that are worked by hand.
ghost use Rattle.std.specs.Prelude.{◌≡◌};
ghost use Rattle.dev_eeprom24.specs.Rows.{KeptPointer, NothingOfOthers, OtherCommand, RandomRead};
ghost use Rattle.dev_eeprom24.specs.Rows.{ResetPointer, RolledOver, TwoBytes};

/// The definition gives what was worked by hand. (Nothing is done.)
pub fn rows_hold()
    ensures read { RandomRead }
    ensures write { RolledOver }
    ensures reset { ResetPointer }
    ensures kept { KeptPointer }
    ensures long { TwoBytes }
    ensures others { NothingOfOthers }
    ensures command { OtherCommand }
{}
