// Rows that are worked by hand.
ghost use Rattle.std.specs.Prelude.{◌≡◌};
ghost use Rattle.dev_ds1307.specs.Rows.{KeptRegister, NothingOfOthers, ReadTime, ResetRegister};
ghost use Rattle.dev_ds1307.specs.Rows.{RolledOver, SetTime, TimeFromTheMiddle};

/// The definition gives what was worked by hand. (Nothing is done.)
pub fn rows_hold()
    ensures read { ReadTime }
    ensures write { SetTime }
    ensures rolled { RolledOver }
    ensures middle { TimeFromTheMiddle }
    ensures reset { ResetRegister }
    ensures kept { KeptRegister }
    ensures others { NothingOfOthers }
{}
