// Rows that are worked by hand.
ghost use Rattle.std.specs.Prelude.{◌≡◌};
ghost use Rattle.dec_modbus.specs.Rows.{AtGap, BeforeEnd, BelowGap, Broken, Exception, LineError};
ghost use Rattle.dec_modbus.specs.Rows.{Longest, NearEnded, NearOpen, NineBits, RequestBad};
ghost use Rattle.dec_modbus.specs.Rows.{RequestOk, Shortest, TooLong};

/// The definition gives what was worked by hand. (Nothing is done.)
pub fn rows_hold()
    ensures good { RequestOk }
    ensures bad { RequestBad }
    ensures below { BelowGap }
    ensures at { AtGap }
    ensures before { BeforeEnd }
    ensures broken { Broken }
    ensures exception { Exception }
    ensures error { LineError }
    ensures nine { NineBits }
    ensures shortest { Shortest }
    ensures longest { Longest }
    ensures too_long { TooLong }
    ensures open { NearOpen }
    ensures ended { NearEnded }
{}
