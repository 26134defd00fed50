// Rows that are worked by hand.
ghost use Rattle.std.specs.Prelude.{◌≡◌};
ghost use Rattle.dec_midi.specs.Rows.{Chord, Cut, Exclusive, OpenExclusive, OtherMessages, Passed};
ghost use Rattle.dec_midi.specs.Rows.{NineBits, Running, Strays};

/// The definition gives what was worked by hand. (Nothing is done.)
pub fn rows_hold()
    ensures chord { Chord }
    ensures exclusive { Exclusive }
    ensures running { Running }
    ensures cut { Cut }
    ensures strays { Strays }
    ensures others { OtherMessages }
    ensures passed { Passed }
    ensures open { OpenExclusive }
    ensures nine { NineBits }
{}
