// Rows that are worked by hand.
ghost use Rattle.std.specs.Prelude.{◌≡◌};
ghost use Rattle.dev_flash25.specs.Rows.{Erased, Identified, OnlyFirstSelect, OverTheEnd};
ghost use Rattle.dev_flash25.specs.Rows.{Programmed, ReadFast, ReadTwo, Statuses};

/// The definition gives what was worked by hand. (Nothing is done.)
pub fn rows_hold()
    ensures read { ReadTwo }
    ensures fast { ReadFast }
    ensures program { Programmed }
    ensures end { OverTheEnd }
    ensures erase { Erased }
    ensures id { Identified }
    ensures status { Statuses }
    ensures select { OnlyFirstSelect }
{}
