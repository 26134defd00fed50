// Laws of captures, each on a function that does nothing.
ghost use Rattle.capture_any.specs.Laws.{LongerExtends, FaultStays, HeadStays, PinsLeaveTheHead};
ghost use Rattle.capture_any.specs.Laws.{PinsLeaveTheEnding, GivenIsFront};

/// The settled samples of bytes that are cut are the first of those of every longer input.
pub fn longer_extends()
    ensures { LongerExtends }
{}

/// A fault that bytes hold that are cut is the fault of every longer input, with the same samples.
pub fn fault_stays()
    ensures { FaultStays }
{}

/// A head that bytes hold that are cut is the head of every longer input.
pub fn head_stays()
    ensures { HeadStays }
{}

/// Which channels are selected says nothing of the head.
pub fn pins_leave_the_head()
    ensures { PinsLeaveTheHead }
{}

/// Which channels are selected says nothing of how the bytes end.
pub fn pins_leave_the_ending()
    ensures { PinsLeaveTheEnding }
{}

/// What a reader has given are the first samples that the bytes settle which it took.
pub fn given_is_front()
    ensures { GivenIsFront }
{}
