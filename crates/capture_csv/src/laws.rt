// Laws of CSV captures, each on a function that does nothing.
ghost use Rattle.capture_csv.specs.Laws.{LongerGoesOn, PinsLeaveTheEnding, PinsLeaveTheHead};
ghost use Rattle.capture_csv.specs.Plain.{PlainIsSplit, SimpleIsRead};
ghost use Rattle.capture_csv.specs.Reader.{GivenIsFront};
ghost use Rattle.capture_csv.specs.Worked.{WorkedLines, WorkedRows, WorkedTimes};

/// Worked lines, whose fields the definition computes.
pub fn worked_lines_hold()
    ensures { WorkedLines }
{}

/// Worked captures of which each record is a sample.
pub fn worked_rows_hold()
    ensures { WorkedRows }
{}

/// Worked captures whose records have times.
pub fn worked_times_hold()
    ensures { WorkedTimes }
{}

/// The fields of a line without quotes are its parts between commas.
pub fn plain_is_split()
    ensures { PlainIsSplit }
{}

/// The fields of a line each of whose fields is plain or one quoted text are these texts.
pub fn simple_is_read()
    ensures { SimpleIsRead }
{}

/// A longer input keeps the samples, the fault and the head of a front that is cut.
pub fn longer_goes_on()
    ensures { LongerGoesOn }
{}

/// Which channels are selected says nothing of the head.
pub fn pins_leave_the_head()
    ensures { PinsLeaveTheHead }
{}

/// Which channels are selected says nothing of how a capture ends.
pub fn pins_leave_the_ending()
    ensures { PinsLeaveTheEnding }
{}

/// What a reader has given is a front of what the bytes that it took settle.
pub fn given_is_front()
    ensures { GivenIsFront }
{}
