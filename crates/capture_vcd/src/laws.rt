// Laws of VCD captures, each on a function that does nothing.
ghost use Rattle.capture_vcd.specs.Laws.{LongerGoesOn, PinsLeaveTheEnding, PinsLeaveTheHead};
ghost use Rattle.capture_vcd.specs.Reader.{GivenIsFront};
ghost use Rattle.capture_vcd.specs.Stretches.{StretchIsRun};
ghost use Rattle.capture_vcd.specs.Worked.{Faults, WorkedFiles, Sparse};

/// Worked files, whose samples and endings the definition computes: vectors, values of x, times
/// that fall, samples between changes, sections that are passed over.
pub fn worked_files_hold()
    ensures { WorkedFiles }
{}

/// A worked file of 2^40 samples.
pub fn sparse_holds()
    ensures { Sparse }
{}

/// A longer input keeps the samples, the fault and the head of a front that is cut.
pub fn longer_goes_on()
    ensures { LongerGoesOn }
{}

/// The samples from the last time on and before the next one are one run.
pub fn stretch_is_run()
    ensures { StretchIsRun }
{}

/// Worked files at fault, and some that look so and aren't.
pub fn faults_hold()
    ensures { Faults }
{}

/// Which channels are selected says nothing of the head.
pub fn pins_leave_the_head()
    ensures { PinsLeaveTheHead }
{}

/// Which channels are selected says nothing of how a capture ends.
pub fn pins_leave_the_ending()
    ensures { PinsLeaveTheEnding }
{}

/// What a reader has given is a front of what the bytes that it took settle.
pub fn given_is_front()
    ensures { GivenIsFront }
{}
