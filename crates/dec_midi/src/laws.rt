// A law of the definition, on a function that does nothing.
ghost use Rattle.dec_midi.specs.RealTime.{RealTimeStandsAlone};

/// Bytes of real time change no other note: without them all others are the same. So who reads the
/// other notes needn't know of real time. (A law; nothing is done.)
pub fn real_time_changes_no_other_note()
    ensures { RealTimeStandsAlone }
{}
