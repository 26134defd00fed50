// What a run stands on.
use decode_job::InThreads;
use std::alloc::Global;
use words::Settings;

/// What a run stands on: what starts threads and waits for them, memory, and how much a decoder
/// does in a turn.
#[derive(Drop)]
pub struct Host<'a, R, P> {
    /// What starts threads and waits.
    pub runtime: &'a R,
    /// Where memory comes from.
    pub alloc: Global,
    /// How much a decoder does in a turn.
    pub pacer: &'a P,
}

impl<'a, R, P> Host<'a, R, P> {
    /// With a thread for each decoder, and rings of as many slots as the settings say.
    pub(crate) fn in_threads(&self, settings: &Settings) -> InThreads<'a, R, P> {
        InThreads {
            runtime: self.runtime,
            alloc: self.alloc,
            slots: settings.ring.clamp(1, 16384),
            pacer: self.pacer,
        }
    }
}
