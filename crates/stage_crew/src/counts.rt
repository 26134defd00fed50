// How many marks of each stage were gathered since it was notified.
use crate::MOST_STAGES;
use crate::status::CrewStatus;

/// The driver notifies a stage only once it has gathered many of its marks, or before it sleeps: who
/// is woken for each few finds little room, and sleeps again at once.
#[derive(Drop)]
pub(crate) struct GatheredCounts {
    counts: [usize; MOST_STAGES],
}

impl GatheredCounts {
    pub(crate) fn new() -> GatheredCounts {
        GatheredCounts {
            counts: [0; MOST_STAGES],
        }
    }

    /// So many marks of the stage at this place were gathered.
    pub(crate) fn add(&mut self, place: usize, count: usize) {
        if let Some(so_far) = self.counts.get_mut(place) {
            *so_far = so_far.saturating_add(count);
        }
    }

    /// Notifies those of which at least so many were gathered.
    pub(crate) fn notify(&mut self, crew: &CrewStatus, least: usize) {
        for place in 0..MOST_STAGES {
            if self.counts[place] >= least {
                self.counts[place] = 0;
                crew.notify_stage(place);
            }
        }
    }
}
