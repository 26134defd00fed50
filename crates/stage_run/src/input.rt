// What a stage receives: half runs, or packets.
use la_base::{Feed, HALF_BITS, Run, Word, low_half};
use stage_ring::Rx;

/// What a link to a stage that stands on nothing carries: `len` samples in a row, all alike, with
/// `value` on the lower half of their lines, and on the upper half what was told last, 0 at first.
/// A half run of no samples tells the upper half of those behind it; it is the end where that was
/// told already. So a run takes half the room that its whole value would, and mostly one item.
#[derive(Clone, Copy, PartialEq, Eq)]
pub struct HalfRun {
    pub value: u64,
    pub len: u64,
}

impl HalfRun {
    ghost use Rattle.std.specs.Prelude.{◌≡◌};
    ghost use Rattle.stage_run.specs.Inputs.{half_run_of, telling, whole_value};

    /// The half run of a run, where the upper half of its lines was told.
    #[inline(always)]
    pub fn of(run: Run) -> HalfRun
        ensures { result ≡ half_run_of run }
    {
        HalfRun {
            value: low_half(run.value),
            len: run.len,
        }
    }

    /// Tells the upper half of the lines; or the end, where that was told already.
    pub fn telling(upper: u64) -> HalfRun
        ensures { result ≡ telling upper }
    {
        HalfRun {
            value: upper,
            len: 0,
        }
    }

    /// The value of its samples.
    #[inline(always)]
    pub(crate) fn whole(self, upper: u64) -> Word
        ensures { result ≡ whole_value upper self.value }
    {
        upper as Word * (1 << HALF_BITS) + self.value as Word
    }
}

/// The end of a link that a stage receives from.
#[derive(Drop)]
pub enum Input {
    /// Samples: the stage stands on nothing.
    Samples(Rx<HalfRun>),
    /// Packets: the stage stands on another.
    Packets(Rx<Feed>),
}
