// What a turn of a stage did, and each of its acts.
ghost use Rattle.std.specs.Prelude.{◌≡◌};
ghost use Rattle.stage_run.specs.Acts.{act_by};

/// What a turn did.
#[derive(Clone, Copy, PartialEq, Eq)]
pub enum Turn {
    /// It gave or took something, or less is left to do.
    Moved,
    /// It did nothing, since a link had no room or nothing to take.
    Idle,
    /// The end was taken, and all was given.
    Ended,
}

/// Who is at the other end of a link of a stage: the one that it receives from, the driver, which
/// gathers its marks, or the child at a place.
#[derive(Clone, Copy, PartialEq, Eq)]
pub enum Peer {
    Upstream,
    Driver,
    Child(usize),
}

/// A set of these; of the children a bit for each place.
#[derive(Clone, Copy, PartialEq, Eq)]
pub struct Peers {
    pub upstream: bool,
    pub driver: bool,
    pub children: u32,
}

impl Peers {
    /// None of them.
    pub fn none() -> Peers {
        Peers {
            upstream: false,
            driver: false,
            children: 0,
        }
    }

    /// These and one more. A stage has fewer than 32 children.
    #[inline]
    pub fn with(self, peer: Peer) -> Peers {
        match peer {
            Peer::Upstream => Peers {
                upstream: true,
                ..self
            },
            Peer::Driver => Peers {
                driver: true,
                ..self
            },
            Peer::Child(place) => Peers {
                children: self.children | 1u32.wrapping_shl(place.min(31) as u32),
                ..self
            },
        }
    }
}

/// What one act did.
#[derive(Clone, Copy, PartialEq, Eq)]
pub(crate) enum Act {
    /// It gave and took nothing, and didn't try to.
    Worked,
    /// It gave or took something.
    Passed,
    /// It gave something, but not all, since the link had no more room.
    Short,
    /// It gave or took nothing, since the link had no room or nothing to take.
    Missed,
    /// There was nothing left to do.
    Ended,
}

/// The act that gave some of what was kept.
#[inline(always)]
pub(crate) fn act_of(given: usize, kept: usize) -> Act
    ensures { result ≡ act_by given kept }
{
    if given < kept {
        if given > 0 { Act::Short } else { Act::Missed }
    } else {
        if given > 0 { Act::Passed } else { Act::Worked }
    }
}

/// What several acts did.
#[derive(Clone, Copy, PartialEq, Eq)]
pub(crate) struct Progress {
    /// Something was given or taken.
    pub(crate) passed: bool,
    /// A link had no room or nothing to take.
    pub(crate) missed: bool,
    /// It has worked.
    pub(crate) worked: bool,
}

#[inline(always)]
pub(crate) fn progressed(passed: bool, missed: bool, worked: bool) -> Progress
    ensures { (result.passed ≡ passed) × (result.missed ≡ missed) × (result.worked ≡ worked) }
{
    Progress {
        passed,
        missed,
        worked,
    }
}
