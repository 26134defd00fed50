// For how many items links have room.
ghost use Rattle.std.specs.Prelude.{◌≤◌};

/// For how many items the links of a tree have room: those on which runs are sent, and all others.
#[derive(Clone, Copy)]
pub(crate) struct Rooms {
    pub(crate) half_runs: u32,
    pub(crate) others: u32,
    ghost half_runs_fit: { (1 ≤ half_runs) × (half_runs ≤ 16384) },
    ghost others_fit: { (1 ≤ others) × (others ≤ 16384) },
}

// One item in the first slot of a link, and so many in each other, up to the most that a link has.
fn room_of(slots: u32, each: u32) -> u32
    requires slots { (1 ≤ slots) × (slots ≤ 16384) }
    requires each { each ≤ 64 }
    ensures { (1 ≤ result) × (result ≤ 16384) }
{
    (1 + (slots - 1) * each).min(16384)
}

/// The rooms of links of so many slots. A half run takes a third of the memory that a packet or a mark
/// takes, and there are more of them.
pub(crate) fn rooms_of(slots: u32) -> Rooms
    requires { (1 ≤ slots) × (slots ≤ 16384) }
{
    Rooms {
        half_runs: room_of(slots, 24),
        others: room_of(slots, 8),
    }
}
