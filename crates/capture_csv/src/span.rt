// The times of records, and what the fields of one say.
ghost use Rattle.std.specs.Prelude.{◌*◌, ◌^◌, ◌≤◌, ◌<◌};

/// The first time and the last one, and the sample of the last.
#[derive(Clone, Copy, PartialEq, Eq)]
pub struct Span {
    pub start: u128,
    pub last: u128,
    pub at: u64,
    ghost in_order: { start ≤ last },
    ghost early: { last < 2 * 10 ^ 22 },
    ghost few: { at < 2 ^ 60 },
}

/// What the fields of a record say, besides the levels: the time, where it tells one, and the
/// column of the first field that is no level.
#[derive(Clone, Copy, PartialEq, Eq)]
pub struct Found {
    pub time: Option<u128>,
    pub bad: Option<u32>,
}
