// How a tree is run with threads.
ghost use Rattle.std.specs.Prelude.{◌≤◌};

use std::alloc::Global;

/// With a thread for each machine, and links of so many slots between them, 1 to 16,384. `pacer`
/// tells how much a machine does in a turn.
#[derive(Drop)]
pub struct InThreads<'a, R, P> {
    pub runtime: &'a R,
    pub alloc: Global,
    pub slots: u32,
    pub pacer: &'a P,
    ghost room: { (1 ≤ slots) × (slots ≤ 16384) },
}
