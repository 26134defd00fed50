// Bounds of instances.
ghost use Rattle.std.specs.Prelude.{◌≡◌, All, IfOk, length};

use la_base::NoMemory;
use std::alloc::Global;

/// The same bound for each of so many instances.
pub fn same_bounds(
    alloc: Global,
    count: u32,
    bound: Option<u64>,
) -> Result<Vec<Option<u64>>, NoMemory>
    ensures { IfOk result (λ bounds. (length bounds.items ≡ count)
        × All (λ one. one ≡ bound) bounds.items) }
{
    let mut bounds = Vec::new(alloc);
    for _ in 0..count {
        match bounds.push(bound) {
            Ok(()) => {}
            Err(_) => return Err(NoMemory),
        }
    }
    Ok(bounds)
}
