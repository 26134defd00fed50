// A list in groups of a size.
ghost use Rattle.std.specs.Prelude.{◌≡◌, IfOk, map};
ghost use Rattle.list_cuts.specs.Groups.{groups, after_groups};

use std::alloc::{AllocError, Global};

/// The whole groups of `size` items, in order; what they leave is in none. There is no group of no
/// item.
pub fn groups_of<T: Copy>(alloc: Global, size: usize, list: &[T]) -> Result<Vec<Vec<T>>, AllocError>
    ensures { IfOk result (λ lists. map (λ group. group.items) lists.items ≡ groups size list.now) }
{
    let mut lists = Vec::new(alloc);
    if size == 0 {
        return Ok(lists);
    }
    let mut rest = list;
    while size <= rest.len() {
        let (group, behind) = rest.split_at(size);
        lists.push(Vec::from_slice(alloc, group)?)?;
        rest = behind;
    }
    Ok(lists)
}

/// What the whole groups of `size` items leave: fewer items than a group has. Groups of no item
/// leave the whole list.
pub fn after_groups_of<T: Copy>(size: usize, list: &[T]) -> &[T]
    ensures { result.now ≡ after_groups size list.now }
{
    if size == 0 {
        return list;
    }
    let mut left = list;
    while size <= left.len() {
        let (_, behind) = left.split_at(size);
        left = behind;
    }
    left
}
