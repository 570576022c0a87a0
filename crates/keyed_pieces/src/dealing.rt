//! Dealing the operations of a batch to groups, and merging the replies of the groups.
ghost use Rattle.std.specs.Prelude.{◌≡◌, ◌<◌, [], length, replicate, IfOk};
ghost use Rattle.std.specs.List.{AllByRecursion};
ghost use Rattle.keyed_pieces.specs.Ranges.{merged};
ghost use Rattle.keyed_pieces.specs.Dealing.{dealt, lists, queued, HaveReplies};

use std::alloc::{AllocError, Global};
use std::collections::VecDeque;

/// The initial capacity of a group's vector: most groups have no more items.
const FEW: usize = 4;

/// `count` empty vectors, each with room for `FEW` items.
fn empty_vectors<T: Drop>(alloc: Global, count: usize) -> Result<Vec<Vec<T>>, AllocError>
    ensures { IfOk result (λ v. lists v.items ≡ replicate count []) }
{
    let mut vectors = Vec::with_capacity(alloc, count)?;
    for _ in 0..count {
        vectors.push(Vec::with_capacity(alloc, FEW)?)?;
    }
    Ok(vectors)
}

/// Deals items to `count` groups, each of which keeps the order of its items. `groups` has the group of each item.
pub fn deal<T: Copy>(
    alloc: Global,
    items: &[T],
    groups: &[usize],
    count: usize,
) -> Result<Vec<Vec<T>>, AllocError>
    requires same { length groups.now ≡ length items.now }
    requires below { AllByRecursion (λ group. group < count) groups.now }
    ensures { IfOk result (λ v. lists v.items ≡ dealt count groups.now items.now) }
{
    let mut all = empty_vectors(alloc, count)?;
    for at in 0..items.len() {
        all[groups[at]].push(items[at])?;
    }
    Ok(all)
}

/// Merges the replies of groups into the order of the items: each item gets the next reply of its group. `groups` has
/// the group of each item.
pub fn merge<R: Drop>(
    alloc: Global,
    groups: &[usize],
    replies: Vec<VecDeque<R>>,
) -> Result<Vec<R>, AllocError>
    requires { HaveReplies groups.now (queued replies.items) }
    ensures { IfOk result (λ v. (none : _) → v.items ≡ merged none groups.now (queued replies.items)) }
{
    let mut replies = replies;
    let mut all = Vec::with_capacity(alloc, groups.len())?;
    for group in groups {
        if let Some(reply) = replies[*group].pop_front() {
            all.push(reply)?;
        }
    }
    Ok(all)
}
