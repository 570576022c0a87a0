//! Replies in the order of the calls.
ghost use Rattle.std.specs.Prelude.{◌≡◌, length, map, zip, IfOk, IsPermutation};
ghost use Rattle.std.specs.List.{range_with_len};
ghost use Rattle.reply_order.specs.Order.{AreInOrder};

use std::alloc::{AllocError, Global};

/// Each reply with its place.
fn with_places<R: Drop>(
    alloc: Global,
    places: &[usize],
    replies: Vec<R>,
) -> Result<Vec<(usize, R)>, AllocError>
    requires count { length replies.items ≡ length places.now }
    ensures { IfOk result (λ pairs. pairs.items ≡ zip places.now replies.items) }
{
    places.iter().copied().zip(replies).collect(alloc)
}

/// The replies without their places.
fn without_places<R: Drop>(alloc: Global, pairs: Vec<(usize, R)>) -> Result<Vec<R>, AllocError>
    ensures { IfOk result (λ replies. replies.items ≡ map (λ pair. pair.1) pairs.items) }
{
    pairs.into_iter().map(|pair| pair.1).collect(alloc)
}

/// Puts replies into the order of the calls. `places` has, for each reply, the index of its call.
///
/// Time: that of sorting them. Memory: proportional to the replies.
pub fn in_call_order<R: Drop>(
    alloc: Global,
    places: &[usize],
    replies: Vec<R>,
) -> Result<Vec<R>, AllocError>
    requires places { IsPermutation (range_with_len 0 (length places.now)) places.now }
    requires count { length replies.items ≡ length places.now }
    ensures { IfOk result (λ ordered. AreInOrder places.now replies.items ordered.items) }
{
    let mut pairs = with_places(alloc, places, replies)?;
    pairs.sort_unstable_by_key(|pair| pair.0);
    without_places(alloc, pairs)
}
