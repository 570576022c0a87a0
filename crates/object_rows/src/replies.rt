//! Replies at the places of their calls.
ghost use Rattle.std.specs.Prelude.{◌≡◌, ◌≤◌, ◌<◌, ◌-◌, length, take, drop, IfOk};
ghost use Rattle.std.specs.List.{AllByRecursion};
ghost use Rattle.object_rows.specs.Code.Dealt.{put_at};

use crate::dealt::Dealt;
use seq_objects::{Call, Reply};
use std::alloc::{AllocError, Global};

/// As many replies as there are calls, all `Empty`.
pub(crate) fn empty_replies(alloc: Global, calls: &[Call]) -> Result<Vec<Reply>, AllocError>
    ensures { IfOk result (λ v. length v.items ≡ length calls.now) }
{
    let mut replies = Vec::with_capacity(alloc, calls.len())?;
    for _place in 0..calls.len() {
        replies.push(Reply::Empty)?;
    }
    Ok(replies)
}

/// Puts the replies to the calls of the last number at their places, and takes these calls out.
pub(crate) fn put_last(replies: &mut Vec<Reply>, dealt: &mut Vec<Dealt>, own: &[Reply])
    requires count { length own.now ≤ length dealt.old.items }
    requires places { AllByRecursion (λ one. one.place < length replies.old.items) dealt.old.items }
    ensures put { replies.new.items
        ≡ put_at (drop (length dealt.old.items - length own.now) dealt.old.items) own.now replies.old.items }
    ensures left { dealt.new.items ≡ take (length dealt.old.items - length own.now) dealt.old.items }
{
    let first = dealt.len() - own.len();
    for index in 0..own.len() {
        replies[dealt[first + index].place] = own[index];
    }
    dealt.truncate(first);
}
