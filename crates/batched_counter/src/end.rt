//! Combines the sums of the pieces into replies and a new number.
ghost use Rattle.std.specs.Prelude.{◌≡◌, ◌+◌, ◌<◌, ◌++◌, ◌^◌, IfOk, OnOk};
ghost use Rattle.std.specs.List.{AllByRecursion};
ghost use Rattle.batched_counter.specs.Code.End.{CanJoin, all_replies, number_replies, number_after};

use crate::piece::Served;
use seq_objects::Reply;
use std::alloc::{AllocError, Global};

/// Appends the replies to a piece's calls. `base` is the number before the piece.
fn push_numbers(replies: &mut Vec<Reply>, base: u64, prefixes: &[u64]) -> Result<(), AllocError>
    requires { AllByRecursion (λ prefix. base + prefix < 2 ^ 64) prefixes.now }
    ensures { OnOk result (replies.new.items ≡ replies.old.items ++ number_replies base prefixes.now) }
{
    for prefix in prefixes {
        replies.push(Reply::Number(base + *prefix))?;
    }
    Ok(())
}

/// The number after a batch, and the replies to its calls. `calls` is only the capacity that the replies are given.
pub(crate) fn join_pieces(
    alloc: Global,
    number: u64,
    calls: usize,
    outs: &[Served],
) -> Result<(u64, Vec<Reply>), AllocError>
    requires { CanJoin number outs.now }
    ensures number { IfOk result (λ p. p.0 ≡ number_after number outs.now) }
    ensures replies { IfOk result (λ p. p.1.items ≡ all_replies number outs.now) }
{
    let mut replies = Vec::with_capacity(alloc, calls)?;
    let mut base = number;
    for out in outs {
        push_numbers(&mut replies, base, &out.prefixes)?;
        base += out.total;
    }
    Ok((base, replies))
}
