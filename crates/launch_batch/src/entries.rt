//! Makes the batch of served calls.
ghost use Rattle.std.specs.Prelude.{◌≡◌, length, IfOk};
ghost use Rattle.batch_history.specs.Serving.{call_in, calls_in, replies_in};

use batch_history::{Batch, Entry};
use seq_objects::{Call, Reply};
use std::alloc::{AllocError, Global};

/// The entry of a call and its reply.
fn entry_of(call: Call, reply: Reply) -> Entry
    ensures call { call_in result ≡ call }
    ensures reply { result.reply ≡ reply }
{
    Entry {
        leaf: call.leaf,
        worker: call.worker,
        op: call.op,
        reply,
    }
}

/// The batch of the calls, each with the reply at its index.
pub(crate) fn batch_of(
    alloc: Global,
    calls: &[Call],
    replies: &[Reply],
) -> Result<Batch, AllocError>
    requires { length replies.now ≡ length calls.now }
    ensures calls { IfOk result (λ batch. calls_in batch ≡ calls.now) }
    ensures replies { IfOk result (λ batch. replies_in batch ≡ replies.now) }
{
    if let [call] = calls {
        if let [reply] = replies {
            return Ok(Batch::of_one(entry_of(*call, *reply)));
        }
    }
    let mut entries = Vec::with_capacity(alloc, calls.len())?;
    for place in 0..calls.len() {
        entries.push(entry_of(calls[place], replies[place]))?;
    }
    Ok(Batch::of(entries))
}
