//! A FIFO queue, and how it serves operations as a batch.
ghost use Rattle.std.specs.Prelude.{◌≡◌, ◌≤◌, ⊤, [], length, map, All, IfOk, OnErr};
ghost use Rattle.std.specs.List.{AllByRecursion};
ghost use Rattle.shared_calls.specs.Serial.{IsServedInSomeOrder};
ghost use Rattle.shared_collections.specs.Fifos.{fifo};
ghost use Rattle.shared_collections.specs.Code.Fifos.{item_in, own_reply};
ghost use Rattle.shared_collections.specs.Code.Numbers.{AreSmall, IsSmall, number_in};
ghost use Rattle.limits.specs.declared.TheConstants.{MOST_WORKERS};

use crate::numbers::small_number;
use batched_queue::{FifoCall, FifoQueue, in_batch_order};
use reply_order::in_call_order;
use seq_objects::Reply;
use shared_calls::Combined;
use std::alloc::{AllocError, Global};

/// An operation of a queue.
#[derive(Clone, Copy)]
pub enum FifoOp {
    /// Puts the item at the end.
    Put(u32),
    /// Takes the oldest item.
    Get,
}

/// The reply to an operation.
#[derive(Clone, Copy)]
pub enum FifoReply {
    /// The item was put.
    Done,
    /// The item that was taken, or none where there was no item.
    Got(Option<u32>),
}

/// A FIFO queue of numbers below 2^32.
#[derive(Drop)]
pub struct Fifo {
    pub(crate) queue: FifoQueue,
    ghost fits: { AreSmall queue },
}

/// The item of a put; a get has none.
fn item_in(op: FifoOp) -> Option<u32>
    ensures item { result ≡ item_in op }
    ensures fits { IsSmall result }
{
    match op {
        FifoOp::Put(item) => Some(item),
        FifoOp::Get => None,
    }
}

/// The items of operations.
fn items_of(alloc: Global, ops: &[FifoOp]) -> Result<Vec<Option<u32>>, AllocError>
    ensures items { IfOk result (λ v. v.items ≡ map item_in ops.now) }
    ensures fit { IfOk result (λ v. AllByRecursion IsSmall v.items) }
{
    let mut items = Vec::with_capacity(alloc, ops.len())?;
    for op in ops {
        items.push(item_in(*op))?;
    }
    Ok(items)
}

/// The places of calls among the operations of their batch.
fn places_of(alloc: Global, calls: &[FifoCall]) -> Result<Vec<usize>, AllocError>
    ensures { IfOk result (λ v. v.items ≡ map (λ call. call.worker) calls.now) }
{
    calls.iter().map(|call| call.worker as usize).collect(alloc)
}

/// A reply of the queue as a reply to an operation.
fn own_reply(reply: Reply) -> FifoReply
    requires { IsSmall (number_in reply) }
    ensures { result ≡ own_reply reply }
{
    match reply {
        Reply::Unit => FifoReply::Done,
        _ => FifoReply::Got(small_number(reply)),
    }
}

/// The replies as replies to operations.
fn own_replies(alloc: Global, replies: &[Reply]) -> Result<Vec<FifoReply>, AllocError>
    requires { AllByRecursion (λ reply. IsSmall (number_in reply)) replies.now }
    ensures { IfOk result (λ v. v.items ≡ map own_reply replies.now) }
{
    let mut all = Vec::with_capacity(alloc, replies.len())?;
    for reply in replies {
        all.push(own_reply(*reply))?;
    }
    Ok(all)
}

impl Fifo {
    /// A queue without items.
    pub(crate) fn new(alloc: Global) -> Result<Fifo, AllocError>
        ensures { IfOk result (λ f. f.queue ≡ []) }
    {
        let queue = FifoQueue::new(alloc)?;
        Ok(Fifo { queue })
    }

    /// The queue itself.
    pub(crate) fn into_queue(self) -> FifoQueue
        ensures { result ≡ self.queue }
    {
        let Fifo { queue } = self;
        queue
    }
}

impl Combined for Fifo {
    type Op = FifoOp;

    type Reply = FifoReply;

    ghost object = { fifo };

    ghost content = { λ f. f.queue };

    ghost fails = { λ f ops. ⊤ };

    fn serve(self, alloc: Global, ops: Vec<FifoOp>) -> Result<(Fifo, Vec<FifoReply>), AllocError>
        requires few { length ops.items ≤ MOST_WORKERS }
        ensures served { IfOk result (λ p. IsServedInSomeOrder fifo self.queue ops.items p.1.items p.0.queue) }
        ensures failed { OnErr result ⊤ }
    {
        let items = items_of(alloc, &ops)?;
        let calls = in_batch_order(alloc, &items)?;
        let (queue, replies) = self.into_queue().serve(alloc, &calls)?;
        let replies = own_replies(alloc, &replies)?;
        let places = places_of(alloc, &calls)?;
        let replies = in_call_order(alloc, &places, replies)?;
        Ok((Fifo { queue }, replies))
    }
}
