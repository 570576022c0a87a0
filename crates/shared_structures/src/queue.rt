//! A priority queue that threads share.
ghost use Rattle.std.specs.Prelude.{◌≡◌, ◌≤◌, List, [], length, false, ⊤, Some, None, IfOk, IfErr, OnOk, OnErr, IfSome, IfNone, OnSome};
ghost use Rattle.std.proofs.Props.{props};
ghost use Rattle.shared_calls.specs.declared.view.Entry.{Entry as EntryOf};
ghost use Rattle.shared_calls.specs.Serial.{IsServedInSomeOrder};
ghost use Rattle.shared_calls.specs.Logs.{state_after};
ghost use Rattle.shared_calls.specs.Callers.{IsServed};
ghost use Rattle.shared_calls.specs.Views.{AreNewCallers, IsCallerOf, number_of_callers, number_of, made, seen, is_lost};
ghost use Rattle.shared_calls.specs.Closing.{AreCallersOf, AreAllCalls, SomeIsLost, NoneIsLost};
ghost use Rattle.shared_structures.specs.declared.queue.QueueOp.{QueueOp as OpOf};
ghost use Rattle.shared_structures.specs.declared.queue.QueueReply.{QueueReply as ReplyOf};
ghost use Rattle.shared_structures.specs.Failures.{HasFailed};
ghost use Rattle.shared_structures.specs.Queues.{queue};
ghost use Rattle.shared_structures.specs.Code.Batches.{AreSmall};
ghost use Rattle.shared_structures.specs.Code.Queues.{op_of, answer_of};
ghost use Rattle.limits.specs.declared.TheConstants.{MOST_WORKERS};

use crate::batches::{Answers, Asks, serve_asked};
use batched_pq::Queue;
use seq_objects::{Op, Reply};
use shared_calls::{Caller, Combined, Failed, Shared};
use std::alloc::{AllocError, Global};
use std::sync::Wait;

/// What a call asks of a queue.
#[derive(Clone, Copy)]
pub enum QueueOp {
    Insert(u32),
    Take,
}

/// What it is answered: a take gets the item, if there is one.
#[derive(Clone, Copy)]
pub enum QueueReply {
    Inserted,
    Taken(Option<u32>),
}

impl Asks for QueueOp {
    ghost op_of = { op_of };

    fn op(self) -> Op {
        match self {
            QueueOp::Insert(item) => Op::PqInsert(0, item),
            QueueOp::Take => Op::PqTake(0),
        }
    }
}

impl Answers for QueueReply {
    ghost answer_of = { answer_of };

    fn answer(reply: Reply) -> QueueReply {
        match reply {
            Reply::Number(item) => QueueReply::Taken(Some(item as u32)),
            Reply::Empty => QueueReply::Taken(None),
            Reply::Unit | Reply::Yes | Reply::No => QueueReply::Inserted,
        }
    }
}

/// A batched queue, for its callers. Any batch may run out of memory, and the queue is lost then.
#[derive(Drop)]
pub struct CombinedQueue {
    queue: Queue,
    ghost small: { AreSmall queue } by { Prim.hlevel props },
}

impl Combined for CombinedQueue {
    type Op = QueueOp;

    type Reply = QueueReply;

    ghost object = { queue };

    ghost content = { λ s. s.queue };

    ghost fails = { λ s ops. ⊤ };

    fn serve(
        self,
        alloc: Global,
        ops: Vec<QueueOp>,
    ) -> Result<(CombinedQueue, Vec<QueueReply>), AllocError>
        requires few { length ops.items ≤ MOST_WORKERS }
        ensures served { IfOk result (λ p. IsServedInSomeOrder queue self.queue ops.items p.1.items p.0.queue) }
        ensures failed { OnErr result ⊤ }
    {
        let CombinedQueue { queue } = self;
        let (queue, replies) = serve_asked(alloc, queue, &ops)?;
        Ok((CombinedQueue { queue }, replies))
    }
}

/// A priority queue that 1 to `MOST_WORKERS` callers share. Notes go by its field.
pub struct SharedQueue {
    pub shared: Shared<CombinedQueue>,
}

impl Drop for SharedQueue {
    fn drop(self) {
        let SharedQueue { shared } = self;
        drop(shared);
    }
}

impl SharedQueue {
    /// An empty queue, and its callers.
    ///
    /// Memory: proportional to the callers.
    pub fn new(
        alloc: Global,
        callers: usize,
    ) -> Result<(SharedQueue, Vec<Caller<CombinedQueue>>), AllocError>
        requires count { (1 ≤ callers) × (callers ≤ MOST_WORKERS) }
        ensures all { IfOk result (λ r. number_of_callers r.0.shared ≡ callers) }
        ensures callers { IfOk result (λ r. AreNewCallers callers r.0.shared r.1.items) }
    {
        let queue = CombinedQueue {
            queue: Queue::new(alloc)?,
        };
        let (shared, all) = Shared::share(alloc, queue, callers)?;
        Ok((SharedQueue { shared }, all))
    }

    /// Inserts an item, of which the queue may have copies.
    ///
    /// Memory: proportional to the callers; where this caller serves a batch, what the queue takes for it.
    pub fn insert<R: Wait>(
        &self,
        rt: &R,
        caller: &mut Caller<CombinedQueue>,
        item: u32,
    ) -> Result<(), Failed<QueueOp, QueueReply>>
        requires caller { IsCallerOf self.now.shared caller.old }
        requires sound { is_lost caller.old ≡ false }
        ensures own { IsCallerOf self.now.shared caller.new × (number_of caller.new ≡ number_of caller.old) }
        ensures served { OnOk result (IsServed queue (number_of caller.old) (made caller.old) (seen caller.old) (QueueOp.Insert item) QueueReply.Inserted (made caller.new) (seen caller.new)) }
        ensures stays { OnOk result (is_lost caller.new ≡ false) }
        ensures failed { IfErr result (HasFailed queue (number_of caller.old) (made caller.old) (seen caller.old) (QueueOp.Insert item) (made caller.new) (seen caller.new) (is_lost caller.new)) }
    {
        match self.shared.call(rt, caller, QueueOp::Insert(item))? {
            QueueReply::Inserted => Ok(()),
            QueueReply::Taken(_) => unreachable!(),
        }
    }

    /// Takes a least item, if there is one.
    ///
    /// Memory: as that of `insert`.
    pub fn take<R: Wait>(
        &self,
        rt: &R,
        caller: &mut Caller<CombinedQueue>,
    ) -> Result<Option<u32>, Failed<QueueOp, QueueReply>>
        requires caller { IsCallerOf self.now.shared caller.old }
        requires sound { is_lost caller.old ≡ false }
        ensures own { IsCallerOf self.now.shared caller.new × (number_of caller.new ≡ number_of caller.old) }
        ensures served { IfOk result (λ item. IsServed queue (number_of caller.old) (made caller.old) (seen caller.old) QueueOp.Take (QueueReply.Taken item) (made caller.new) (seen caller.new)) }
        ensures stays { OnOk result (is_lost caller.new ≡ false) }
        ensures failed { IfErr result (HasFailed queue (number_of caller.old) (made caller.old) (seen caller.old) QueueOp.Take (made caller.new) (seen caller.new) (is_lost caller.new)) }
    {
        match self.shared.call(rt, caller, QueueOp::Take)? {
            QueueReply::Taken(item) => Ok(item),
            QueueReply::Inserted => unreachable!(),
        }
    }

    /// Ends the sharing: the callers come back, all of them in the order of their numbers, and the queue is given, unless
    /// it is lost.
    ///
    /// Memory: none.
    pub fn close(self, callers: Vec<Caller<CombinedQueue>>) -> Option<Queue>
        requires callers { AreCallersOf self.shared callers.items }
        ensures kept { IfSome result (λ given. (log : List (EntryOf OpOf ReplyOf)) × AreAllCalls queue callers.items log × (given ≡ state_after queue log)) }
        ensures sound { OnSome result (NoneIsLost callers.items) }
        ensures lost { IfNone result ((log : List (EntryOf OpOf ReplyOf)) × AreAllCalls queue callers.items log) }
        ensures told { IfNone result (SomeIsLost callers.items) }
    {
        let SharedQueue { shared } = self;
        let CombinedQueue { queue } = shared.close(callers)?;
        Some(queue)
    }
}
