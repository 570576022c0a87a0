//! A FIFO queue that threads share.
ghost use Rattle.std.specs.Prelude.{◌≡◌, ◌≤◌, false, true, IfOk, IfErr, IfSome, IfNone, OnSome, OnOk};
ghost use Rattle.shared_calls.specs.Logs.{state_after};
ghost use Rattle.shared_calls.specs.Callers.{IsServed, IsUnserved};
ghost use Rattle.shared_calls.specs.Views.{AreNewCallers, IsCallerOf, IfRefused, IfLost, number_of_callers, number_of, made, seen, is_lost};
ghost use Rattle.shared_calls.specs.Closing.{AreCallersOf, AreAllCalls, SomeIsLost, NoneIsLost};
ghost use Rattle.shared_collections.specs.Fifos.{fifo};
ghost use Rattle.limits.specs.declared.TheConstants.{MOST_WORKERS};

use crate::fifo::{Fifo, FifoOp, FifoReply};
use batched_queue::FifoQueue;
use shared_calls::{Caller, Failed, Shared};
use std::alloc::{AllocError, Global};
use std::sync::Wait;

/// A FIFO queue of numbers below 2^32 that 1 to `MOST_WORKERS` callers share. Notes go by its field.
pub struct SharedFifo {
    pub shared: Shared<Fifo>,
}

impl Drop for SharedFifo {
    fn drop(self) {
        let SharedFifo { shared } = self;
        drop(shared);
    }
}

impl SharedFifo {
    /// A queue without items, and its callers.
    ///
    /// Memory: proportional to the callers.
    pub fn new(alloc: Global, callers: usize) -> Result<(SharedFifo, Vec<Caller<Fifo>>), AllocError>
        requires count { (1 ≤ callers) × (callers ≤ MOST_WORKERS) }
        ensures all { IfOk result (λ r. number_of_callers r.0.shared ≡ callers) }
        ensures callers { IfOk result (λ r. AreNewCallers callers r.0.shared r.1.items) }
    {
        let queue = Fifo::new(alloc)?;
        let (shared, all) = Shared::share(alloc, queue, callers)?;
        Ok((SharedFifo { shared }, all))
    }

    /// Puts an item at the end.
    ///
    /// Memory: proportional to the callers; where this caller serves a batch, what the queue takes for it.
    pub fn put<R: Wait>(
        &self,
        rt: &R,
        caller: &mut Caller<Fifo>,
        item: u32,
    ) -> Result<(), Failed<FifoOp, FifoReply>>
        requires caller { IsCallerOf self.now.shared caller.old }
        requires sound { is_lost caller.old ≡ false }
        ensures own { IsCallerOf self.now.shared caller.new × (number_of caller.new ≡ number_of caller.old) }
        ensures served { OnOk result (IsServed fifo (number_of caller.old) (made caller.old) (seen caller.old) (FifoOp.Put item) FifoReply.Done (made caller.new) (seen caller.new)) }
        ensures stays { OnOk result (is_lost caller.new ≡ false) }
        ensures refused { IfErr result (IfRefused (λ same. (same ≡ FifoOp.Put item) × (is_lost caller.new ≡ false) × (made caller.new ≡ made caller.old) × (seen caller.new ≡ seen caller.old))) }
        ensures lost { IfErr result (IfLost (λ last. is_lost caller.new ≡ true)) }
        ensures last { IfErr result (IfLost (λ last. IfSome last (λ reply. IsServed fifo (number_of caller.old) (made caller.old) (seen caller.old) (FifoOp.Put item) reply (made caller.new) (seen caller.new)))) }
        ensures unserved { IfErr result (IfLost (λ last. IfNone last (IsUnserved fifo (number_of caller.old) (made caller.old) (seen caller.old) (made caller.new) (seen caller.new)))) }
    {
        match self.shared.call(rt, caller, FifoOp::Put(item)) {
            Ok(_) => Ok(()),
            Err(failed) => Err(failed),
        }
    }

    /// Takes the oldest item, or returns none where there is no item.
    ///
    /// Memory: proportional to the callers; where this caller serves a batch, what the queue takes for it.
    pub fn get<R: Wait>(
        &self,
        rt: &R,
        caller: &mut Caller<Fifo>,
    ) -> Result<Option<u32>, Failed<FifoOp, FifoReply>>
        requires caller { IsCallerOf self.now.shared caller.old }
        requires sound { is_lost caller.old ≡ false }
        ensures own { IsCallerOf self.now.shared caller.new × (number_of caller.new ≡ number_of caller.old) }
        ensures served { IfOk result (λ item. IsServed fifo (number_of caller.old) (made caller.old) (seen caller.old) FifoOp.Get (FifoReply.Got item) (made caller.new) (seen caller.new)) }
        ensures stays { OnOk result (is_lost caller.new ≡ false) }
        ensures refused { IfErr result (IfRefused (λ same. (same ≡ FifoOp.Get) × (is_lost caller.new ≡ false) × (made caller.new ≡ made caller.old) × (seen caller.new ≡ seen caller.old))) }
        ensures lost { IfErr result (IfLost (λ last. is_lost caller.new ≡ true)) }
        ensures last { IfErr result (IfLost (λ last. IfSome last (λ reply. IsServed fifo (number_of caller.old) (made caller.old) (seen caller.old) FifoOp.Get reply (made caller.new) (seen caller.new)))) }
        ensures unserved { IfErr result (IfLost (λ last. IfNone last (IsUnserved fifo (number_of caller.old) (made caller.old) (seen caller.old) (made caller.new) (seen caller.new)))) }
    {
        match self.shared.call(rt, caller, FifoOp::Get) {
            Ok(FifoReply::Got(item)) => Ok(item),
            Ok(FifoReply::Done) => unreachable!(),
            Err(failed) => Err(failed),
        }
    }

    /// Ends the sharing: the callers come back, all of them in the order of their numbers, and the queue is given, unless
    /// it is lost.
    ///
    /// Memory: none.
    pub fn close(self, callers: Vec<Caller<Fifo>>) -> Option<FifoQueue>
        requires callers { AreCallersOf self.shared callers.items }
        ensures kept { IfSome result (λ queue. (log : _) × AreAllCalls fifo callers.items log × (queue ≡ state_after fifo log)) }
        ensures sound { OnSome result (NoneIsLost callers.items) }
        ensures lost { IfNone result ((log : _) × AreAllCalls fifo callers.items log) }
        ensures told { IfNone result (SomeIsLost callers.items) }
    {
        let SharedFifo { shared } = self;
        match shared.close(callers) {
            Some(structure) => Some(structure.into_queue()),
            None => None,
        }
    }
}
