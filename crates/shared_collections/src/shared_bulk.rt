//! A set whose calls carry many keys, and which threads share.
ghost use Rattle.std.specs.Prelude.{◌≡◌, ◌≤◌, false, true, length, IfOk, IfErr, IfSome, IfNone, OnSome, OnOk};
ghost use Rattle.shared_calls.specs.Logs.{state_after};
ghost use Rattle.shared_calls.specs.Callers.{IsServed, IsUnserved};
ghost use Rattle.shared_calls.specs.Views.{AreNewCallers, IsCallerOf, IfRefused, IfLost, number_of_callers, number_of, made, seen, is_lost};
ghost use Rattle.shared_calls.specs.Closing.{AreCallersOf, AreAllCalls, SomeIsLost, NoneIsLost};
ghost use Rattle.shared_collections.specs.Bulks.{asked, bulk_set};
ghost use Rattle.limits.specs.declared.TheConstants.{MOST_BULK_KEYS, MOST_WORKERS};

use crate::bulk::{Bulk, asked};
use bulk_calls::{BulkKind, BulkOp, BulkSet, Replies};
use shared_calls::{Caller, Failed, Shared};
use std::alloc::{AllocError, Global};
use std::sync::Wait;

/// A set of numbers below 2^32 that 1 to `MOST_WORKERS` callers share. A call carries up to `MOST_BULK_KEYS` keys.
/// Notes go by its field.
pub struct SharedBulkSet {
    pub shared: Shared<Bulk>,
}

impl Drop for SharedBulkSet {
    fn drop(self) {
        let SharedBulkSet { shared } = self;
        drop(shared);
    }
}

impl SharedBulkSet {
    /// The empty set, and its callers.
    ///
    /// Memory: proportional to the callers.
    pub fn new(
        alloc: Global,
        callers: usize,
    ) -> Result<(SharedBulkSet, Vec<Caller<Bulk>>), AllocError>
        requires count { (1 ≤ callers) × (callers ≤ MOST_WORKERS) }
        ensures all { IfOk result (λ r. number_of_callers r.0.shared ≡ callers) }
        ensures callers { IfOk result (λ r. AreNewCallers callers r.0.shared r.1.items) }
    {
        let set = Bulk::new(alloc)?;
        let (shared, all) = Shared::share(alloc, set, callers)?;
        Ok((SharedBulkSet { shared }, all))
    }

    /// Inserts the keys, one after another. Answers of each whether it was new.
    ///
    /// Memory: proportional to the callers; where this caller serves a batch, what the set takes for it.
    pub fn insert_all<R: Wait>(
        &self,
        rt: &R,
        caller: &mut Caller<Bulk>,
        keys: &[u32],
    ) -> Result<Replies, Failed<BulkOp, Replies>>
        requires caller { IsCallerOf self.now.shared caller.old }
        requires few { length keys.now ≤ MOST_BULK_KEYS }
        requires sound { is_lost caller.old ≡ false }
        ensures own { IsCallerOf self.now.shared caller.new × (number_of caller.new ≡ number_of caller.old) }
        ensures served { IfOk result (λ answers. IsServed bulk_set (number_of caller.old) (made caller.old) (seen caller.old) (asked BulkKind.Insert keys.now) answers (made caller.new) (seen caller.new)) }
        ensures stays { OnOk result (is_lost caller.new ≡ false) }
        ensures refused { IfErr result (IfRefused (λ same. (same ≡ asked BulkKind.Insert keys.now) × (is_lost caller.new ≡ false) × (made caller.new ≡ made caller.old) × (seen caller.new ≡ seen caller.old))) }
        ensures lost { IfErr result (IfLost (λ last. is_lost caller.new ≡ true)) }
        ensures last { IfErr result (IfLost (λ last. IfSome last (λ reply. IsServed bulk_set (number_of caller.old) (made caller.old) (seen caller.old) (asked BulkKind.Insert keys.now) reply (made caller.new) (seen caller.new)))) }
        ensures unserved { IfErr result (IfLost (λ last. IfNone last (IsUnserved bulk_set (number_of caller.old) (made caller.old) (seen caller.old) (made caller.new) (seen caller.new)))) }
    {
        self.shared.call(rt, caller, asked(BulkKind::Insert, keys))
    }

    /// Removes the keys, one after another. Answers of each whether it was there.
    ///
    /// Memory: proportional to the callers; where this caller serves a batch, what the set takes for it.
    pub fn remove_all<R: Wait>(
        &self,
        rt: &R,
        caller: &mut Caller<Bulk>,
        keys: &[u32],
    ) -> Result<Replies, Failed<BulkOp, Replies>>
        requires caller { IsCallerOf self.now.shared caller.old }
        requires few { length keys.now ≤ MOST_BULK_KEYS }
        requires sound { is_lost caller.old ≡ false }
        ensures own { IsCallerOf self.now.shared caller.new × (number_of caller.new ≡ number_of caller.old) }
        ensures served { IfOk result (λ answers. IsServed bulk_set (number_of caller.old) (made caller.old) (seen caller.old) (asked BulkKind.Remove keys.now) answers (made caller.new) (seen caller.new)) }
        ensures stays { OnOk result (is_lost caller.new ≡ false) }
        ensures refused { IfErr result (IfRefused (λ same. (same ≡ asked BulkKind.Remove keys.now) × (is_lost caller.new ≡ false) × (made caller.new ≡ made caller.old) × (seen caller.new ≡ seen caller.old))) }
        ensures lost { IfErr result (IfLost (λ last. is_lost caller.new ≡ true)) }
        ensures last { IfErr result (IfLost (λ last. IfSome last (λ reply. IsServed bulk_set (number_of caller.old) (made caller.old) (seen caller.old) (asked BulkKind.Remove keys.now) reply (made caller.new) (seen caller.new)))) }
        ensures unserved { IfErr result (IfLost (λ last. IfNone last (IsUnserved bulk_set (number_of caller.old) (made caller.old) (seen caller.old) (made caller.new) (seen caller.new)))) }
    {
        self.shared.call(rt, caller, asked(BulkKind::Remove, keys))
    }

    /// Answers of each key whether it is there.
    ///
    /// Memory: proportional to the callers; where this caller serves a batch, what the set takes for it.
    pub fn find_all<R: Wait>(
        &self,
        rt: &R,
        caller: &mut Caller<Bulk>,
        keys: &[u32],
    ) -> Result<Replies, Failed<BulkOp, Replies>>
        requires caller { IsCallerOf self.now.shared caller.old }
        requires few { length keys.now ≤ MOST_BULK_KEYS }
        requires sound { is_lost caller.old ≡ false }
        ensures own { IsCallerOf self.now.shared caller.new × (number_of caller.new ≡ number_of caller.old) }
        ensures served { IfOk result (λ answers. IsServed bulk_set (number_of caller.old) (made caller.old) (seen caller.old) (asked BulkKind.Find keys.now) answers (made caller.new) (seen caller.new)) }
        ensures stays { OnOk result (is_lost caller.new ≡ false) }
        ensures refused { IfErr result (IfRefused (λ same. (same ≡ asked BulkKind.Find keys.now) × (is_lost caller.new ≡ false) × (made caller.new ≡ made caller.old) × (seen caller.new ≡ seen caller.old))) }
        ensures lost { IfErr result (IfLost (λ last. is_lost caller.new ≡ true)) }
        ensures last { IfErr result (IfLost (λ last. IfSome last (λ reply. IsServed bulk_set (number_of caller.old) (made caller.old) (seen caller.old) (asked BulkKind.Find keys.now) reply (made caller.new) (seen caller.new)))) }
        ensures unserved { IfErr result (IfLost (λ last. IfNone last (IsUnserved bulk_set (number_of caller.old) (made caller.old) (seen caller.old) (made caller.new) (seen caller.new)))) }
    {
        self.shared.call(rt, caller, asked(BulkKind::Find, keys))
    }

    /// Ends the sharing: the callers come back, all of them in the order of their numbers, and the set is given, unless it
    /// is lost.
    ///
    /// Memory: none.
    pub fn close(self, callers: Vec<Caller<Bulk>>) -> Option<BulkSet>
        requires callers { AreCallersOf self.shared callers.items }
        ensures kept { IfSome result (λ set. (log : _) × AreAllCalls bulk_set callers.items log × (set ≡ state_after bulk_set log)) }
        ensures sound { OnSome result (NoneIsLost callers.items) }
        ensures lost { IfNone result ((log : _) × AreAllCalls bulk_set callers.items log) }
        ensures told { IfNone result (SomeIsLost callers.items) }
    {
        let SharedBulkSet { shared } = self;
        match shared.close(callers) {
            Some(structure) => Some(structure.into_set()),
            None => None,
        }
    }
}
