//! A map with rank and select that threads share.
ghost use Rattle.std.specs.Prelude.{◌≡◌, ◌≤◌, false, true, IfOk, IfErr, IfSome, IfNone, OnSome, OnOk};
ghost use Rattle.shared_calls.specs.Logs.{state_after};
ghost use Rattle.shared_calls.specs.Callers.{IsServed, IsUnserved};
ghost use Rattle.shared_calls.specs.Views.{AreNewCallers, IsCallerOf, IfRefused, IfLost, number_of_callers, number_of, made, seen, is_lost};
ghost use Rattle.shared_calls.specs.Closing.{AreCallersOf, AreAllCalls, SomeIsLost, NoneIsLost};
ghost use Rattle.shared_collections.specs.Maps.{ranked_map};
ghost use Rattle.limits.specs.declared.TheConstants.{MOST_WORKERS};

use crate::ranked::{RankedMap, RankedOp, RankedReply};
use batched_map::RankBook;
use shared_calls::{Caller, Failed, Shared};
use std::alloc::{AllocError, Global};
use std::sync::Wait;

/// A map with rank and select, of keys and values below 2^32, that 1 to `MOST_WORKERS` callers share. Notes go by its
/// field.
pub struct SharedMap {
    pub shared: Shared<RankedMap>,
}

impl Drop for SharedMap {
    fn drop(self) {
        let SharedMap { shared } = self;
        drop(shared);
    }
}

/// The value in the reply to a put, a remove or a get.
fn value_in(reply: RankedReply) -> Option<u32>
    requires { (value : _) × (reply ≡ RankedReply.Value value) }
    ensures { reply ≡ RankedReply.Value result }
{
    match reply {
        RankedReply::Value(value) => value,
        RankedReply::Count(_) | RankedReply::Key(_) => unreachable!(),
    }
}

/// The number in the reply to a rank.
fn count_in(reply: RankedReply) -> u64
    requires { (count : _) × (reply ≡ RankedReply.Count count) }
    ensures { reply ≡ RankedReply.Count result }
{
    match reply {
        RankedReply::Count(count) => count,
        RankedReply::Value(_) | RankedReply::Key(_) => unreachable!(),
    }
}

/// The key in the reply to an nth.
fn key_in(reply: RankedReply) -> Option<u32>
    requires { (key : _) × (reply ≡ RankedReply.Key key) }
    ensures { reply ≡ RankedReply.Key result }
{
    match reply {
        RankedReply::Key(key) => key,
        RankedReply::Value(_) | RankedReply::Count(_) => unreachable!(),
    }
}

impl SharedMap {
    /// A map without entries, and its callers.
    ///
    /// Memory: proportional to the callers.
    pub fn new(
        alloc: Global,
        callers: usize,
    ) -> Result<(SharedMap, Vec<Caller<RankedMap>>), AllocError>
        requires count { (1 ≤ callers) × (callers ≤ MOST_WORKERS) }
        ensures all { IfOk result (λ r. number_of_callers r.0.shared ≡ callers) }
        ensures callers { IfOk result (λ r. AreNewCallers callers r.0.shared r.1.items) }
    {
        let map = RankedMap::new(alloc)?;
        let (shared, all) = Shared::share(alloc, map, callers)?;
        Ok((SharedMap { shared }, all))
    }

    /// Sets the value of the key, and returns the one that it had before, if it was there.
    ///
    /// Memory: proportional to the callers; where this caller serves a batch, what the map takes for it.
    pub fn put<R: Wait>(
        &self,
        rt: &R,
        caller: &mut Caller<RankedMap>,
        key: u32,
        value: u32,
    ) -> Result<Option<u32>, Failed<RankedOp, RankedReply>>
        requires caller { IsCallerOf self.now.shared caller.old }
        requires sound { is_lost caller.old ≡ false }
        ensures own { IsCallerOf self.now.shared caller.new × (number_of caller.new ≡ number_of caller.old) }
        ensures served { IfOk result (λ old. IsServed ranked_map (number_of caller.old) (made caller.old) (seen caller.old) (RankedOp.Put key value) (RankedReply.Value old) (made caller.new) (seen caller.new)) }
        ensures stays { OnOk result (is_lost caller.new ≡ false) }
        ensures refused { IfErr result (IfRefused (λ same. (same ≡ RankedOp.Put key value) × (is_lost caller.new ≡ false) × (made caller.new ≡ made caller.old) × (seen caller.new ≡ seen caller.old))) }
        ensures lost { IfErr result (IfLost (λ last. is_lost caller.new ≡ true)) }
        ensures last { IfErr result (IfLost (λ last. IfSome last (λ reply. IsServed ranked_map (number_of caller.old) (made caller.old) (seen caller.old) (RankedOp.Put key value) reply (made caller.new) (seen caller.new)))) }
        ensures unserved { IfErr result (IfLost (λ last. IfNone last (IsUnserved ranked_map (number_of caller.old) (made caller.old) (seen caller.old) (made caller.new) (seen caller.new)))) }
    {
        match self.shared.call(rt, caller, RankedOp::Put(key, value)) {
            Ok(reply) => Ok(value_in(reply)),
            Err(failed) => Err(failed),
        }
    }

    /// Takes the key out, and returns its value, if it was there.
    ///
    /// Memory: proportional to the callers; where this caller serves a batch, what the map takes for it.
    pub fn remove<R: Wait>(
        &self,
        rt: &R,
        caller: &mut Caller<RankedMap>,
        key: u32,
    ) -> Result<Option<u32>, Failed<RankedOp, RankedReply>>
        requires caller { IsCallerOf self.now.shared caller.old }
        requires sound { is_lost caller.old ≡ false }
        ensures own { IsCallerOf self.now.shared caller.new × (number_of caller.new ≡ number_of caller.old) }
        ensures served { IfOk result (λ old. IsServed ranked_map (number_of caller.old) (made caller.old) (seen caller.old) (RankedOp.Remove key) (RankedReply.Value old) (made caller.new) (seen caller.new)) }
        ensures stays { OnOk result (is_lost caller.new ≡ false) }
        ensures refused { IfErr result (IfRefused (λ same. (same ≡ RankedOp.Remove key) × (is_lost caller.new ≡ false) × (made caller.new ≡ made caller.old) × (seen caller.new ≡ seen caller.old))) }
        ensures lost { IfErr result (IfLost (λ last. is_lost caller.new ≡ true)) }
        ensures last { IfErr result (IfLost (λ last. IfSome last (λ reply. IsServed ranked_map (number_of caller.old) (made caller.old) (seen caller.old) (RankedOp.Remove key) reply (made caller.new) (seen caller.new)))) }
        ensures unserved { IfErr result (IfLost (λ last. IfNone last (IsUnserved ranked_map (number_of caller.old) (made caller.old) (seen caller.old) (made caller.new) (seen caller.new)))) }
    {
        match self.shared.call(rt, caller, RankedOp::Remove(key)) {
            Ok(reply) => Ok(value_in(reply)),
            Err(failed) => Err(failed),
        }
    }

    /// The value of the key, if it is there.
    ///
    /// Memory: proportional to the callers; where this caller serves a batch, what the map takes for it.
    pub fn get<R: Wait>(
        &self,
        rt: &R,
        caller: &mut Caller<RankedMap>,
        key: u32,
    ) -> Result<Option<u32>, Failed<RankedOp, RankedReply>>
        requires caller { IsCallerOf self.now.shared caller.old }
        requires sound { is_lost caller.old ≡ false }
        ensures own { IsCallerOf self.now.shared caller.new × (number_of caller.new ≡ number_of caller.old) }
        ensures served { IfOk result (λ value. IsServed ranked_map (number_of caller.old) (made caller.old) (seen caller.old) (RankedOp.Get key) (RankedReply.Value value) (made caller.new) (seen caller.new)) }
        ensures stays { OnOk result (is_lost caller.new ≡ false) }
        ensures refused { IfErr result (IfRefused (λ same. (same ≡ RankedOp.Get key) × (is_lost caller.new ≡ false) × (made caller.new ≡ made caller.old) × (seen caller.new ≡ seen caller.old))) }
        ensures lost { IfErr result (IfLost (λ last. is_lost caller.new ≡ true)) }
        ensures last { IfErr result (IfLost (λ last. IfSome last (λ reply. IsServed ranked_map (number_of caller.old) (made caller.old) (seen caller.old) (RankedOp.Get key) reply (made caller.new) (seen caller.new)))) }
        ensures unserved { IfErr result (IfLost (λ last. IfNone last (IsUnserved ranked_map (number_of caller.old) (made caller.old) (seen caller.old) (made caller.new) (seen caller.new)))) }
    {
        match self.shared.call(rt, caller, RankedOp::Get(key)) {
            Ok(reply) => Ok(value_in(reply)),
            Err(failed) => Err(failed),
        }
    }

    /// How many keys are less.
    ///
    /// Memory: proportional to the callers; where this caller serves a batch, what the map takes for it.
    pub fn rank<R: Wait>(
        &self,
        rt: &R,
        caller: &mut Caller<RankedMap>,
        key: u32,
    ) -> Result<u64, Failed<RankedOp, RankedReply>>
        requires caller { IsCallerOf self.now.shared caller.old }
        requires sound { is_lost caller.old ≡ false }
        ensures own { IsCallerOf self.now.shared caller.new × (number_of caller.new ≡ number_of caller.old) }
        ensures served { IfOk result (λ count. IsServed ranked_map (number_of caller.old) (made caller.old) (seen caller.old) (RankedOp.Rank key) (RankedReply.Count count) (made caller.new) (seen caller.new)) }
        ensures stays { OnOk result (is_lost caller.new ≡ false) }
        ensures refused { IfErr result (IfRefused (λ same. (same ≡ RankedOp.Rank key) × (is_lost caller.new ≡ false) × (made caller.new ≡ made caller.old) × (seen caller.new ≡ seen caller.old))) }
        ensures lost { IfErr result (IfLost (λ last. is_lost caller.new ≡ true)) }
        ensures last { IfErr result (IfLost (λ last. IfSome last (λ reply. IsServed ranked_map (number_of caller.old) (made caller.old) (seen caller.old) (RankedOp.Rank key) reply (made caller.new) (seen caller.new)))) }
        ensures unserved { IfErr result (IfLost (λ last. IfNone last (IsUnserved ranked_map (number_of caller.old) (made caller.old) (seen caller.old) (made caller.new) (seen caller.new)))) }
    {
        match self.shared.call(rt, caller, RankedOp::Rank(key)) {
            Ok(reply) => Ok(count_in(reply)),
            Err(failed) => Err(failed),
        }
    }

    /// The key that has exactly `index` keys below it, if there is one.
    ///
    /// Memory: proportional to the callers; where this caller serves a batch, what the map takes for it.
    pub fn nth<R: Wait>(
        &self,
        rt: &R,
        caller: &mut Caller<RankedMap>,
        index: u32,
    ) -> Result<Option<u32>, Failed<RankedOp, RankedReply>>
        requires caller { IsCallerOf self.now.shared caller.old }
        requires sound { is_lost caller.old ≡ false }
        ensures own { IsCallerOf self.now.shared caller.new × (number_of caller.new ≡ number_of caller.old) }
        ensures served { IfOk result (λ key. IsServed ranked_map (number_of caller.old) (made caller.old) (seen caller.old) (RankedOp.Nth index) (RankedReply.Key key) (made caller.new) (seen caller.new)) }
        ensures stays { OnOk result (is_lost caller.new ≡ false) }
        ensures refused { IfErr result (IfRefused (λ same. (same ≡ RankedOp.Nth index) × (is_lost caller.new ≡ false) × (made caller.new ≡ made caller.old) × (seen caller.new ≡ seen caller.old))) }
        ensures lost { IfErr result (IfLost (λ last. is_lost caller.new ≡ true)) }
        ensures last { IfErr result (IfLost (λ last. IfSome last (λ reply. IsServed ranked_map (number_of caller.old) (made caller.old) (seen caller.old) (RankedOp.Nth index) reply (made caller.new) (seen caller.new)))) }
        ensures unserved { IfErr result (IfLost (λ last. IfNone last (IsUnserved ranked_map (number_of caller.old) (made caller.old) (seen caller.old) (made caller.new) (seen caller.new)))) }
    {
        match self.shared.call(rt, caller, RankedOp::Nth(index)) {
            Ok(reply) => Ok(key_in(reply)),
            Err(failed) => Err(failed),
        }
    }

    /// Ends the sharing: the callers come back, all of them in the order of their numbers, and the map is given, unless it
    /// is lost.
    ///
    /// Memory: none.
    pub fn close(self, callers: Vec<Caller<RankedMap>>) -> Option<RankBook>
        requires callers { AreCallersOf self.shared callers.items }
        ensures kept { IfSome result (λ map. (log : _) × AreAllCalls ranked_map callers.items log × (map ≡ state_after ranked_map log)) }
        ensures sound { OnSome result (NoneIsLost callers.items) }
        ensures lost { IfNone result ((log : _) × AreAllCalls ranked_map callers.items log) }
        ensures told { IfNone result (SomeIsLost callers.items) }
    {
        let SharedMap { shared } = self;
        match shared.close(callers) {
            Some(structure) => Some(structure.into_book()),
            None => None,
        }
    }
}
