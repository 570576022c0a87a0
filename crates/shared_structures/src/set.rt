//! An ordered set that threads share.
ghost use Rattle.std.specs.Prelude.{◌≡◌, ◌≤◌, List, [], length, false, ⊤, Some, None, IfOk, IfErr, OnOk, OnErr, IfSome, IfNone, OnSome};
ghost use Rattle.std.proofs.Props.{props};
ghost use Rattle.shared_calls.specs.declared.view.Entry.{Entry as EntryOf};
ghost use Rattle.shared_calls.specs.Serial.{IsServedInSomeOrder};
ghost use Rattle.shared_calls.specs.Logs.{state_after};
ghost use Rattle.shared_calls.specs.Callers.{IsServed};
ghost use Rattle.shared_calls.specs.Views.{AreNewCallers, IsCallerOf, number_of_callers, number_of, made, seen, is_lost};
ghost use Rattle.shared_calls.specs.Closing.{AreCallersOf, AreAllCalls, SomeIsLost, NoneIsLost};
ghost use Rattle.shared_structures.specs.declared.set.SetOp.{SetOp as OpOf};
ghost use Rattle.shared_structures.specs.declared.set.SetReply.{SetReply as ReplyOf};
ghost use Rattle.shared_structures.specs.Failures.{HasFailed};
ghost use Rattle.shared_structures.specs.Sets.{set};
ghost use Rattle.shared_structures.specs.Code.Batches.{AreSmall};
ghost use Rattle.shared_structures.specs.Code.Sets.{op_of, answer_of};
ghost use Rattle.limits.specs.declared.TheConstants.{MOST_WORKERS};

use crate::batches::{Answers, Asks, serve_asked};
use batched_tree::TreeSet;
use seq_objects::{Op, Reply};
use shared_calls::{Caller, Combined, Failed, Shared};
use std::alloc::{AllocError, Global};
use std::sync::Wait;

/// What a call asks of a set.
#[derive(Clone, Copy)]
pub enum SetOp {
    Insert(u32),
    Remove(u32),
    Find(u32),
    NextAbove(u32),
}

/// What it is answered.
#[derive(Clone, Copy)]
pub enum SetReply {
    /// Whether the key is new, was there, or is there.
    Answer(bool),
    /// The least key above, if there is one.
    Key(Option<u32>),
}

impl Asks for SetOp {
    ghost op_of = { op_of };

    fn op(self) -> Op {
        match self {
            SetOp::Insert(key) => Op::TreeInsert(0, key),
            SetOp::Remove(key) => Op::TreeRemove(0, key),
            SetOp::Find(key) => Op::TreeFind(0, key),
            SetOp::NextAbove(key) => Op::TreeNext(0, key),
        }
    }
}

impl Answers for SetReply {
    ghost answer_of = { answer_of };

    fn answer(reply: Reply) -> SetReply {
        match reply {
            Reply::Number(key) => SetReply::Key(Some(key as u32)),
            Reply::Empty | Reply::Unit => SetReply::Key(None),
            Reply::Yes => SetReply::Answer(true),
            Reply::No => SetReply::Answer(false),
        }
    }
}

/// A batched set, for its callers. Any batch may run out of memory, and the set is lost then.
#[derive(Drop)]
pub struct CombinedSet {
    set: TreeSet,
    ghost small: { AreSmall set } by { Prim.hlevel props },
}

impl Combined for CombinedSet {
    type Op = SetOp;

    type Reply = SetReply;

    ghost object = { set };

    ghost content = { λ s. s.set };

    ghost fails = { λ s ops. ⊤ };

    fn serve(
        self,
        alloc: Global,
        ops: Vec<SetOp>,
    ) -> Result<(CombinedSet, Vec<SetReply>), AllocError>
        requires few { length ops.items ≤ MOST_WORKERS }
        ensures served { IfOk result (λ p. IsServedInSomeOrder set self.set ops.items p.1.items p.0.set) }
        ensures failed { OnErr result ⊤ }
    {
        let CombinedSet { set } = self;
        let (set, replies) = serve_asked(alloc, set, &ops)?;
        Ok((CombinedSet { set }, replies))
    }
}

/// An ordered set that 1 to `MOST_WORKERS` callers share. Notes go by its field.
pub struct SharedSet {
    pub shared: Shared<CombinedSet>,
}

impl Drop for SharedSet {
    fn drop(self) {
        let SharedSet { shared } = self;
        drop(shared);
    }
}

impl SharedSet {
    /// An empty set, and its callers.
    ///
    /// Memory: proportional to the callers.
    pub fn new(
        alloc: Global,
        callers: usize,
    ) -> Result<(SharedSet, Vec<Caller<CombinedSet>>), AllocError>
        requires count { (1 ≤ callers) × (callers ≤ MOST_WORKERS) }
        ensures all { IfOk result (λ r. number_of_callers r.0.shared ≡ callers) }
        ensures callers { IfOk result (λ r. AreNewCallers callers r.0.shared r.1.items) }
    {
        let set = CombinedSet {
            set: TreeSet::new(alloc)?,
        };
        let (shared, all) = Shared::share(alloc, set, callers)?;
        Ok((SharedSet { shared }, all))
    }

    /// Inserts a key, and returns whether it is new.
    ///
    /// Memory: proportional to the callers; where this caller serves a batch, what the set takes for it.
    pub fn insert<R: Wait>(
        &self,
        rt: &R,
        caller: &mut Caller<CombinedSet>,
        key: u32,
    ) -> Result<bool, Failed<SetOp, SetReply>>
        requires caller { IsCallerOf self.now.shared caller.old }
        requires sound { is_lost caller.old ≡ false }
        ensures own { IsCallerOf self.now.shared caller.new × (number_of caller.new ≡ number_of caller.old) }
        ensures served { IfOk result (λ new. IsServed set (number_of caller.old) (made caller.old) (seen caller.old) (SetOp.Insert key) (SetReply.Answer new) (made caller.new) (seen caller.new)) }
        ensures stays { OnOk result (is_lost caller.new ≡ false) }
        ensures failed { IfErr result (HasFailed set (number_of caller.old) (made caller.old) (seen caller.old) (SetOp.Insert key) (made caller.new) (seen caller.new) (is_lost caller.new)) }
    {
        match self.shared.call(rt, caller, SetOp::Insert(key))? {
            SetReply::Answer(new) => Ok(new),
            SetReply::Key(_) => unreachable!(),
        }
    }

    /// Removes a key, and returns whether it was there.
    ///
    /// Memory: as that of `insert`.
    pub fn remove<R: Wait>(
        &self,
        rt: &R,
        caller: &mut Caller<CombinedSet>,
        key: u32,
    ) -> Result<bool, Failed<SetOp, SetReply>>
        requires caller { IsCallerOf self.now.shared caller.old }
        requires sound { is_lost caller.old ≡ false }
        ensures own { IsCallerOf self.now.shared caller.new × (number_of caller.new ≡ number_of caller.old) }
        ensures served { IfOk result (λ there. IsServed set (number_of caller.old) (made caller.old) (seen caller.old) (SetOp.Remove key) (SetReply.Answer there) (made caller.new) (seen caller.new)) }
        ensures stays { OnOk result (is_lost caller.new ≡ false) }
        ensures failed { IfErr result (HasFailed set (number_of caller.old) (made caller.old) (seen caller.old) (SetOp.Remove key) (made caller.new) (seen caller.new) (is_lost caller.new)) }
    {
        match self.shared.call(rt, caller, SetOp::Remove(key))? {
            SetReply::Answer(there) => Ok(there),
            SetReply::Key(_) => unreachable!(),
        }
    }

    /// Whether the set has a key.
    ///
    /// Memory: as that of `insert`.
    pub fn find<R: Wait>(
        &self,
        rt: &R,
        caller: &mut Caller<CombinedSet>,
        key: u32,
    ) -> Result<bool, Failed<SetOp, SetReply>>
        requires caller { IsCallerOf self.now.shared caller.old }
        requires sound { is_lost caller.old ≡ false }
        ensures own { IsCallerOf self.now.shared caller.new × (number_of caller.new ≡ number_of caller.old) }
        ensures served { IfOk result (λ found. IsServed set (number_of caller.old) (made caller.old) (seen caller.old) (SetOp.Find key) (SetReply.Answer found) (made caller.new) (seen caller.new)) }
        ensures stays { OnOk result (is_lost caller.new ≡ false) }
        ensures failed { IfErr result (HasFailed set (number_of caller.old) (made caller.old) (seen caller.old) (SetOp.Find key) (made caller.new) (seen caller.new) (is_lost caller.new)) }
    {
        match self.shared.call(rt, caller, SetOp::Find(key))? {
            SetReply::Answer(found) => Ok(found),
            SetReply::Key(_) => unreachable!(),
        }
    }

    /// The least key above this one, if there is one.
    ///
    /// Memory: as that of `insert`.
    pub fn next_above<R: Wait>(
        &self,
        rt: &R,
        caller: &mut Caller<CombinedSet>,
        key: u32,
    ) -> Result<Option<u32>, Failed<SetOp, SetReply>>
        requires caller { IsCallerOf self.now.shared caller.old }
        requires sound { is_lost caller.old ≡ false }
        ensures own { IsCallerOf self.now.shared caller.new × (number_of caller.new ≡ number_of caller.old) }
        ensures served { IfOk result (λ next. IsServed set (number_of caller.old) (made caller.old) (seen caller.old) (SetOp.NextAbove key) (SetReply.Key next) (made caller.new) (seen caller.new)) }
        ensures stays { OnOk result (is_lost caller.new ≡ false) }
        ensures failed { IfErr result (HasFailed set (number_of caller.old) (made caller.old) (seen caller.old) (SetOp.NextAbove key) (made caller.new) (seen caller.new) (is_lost caller.new)) }
    {
        match self.shared.call(rt, caller, SetOp::NextAbove(key))? {
            SetReply::Key(next) => Ok(next),
            SetReply::Answer(_) => unreachable!(),
        }
    }

    /// Ends the sharing: the callers come back, all of them in the order of their numbers, and the set is given, unless
    /// it is lost.
    ///
    /// Memory: none.
    pub fn close(self, callers: Vec<Caller<CombinedSet>>) -> Option<TreeSet>
        requires callers { AreCallersOf self.shared callers.items }
        ensures kept { IfSome result (λ given. (log : List (EntryOf OpOf ReplyOf)) × AreAllCalls set callers.items log × (given ≡ state_after set log)) }
        ensures sound { OnSome result (NoneIsLost callers.items) }
        ensures lost { IfNone result ((log : List (EntryOf OpOf ReplyOf)) × AreAllCalls set callers.items log) }
        ensures told { IfNone result (SomeIsLost callers.items) }
    {
        let SharedSet { shared } = self;
        let CombinedSet { set } = shared.close(callers)?;
        Some(set)
    }
}
