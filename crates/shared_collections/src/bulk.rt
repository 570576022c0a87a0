//! A set whose calls carry many keys, and how it serves operations as a batch.
ghost use Rattle.std.specs.Prelude.{◌≡◌, ◌≤◌, ⊤, ℕ, List, [], length, map, IfOk, OnErr};
ghost use Rattle.bulk_calls.specs.Views.{BulkView};
ghost use Rattle.bulk_calls.specs.Bulk.{bulk_after, bulk_replies, operations};
ghost use Rattle.bulk_calls.specs.Batches.{in_batch_order};
ghost use Rattle.shared_calls.specs.Serial.{IsServedInSomeOrder};
ghost use Rattle.shared_collections.specs.Bulks.{asked, bulk_set};
ghost use Rattle.limits.specs.declared.TheConstants.{MOST_BULK_KEYS, MOST_WORKERS};

use bulk_calls::{BulkCall, BulkKind, BulkOp, BulkSet, Replies, in_batch_order};
use reply_order::in_call_order;
use shared_calls::Combined;
use std::alloc::{AllocError, Global};

/// A set of numbers below 2^32.
#[derive(Drop)]
pub struct Bulk {
    pub set: BulkSet,
}

/// The operation that does this with the keys.
///
/// Memory: none.
pub fn asked(kind: BulkKind, keys: &[u32]) -> BulkOp
    requires { length keys.now ≤ MOST_BULK_KEYS }
    ensures { result ≡ asked kind keys.now }
{
    let mut op = BulkOp::new(kind);
    for key in keys {
        op.push(*key);
    }
    op
}

/// The places of calls among the operations of their batch.
fn places_of(alloc: Global, calls: &[BulkCall]) -> Result<Vec<usize>, AllocError>
    ensures { IfOk result (λ v. v.items ≡ map (λ call. call.worker) calls.now) }
{
    calls
        .iter()
        .map(|call| call.worker() as usize)
        .collect(alloc)
}

/// The replies to the calls of a batch, in the order of the operations that the calls ask. Where they are those of the
/// calls one after another, the operations were served as if they came one after another in some order.
pub fn in_operation_order(
    alloc: Global,
    calls: &[BulkCall],
    replies: Vec<Replies>,
) -> Result<Vec<Replies>, AllocError>
    requires calls { (ops : List BulkView) × (calls.now ≡ in_batch_order ops) }
    requires count { length replies.items ≡ length calls.now }
    ensures { IfOk result (λ ordered. (set : List ℕ) (ops : List BulkView) → calls.now ≡ in_batch_order ops
        → replies.items ≡ bulk_replies set (operations calls.now)
        → IsServedInSomeOrder bulk_set set ops ordered.items (bulk_after set (operations calls.now))) }
{
    let places = places_of(alloc, calls)?;
    in_call_order(alloc, &places, replies)
}

impl Bulk {
    /// The empty set.
    pub(crate) fn new(alloc: Global) -> Result<Bulk, AllocError>
        ensures { IfOk result (λ b. b.set ≡ []) }
    {
        let set = BulkSet::new(alloc)?;
        Ok(Bulk { set })
    }

    /// The set itself.
    pub(crate) fn into_set(self) -> BulkSet
        ensures { result ≡ self.set }
    {
        let Bulk { set } = self;
        set
    }
}

impl Combined for Bulk {
    type Op = BulkOp;

    type Reply = Replies;

    ghost object = { bulk_set };

    ghost content = { λ b. b.set };

    ghost fails = { λ b ops. ⊤ };

    fn serve(self, alloc: Global, ops: Vec<BulkOp>) -> Result<(Bulk, Vec<Replies>), AllocError>
        requires few { length ops.items ≤ MOST_WORKERS }
        ensures served { IfOk result (λ p. IsServedInSomeOrder bulk_set self.set ops.items p.1.items p.0.set) }
        ensures failed { OnErr result ⊤ }
    {
        let calls = in_batch_order(alloc, &ops)?;
        let (set, replies) = self.into_set().serve(alloc, &calls)?;
        let replies = in_operation_order(alloc, &calls, replies)?;
        Ok((Bulk { set }, replies))
    }
}
