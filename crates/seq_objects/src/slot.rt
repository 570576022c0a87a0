//! The sequential implementation of the objects of one number.
ghost use Rattle.std.specs.Prelude.{◌≡◌, IfOk, OnOk, OnErr, IsOk};
ghost use Rattle.seq_objects.specs.Objects.{opening, after, reply_to, CanServe, least_above};
ghost use Rattle.seq_objects.specs.Code.Inserting.{TakesNone};

use crate::bag::Bag;
use crate::op::Op;
use crate::reply::Reply;
use std::alloc::{AllocError, Global};
use std::collections::BTreeSet;
use std::marker::Model;
use std::ops::Bound;

/// The objects of one number: one of each kind, which serve one operation at a time. Contracts see them as `Objects`.
#[derive(Drop)]
pub(crate) struct Slot {
    counter: u64,
    stack: Vec<u32>,
    tree: BTreeSet<u32>,
    queue: Bag,
}

impl Model for Slot {
    ghost use Rattle.seq_objects.specs.Objects.{Objects};

    ghost Value = { Objects };

    ghost view = { λ p. record { counter = p.counter; stack = p.stack.items; set = p.tree.keys; bag = p.queue } };
}

impl Slot {
    /// The objects at the opening: the counter is 0, and the others are empty.
    pub(crate) fn new(alloc: Global) -> Slot
        ensures { result ≡ opening }
    {
        Slot {
            counter: 0,
            stack: Vec::new(alloc),
            tree: BTreeSet::new(alloc),
            queue: Bag::new(alloc),
        }
    }

    /// Serves one operation, whatever its number.
    #[tactic(auto, using(crate::proofs::Keys::same_has, crate::proofs::Keys::same_with_key, crate::proofs::Keys::same_without_key))]
    pub(crate) fn serve(&mut self, op: Op) -> Result<Reply, AllocError>
        requires { CanServe self.old op }
        ensures reply { IfOk result (λ reply. reply ≡ reply_to self.old op) }
        ensures after { OnOk result (self.new ≡ after self.old op) }
        ensures err { OnErr result (self.new ≡ self.old) }
        ensures sure { TakesNone op → IsOk result }
    {
        let reply = match op {
            Op::CounterAdd(_, addend) => {
                self.counter += u64::from(addend);
                Reply::Number(self.counter)
            }
            Op::Push(_, item) => {
                self.stack.push(item)?;
                Reply::Unit
            }
            Op::Pop(_) => Reply::number_or_empty(self.stack.pop()),
            Op::TreeInsert(_, key) => Reply::yes_or_no(self.tree.insert(key)?),
            Op::TreeRemove(_, key) => Reply::yes_or_no(self.tree.remove(&key)),
            Op::TreeFind(_, key) => Reply::yes_or_no(self.tree.contains(&key)),
            Op::TreeNext(_, key) => Reply::number_or_empty(next_key(&self.tree, key)),
            Op::PqInsert(_, item) => {
                self.queue.insert(item)?;
                Reply::Unit
            }
            Op::PqTake(_) => Reply::number_or_empty(self.queue.take_least()),
        };
        Ok(reply)
    }
}

/// The least element of `keys` that is strictly greater than `key`.
#[tactic(auto, using(crate::proofs::Keys::first_above))]
fn next_key(keys: &BTreeSet<u32>, key: u32) -> Option<u32>
    ensures { result ≡ least_above key keys.now.keys }
{
    let mut greater = keys.range((Bound::Excluded(key), Bound::Unbounded));
    greater.next().copied()
}
