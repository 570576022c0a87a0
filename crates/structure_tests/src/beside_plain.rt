//! Batches of 32 calls, beside one thread.
ghost use Rattle.std.specs.Prelude.{List};
ghost use Rattle.seq_objects.specs.declared.call.Call.{Call as CallOf};
ghost use Rattle.seq_objects.specs.Batches.{AreOf, kind_of};

use crate::batch::{are_of, calls_of};
use crate::plain::first_wrong;
use crate::shop::first_batch;
use batched_pq::Queue;
use batched_stack::Stack;
use batched_tree::TreeSet;
use limits::MOST_WORKERS;
use seq_objects::{Batched, Call, Op, Reply, serve_batch, spin};
use std::alloc::{AllocError, Global};
use std::test::Fail;

/// How many batches of 32 calls are served.
const BATCHES: u32 = 4;

/// An operation on the object of another one, by a number.
fn drawn(one: Op, number: u32) -> Op {
    let item = number / 256 % 24;
    match (one, number / 65536 % 4) {
        (Op::CounterAdd(..), _) => Op::CounterAdd(0, number),
        (Op::Push(..) | Op::Pop(_), 0 | 1) => Op::Pop(0),
        (Op::Push(..) | Op::Pop(_), _) => Op::Push(0, item),
        (Op::PqInsert(..) | Op::PqTake(_), 0 | 1) => Op::PqTake(0),
        (Op::PqInsert(..) | Op::PqTake(_), _) => Op::PqInsert(0, item),
        (_, 0) => Op::TreeFind(0, item),
        (_, 1) => Op::TreeNext(0, item),
        (_, 2) => Op::TreeRemove(0, item),
        _ => Op::TreeInsert(0, item),
    }
}

/// The operations of a batch, by numbers that look random.
fn operations(alloc: Global, one: Op, batch: u32) -> Result<Vec<Op>, AllocError> {
    let mut ops = Vec::with_capacity(alloc, MOST_WORKERS as usize)?;
    for call in 0..32u32 {
        ops.push(drawn(one, spin(batch % BATCHES * 32 + call + 20)))?;
    }
    Ok(ops)
}

/// Appends the operations of calls, with their replies.
fn append(
    served: &mut Vec<(Op, Reply)>,
    calls: &[Call],
    replies: &[Reply],
) -> Result<(), AllocError> {
    for (call, reply) in calls.iter().zip(replies.iter()) {
        served.push((call.op, *reply))?;
    }
    Ok(())
}

/// The operations of batches of 32 calls in the order in which a structure serves them, with its replies.
fn served<T: Batched>(alloc: Global, structure: T, one: Op) -> Result<Vec<(Op, Reply)>, AllocError>
    requires { (before : T) (calls : List CallOf) → AreOf (kind_of one) calls → T.may_serve before calls }
{
    let mut structure = structure;
    let mut served = Vec::new(alloc);
    for batch in 0..BATCHES {
        let ops = operations(alloc, one, batch)?;
        if ops.is_empty() || ops.len() > MOST_WORKERS as usize {
            return Ok(served);
        }
        let calls = calls_of(alloc, &ops)?;
        if !are_of(&calls, one) {
            return Ok(served);
        }
        let (next, replies) = serve_batch(alloc, structure, &calls)?;
        append(&mut served, &calls, &replies)?;
        structure = next;
    }
    Ok(served)
}

/// Whether these are so many calls, with the replies that one thread gives them.
fn are_as_by_one_thread(
    alloc: Global,
    served: &[(Op, Reply)],
    count: usize,
) -> Result<bool, AllocError> {
    if served.len() != count || count >= 1000 {
        return Ok(false);
    }
    Ok(first_wrong(alloc, served)?.is_none())
}

/// Whether 32 additions of one batch, which a shop serves, have the replies that one thread gives them.
fn are_additions_as_by_one_thread(alloc: Global) -> Result<bool, AllocError> {
    let ops = operations(alloc, Op::CounterAdd(0, 0), 0)?;
    if ops.is_empty() || ops.len() > MOST_WORKERS as usize {
        return Ok(false);
    }
    let mut served = Vec::new(alloc);
    let (batch, _places, _kept) = first_batch(alloc, &ops)?;
    for entry in batch.entries() {
        served.push((entry.op, entry.reply))?;
    }
    are_as_by_one_thread(alloc, &served, 32)
}

#[test]
fn batches_of_32_calls_are_served_as_by_one_thread(rt: HostRuntime) -> Result<(), Fail> {
    assert!(rt; are_additions_as_by_one_thread(rt.alloc())?);
    let calls = served(rt.alloc(), Stack::new(rt.alloc())?, Op::Pop(0))?;
    assert!(rt; are_as_by_one_thread(rt.alloc(), &calls, 128)?);
    let set = TreeSet::new(rt.alloc())?;
    set.keys_ascend();
    let calls = served(rt.alloc(), set, Op::TreeFind(0, 0))?;
    assert!(rt; are_as_by_one_thread(rt.alloc(), &calls, 128)?);
    let calls = served(rt.alloc(), Queue::new(rt.alloc())?, Op::PqTake(0))?;
    assert!(rt; are_as_by_one_thread(rt.alloc(), &calls, 128)?);
    Ok(())
}
