//! Threads that share collections.
ghost use Rattle.std.specs.Prelude.{◌≡◌, false};
ghost use Rattle.shared_calls.specs.Views.{IsCallerOf, number_of, is_lost};

use batched_map::MapOp;
use bulk_calls::{BulkKind, BulkOp, Replies};
use seq_objects::Reply;
use shared_calls::{Caller, Failed};
use shared_collections::laws::threads_share_sets;
use shared_collections::{
    Bulk, Fifo, FifoOp, FifoReply, RankedMap, RankedOp, RankedReply, SharedBulkSet, SharedFifo,
    SharedMap,
};
use std::sync::Wait;
use std::test::*;
use std::thread;

/// The calls of each kind that each thread makes.
const CALLS: u32 = 2_000;

/// Puts an item and takes one, again and again.
fn put_and_get<R: Wait>(
    rt: &R,
    queue: &SharedFifo,
    caller: &mut Caller<Fifo>,
) -> Result<(), Failed<FifoOp, FifoReply>>
    requires caller { IsCallerOf queue.now.shared caller.old }
    requires sound { is_lost caller.old ≡ false }
    ensures { IsCallerOf queue.now.shared caller.new × (number_of caller.new ≡ number_of caller.old) }
{
    for item in 0..CALLS {
        queue.put(rt, caller, item)?;
        queue.get(rt, caller)?;
    }
    Ok(())
}

/// A thread finds an item whenever it has put one before, so none is left.
#[test]
fn four_threads_put_and_get(rt: HostRuntime) -> Result<(), Fail> {
    let (queue, callers) = SharedFifo::new(rt.alloc(), 4)?;
    let shared = &queue;
    let callers = thread::map_vec(
        &rt,
        callers,
        &|mut caller: Caller<Fifo>| {
            drop(put_and_get(&rt, shared, &mut caller));
            caller
        },
    )?;
    let Some(left) = queue.close(callers) else {
        panic!(rt; "the queue is lost");
    };
    let calls = batched_queue::in_batch_order(rt.alloc(), &[None])?;
    let (_, replies) = left.serve(rt.alloc(), &calls)?;
    assert!(rt; replies.as_slice() == [Reply::Empty].as_slice());
    Ok(())
}

/// Makes a call of each kind, again and again. Each key below `CALLS` stays, and the key `CALLS` does not.
fn put_and_remove<R: Wait>(
    rt: &R,
    map: &SharedMap,
    caller: &mut Caller<RankedMap>,
) -> Result<(), Failed<RankedOp, RankedReply>>
    requires caller { IsCallerOf map.now.shared caller.old }
    requires sound { is_lost caller.old ≡ false }
    ensures { IsCallerOf map.now.shared caller.new × (number_of caller.new ≡ number_of caller.old) }
{
    for key in 0..CALLS {
        map.put(rt, caller, key, key)?;
        map.put(rt, caller, CALLS, key)?;
        map.get(rt, caller, key)?;
        map.rank(rt, caller, key)?;
        map.nth(rt, caller, key)?;
        map.remove(rt, caller, CALLS)?;
    }
    Ok(())
}

#[test]
fn four_threads_put_and_remove(rt: HostRuntime) -> Result<(), Fail> {
    let (map, callers) = SharedMap::new(rt.alloc(), 4)?;
    let shared = &map;
    let callers = thread::map_vec(
        &rt,
        callers,
        &|mut caller: Caller<RankedMap>| {
            drop(put_and_remove(&rt, shared, &mut caller));
            caller
        },
    )?;
    let Some(left) = map.close(callers) else {
        panic!(rt; "the map is lost");
    };
    let asked = [
        MapOp::Rank(u32::MAX),
        MapOp::Get(CALLS),
        MapOp::Nth(CALLS - 1),
    ];
    let calls = batched_map::in_batch_order(rt.alloc(), &asked)?;
    let (_, replies) = left.serve(rt.alloc(), &calls)?;
    let last = u64::from(CALLS - 1);
    assert!(rt;
        replies.as_slice()
            == [Reply::Number(last + 1), Reply::Empty, Reply::Number(last)].as_slice()
    );
    Ok(())
}

/// Inserts keys and removes some of them, again and again.
fn insert_and_remove<R: Wait>(
    rt: &R,
    set: &SharedBulkSet,
    caller: &mut Caller<Bulk>,
) -> Result<(), Failed<BulkOp, Replies>>
    requires caller { IsCallerOf set.now.shared caller.old }
    requires sound { is_lost caller.old ≡ false }
    ensures { IsCallerOf set.now.shared caller.new × (number_of caller.new ≡ number_of caller.old) }
{
    for _ in 0..CALLS {
        set.insert_all(rt, caller, &[5, 3, 8, 3])?;
        set.find_all(rt, caller, &[3])?;
        set.remove_all(rt, caller, &[8, 5])?;
    }
    Ok(())
}

#[test]
fn four_threads_insert_and_remove(rt: HostRuntime) -> Result<(), Fail> {
    threads_share_sets();
    let (set, callers) = SharedBulkSet::new(rt.alloc(), 4)?;
    let shared = &set;
    let callers = thread::map_vec(
        &rt,
        callers,
        &|mut caller: Caller<Bulk>| {
            drop(insert_and_remove(&rt, shared, &mut caller));
            caller
        },
    )?;
    let Some(left) = set.close(callers) else {
        panic!(rt; "the set is lost");
    };
    let mut find = BulkOp::new(BulkKind::Find);
    find.push(3);
    find.push(5);
    find.push(8);
    let ops = vec![in rt.alloc(); find]?;
    let calls = bulk_calls::in_batch_order(rt.alloc(), &ops)?;
    let (_, replies) = left.serve(rt.alloc(), &calls)?;
    assert!(rt; replies.len() == 1);
    assert!(rt; replies[0].answers() == [true, false, false].as_slice());
    Ok(())
}
