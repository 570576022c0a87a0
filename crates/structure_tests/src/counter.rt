//! The counter.

use batched_counter::Counter;
use seq_objects::{Call, Op, Reply, serve_batch};
use std::alloc::{AllocError, Global};
use std::test::Fail;

/// The sums so far.
const SUMS: &[Reply] = &[
    Reply::Number(7),
    Reply::Number(4294967302),
    Reply::Number(4294967302),
];

/// Whether the additions of a batch reply the sums so far.
fn are_sums(alloc: Global) -> Result<bool, AllocError> {
    let calls = [
        Call {
            worker: 0,
            leaf: 5,
            op: Op::CounterAdd(0, 7),
        },
        Call {
            worker: 1,
            leaf: 2,
            op: Op::CounterAdd(0, 4294967295),
        },
        Call {
            worker: 4,
            leaf: 3,
            op: Op::CounterAdd(0, 0),
        },
    ];
    let (_, replies) = serve_batch(alloc, Counter::new(alloc)?, &calls)?;
    Ok(replies.as_slice() == SUMS)
}

#[test]
fn additions_reply_their_sums(rt: HostRuntime) -> Result<(), Fail> {
    assert!(rt; are_sums(rt.alloc())?);
    Ok(())
}
