//! The set that serves batches.

use crate::batch::{Row, first_wrong};
use batched_tree::TreeSet;
use seq_objects::{Op, Reply};
use std::test::Fail;
use test_rows::all_hold;

/// Queries see the keys before the updates, also those of another piece, and updates go by their keys.
const ROWS: &[Row] = &[
    (
        &[
            Op::TreeInsert(0, 30),
            Op::TreeInsert(0, 10),
            Op::TreeInsert(0, 20),
        ],
        &[Reply::Yes, Reply::Yes, Reply::Yes],
    ),
    (
        &[
            Op::TreeNext(0, 10),
            Op::TreeInsert(0, 15),
            Op::TreeNext(0, 30),
        ],
        &[Reply::Number(20), Reply::Empty, Reply::Yes],
    ),
    (
        &[
            Op::TreeFind(0, 0),
            Op::TreeNext(0, 0),
            Op::TreeNext(0, 10),
            Op::TreeNext(0, 15),
            Op::TreeNext(0, 4294967295),
        ],
        &[
            Reply::No,
            Reply::Number(10),
            Reply::Number(15),
            Reply::Number(20),
            Reply::Empty,
        ],
    ),
    (
        &[
            Op::TreeRemove(0, 15),
            Op::TreeInsert(0, 15),
            Op::TreeFind(0, 15),
            Op::TreeRemove(0, 11),
        ],
        &[Reply::Yes, Reply::No, Reply::Yes, Reply::Yes],
    ),
    (
        &[Op::TreeFind(0, 15), Op::TreeNext(0, 15)],
        &[Reply::Yes, Reply::Number(20)],
    ),
];

#[test]
fn queries_come_before_updates(rt: HostRuntime) -> Result<(), Fail> {
    let set = TreeSet::new(rt.alloc())?;
    set.keys_ascend();
    all_hold(first_wrong(rt.alloc(), set, Op::TreeFind(0, 0), ROWS)?)
}
