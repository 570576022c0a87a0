//! The queue and its heap.

use crate::batch::{Row, first_wrong};
use batched_pq::{Heap, Queue};
use seq_objects::{Op, Reply};
use std::alloc::{AllocError, Global};
use std::test::Fail;
use test_rows::all_hold;

/// Inserts before takes, equal items in several shards, and takes of an empty queue.
const ROWS: &[Row] = &[
    (
        &[Op::PqTake(0), Op::PqTake(0), Op::PqTake(0)],
        &[Reply::Empty, Reply::Empty, Reply::Empty],
    ),
    (
        &[
            Op::PqTake(0),
            Op::PqInsert(0, 9),
            Op::PqInsert(0, 4294967295),
        ],
        &[Reply::Unit, Reply::Unit, Reply::Number(9)],
    ),
    (
        &[Op::PqInsert(0, 7), Op::PqInsert(0, 3), Op::PqInsert(0, 3)],
        &[Reply::Unit, Reply::Unit, Reply::Unit],
    ),
    (
        &[
            Op::PqTake(0),
            Op::PqTake(0),
            Op::PqInsert(0, 3),
            Op::PqTake(0),
        ],
        &[
            Reply::Unit,
            Reply::Number(3),
            Reply::Number(3),
            Reply::Number(3),
        ],
    ),
    (
        &[Op::PqTake(0), Op::PqTake(0), Op::PqTake(0)],
        &[Reply::Number(7), Reply::Number(4294967295), Reply::Empty],
    ),
];

/// Four and nine times five, and then eleven takes, by batches of three.
const FOUR_AND_FIVES: &[Row] = &[
    (&[Op::PqInsert(0, 5); 3], &[Reply::Unit; 3]),
    (&[Op::PqInsert(0, 5); 3], &[Reply::Unit; 3]),
    (&[Op::PqInsert(0, 5); 3], &[Reply::Unit; 3]),
    (&[Op::PqInsert(0, 4)], &[Reply::Unit]),
    (
        &[Op::PqTake(0); 3],
        &[Reply::Number(4), Reply::Number(5), Reply::Number(5)],
    ),
    (&[Op::PqTake(0); 3], &[Reply::Number(5); 3]),
    (&[Op::PqTake(0); 3], &[Reply::Number(5); 3]),
    (&[Op::PqTake(0); 2], &[Reply::Number(5), Reply::Empty]),
];

#[test]
fn the_least_items_are_taken(rt: HostRuntime) -> Result<(), Fail> {
    let queue = Queue::new(rt.alloc())?;
    all_hold(first_wrong(rt.alloc(), queue, Op::PqTake(0), ROWS)?)?;
    let queue = Queue::new(rt.alloc())?;
    all_hold(first_wrong(rt.alloc(), queue, Op::PqTake(0), FOUR_AND_FIVES)?)
}

/// Puts the items 20,000, 19,999, .. 1 into a heap.
fn fill(alloc: Global, heap: &mut Heap) -> Result<(), AllocError> {
    for item in 0..20000 {
        heap.push(alloc, 20000 - item)?;
    }
    Ok(())
}

/// A heap of twenty thousand items is taken from, and dropped.
#[test]
fn a_large_heap_is_taken_from_and_dropped(rt: HostRuntime) -> Result<(), Fail> {
    let mut heap = Heap::new(rt.alloc());
    fill(rt.alloc(), &mut heap)?;
    assert!(rt; heap.pop() == Some(1) && heap.pop() == Some(2));
    Ok(())
}
