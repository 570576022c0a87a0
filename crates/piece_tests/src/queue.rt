//! The queue, in one thread and in several.

use crate::script::{Served, first_wrong};
use crate::words::push_words;
use batched_queue::{FifoQueue, in_batch_order};
use limits::MOST_WORKERS;
use std::alloc::{AllocError, Global};
use std::test::Fail;
use std::thread::Threads;
use test_rows::all_hold;

impl Served for FifoQueue {
    type Call = Option<u32>;

    fn empty(alloc: Global) -> Result<FifoQueue, AllocError> {
        FifoQueue::new(alloc)
    }

    fn serve<R: Threads + Sync>(
        self,
        rt: &R,
        alloc: Global,
        threads: usize,
        calls: &[Option<u32>],
        words: &mut String,
    ) -> Result<FifoQueue, AllocError> {
        if calls.len() > MOST_WORKERS as usize {
            return Ok(self);
        }
        let calls = in_batch_order(alloc, calls)?;
        let (next, replies) = self.batch_in_threads(rt, alloc, &calls, threads)?;
        push_words(words, &replies)?;
        Ok(next)
    }
}

/// The operations of a batch by worker, a put or a get, and the replies in batch order.
type Row = (&'static [Option<u32>], &'static str);

/// A get.
const GET: Option<u32> = None;

/// Puts before gets, whatever their workers; gets of an empty queue; the greatest number and the least.
const FEW: &[Row] = &[
    (&[Some(1), GET, Some(2)], "ok ok 1"),
    (&[GET, GET], "2 empty"),
    (&[], ""),
    (&[GET, Some(5), GET, Some(6), GET], "ok ok 5 6 empty"),
    (&[Some(4294967295), Some(0), GET], "ok ok 4294967295"),
    (&[GET], "0"),
];

/// A queue that runs empty, and then items in all stripes.
const ROUND: &[Row] = &[
    (&[GET, GET, Some(100)], "ok 100 empty"),
    (
        &[
            Some(1),
            Some(2),
            Some(3),
            Some(4),
            Some(5),
            Some(6),
            Some(7),
            Some(8),
            Some(9),
            Some(10),
            Some(11),
            Some(12),
            Some(13),
            Some(14),
            Some(15),
            Some(16),
            Some(17),
        ],
        "ok ok ok ok ok ok ok ok ok ok ok ok ok ok ok ok ok",
    ),
    (
        &[
            GET, GET, GET, GET, GET, GET, GET, GET, GET, GET, GET, GET, GET, GET, GET, GET, GET,
            GET,
        ],
        "1 2 3 4 5 6 7 8 9 10 11 12 13 14 15 16 17 empty",
    ),
];

/// A batch of 32 that touches each stripe, and one that takes what it leaves.
const FULL: &[Row] = &[
    (
        &[
            GET,
            GET,
            GET,
            GET,
            GET,
            GET,
            GET,
            GET,
            GET,
            GET,
            GET,
            GET,
            GET,
            GET,
            GET,
            Some(1),
            Some(2),
            Some(3),
            Some(4),
            Some(5),
            Some(6),
            Some(7),
            Some(8),
            Some(9),
            Some(10),
            Some(11),
            Some(12),
            Some(13),
            Some(14),
            Some(15),
            Some(16),
            Some(17),
        ],
        "ok ok ok ok ok ok ok ok ok ok ok ok ok ok ok ok ok 1 2 3 4 5 6 7 8 9 10 11 12 13 14 15",
    ),
    (&[GET, GET, GET], "16 17 empty"),
];

#[test]
fn threads_make_no_difference(rt: HostRuntime) -> Result<(), Fail> {
    all_hold(first_wrong::<FifoQueue, _>(&rt, rt.alloc(), &[FEW, ROUND, FULL])?)
}
