//! The map, in one thread and in several.

use crate::script::{Served, first_wrong};
use crate::words::push_words;
use batched_map::{MapOp, RankBook, in_batch_order};
use limits::MOST_WORKERS;
use std::alloc::{AllocError, Global};
use std::test::Fail;
use std::thread::Threads;
use test_rows::all_hold;

impl Served for RankBook {
    type Call = MapOp;

    fn empty(alloc: Global) -> Result<RankBook, AllocError> {
        RankBook::new(alloc)
    }

    fn serve<R: Threads + Sync>(
        self,
        rt: &R,
        alloc: Global,
        threads: usize,
        calls: &[MapOp],
        words: &mut String,
    ) -> Result<RankBook, AllocError> {
        if calls.len() > MOST_WORKERS as usize {
            return Ok(self);
        }
        let calls = in_batch_order(alloc, calls)?;
        let (next, replies) = self.batch_in_threads(rt, alloc, &calls, threads)?;
        push_words(words, &replies)?;
        Ok(next)
    }
}

/// The operations of a batch by worker, and the replies in batch order.
type Row = (&'static [MapOp], &'static str);

/// Batches that come one after another: a map that is filled, asked and changed. Queries come before updates.
const FEW: &[Row] = &[
    (
        &[MapOp::Put(10, 1), MapOp::Put(30, 3), MapOp::Put(20, 2)],
        "empty empty empty",
    ),
    (
        &[
            MapOp::Rank(25),
            MapOp::Nth(1),
            MapOp::Put(20, 9),
            MapOp::Del(30),
            MapOp::Nth(3),
        ],
        "2 20 empty 2 3",
    ),
    (
        &[MapOp::Get(20), MapOp::Get(30), MapOp::Rank(31)],
        "9 empty 2",
    ),
];

/// Batches without keys, on an empty map and on one with a key.
const KEYLESS: &[Row] = &[
    (&[], ""),
    (&[MapOp::Nth(0)], "empty"),
    (&[MapOp::Put(7, 70)], "empty"),
    (
        &[MapOp::Nth(4294967295), MapOp::Nth(0), MapOp::Nth(1)],
        "empty 7 empty",
    ),
];

/// Updates of one key, which are served by worker, and of several, by key.
const ORDERED: &[Row] = &[
    (
        &[
            MapOp::Put(5, 1),
            MapOp::Put(5, 2),
            MapOp::Del(5),
            MapOp::Get(5),
            MapOp::Put(5, 3),
        ],
        "empty empty 1 2 empty",
    ),
    (
        &[
            MapOp::Put(2, 20),
            MapOp::Put(1, 10),
            MapOp::Del(2),
            MapOp::Put(3, 30),
        ],
        "empty empty 20 empty",
    ),
    (&[MapOp::Nth(0), MapOp::Nth(1), MapOp::Nth(2)], "1 3 5"),
];

/// Questions and a removal of keys that are not there, and the least and the greatest key.
const EDGES: &[Row] = &[
    (
        &[MapOp::Del(9), MapOp::Rank(9), MapOp::Nth(0)],
        "0 empty empty",
    ),
    (
        &[MapOp::Put(4294967295, 4294967295), MapOp::Put(0, 0)],
        "empty empty",
    ),
    (
        &[
            MapOp::Rank(4294967295),
            MapOp::Rank(0),
            MapOp::Nth(0),
            MapOp::Nth(1),
            MapOp::Nth(2),
            MapOp::Nth(4294967295),
            MapOp::Get(0),
            MapOp::Del(4294967295),
        ],
        "1 0 0 4294967295 empty empty 0 4294967295",
    ),
];

/// A batch of 20 keys, and then one of 18 keys. It has 9 ranges; its indices fall in the last, in the first, in one
/// between, and past all.
const RANGES: &[Row] = &[
    (
        &[
            MapOp::Put(0, 0),
            MapOp::Put(10, 1),
            MapOp::Put(20, 2),
            MapOp::Put(30, 3),
            MapOp::Put(40, 4),
            MapOp::Put(50, 5),
            MapOp::Put(60, 6),
            MapOp::Put(70, 7),
            MapOp::Put(80, 8),
            MapOp::Put(90, 9),
            MapOp::Put(100, 10),
            MapOp::Put(110, 11),
            MapOp::Put(120, 12),
            MapOp::Put(130, 13),
            MapOp::Put(140, 14),
            MapOp::Put(150, 15),
            MapOp::Put(160, 16),
            MapOp::Put(170, 17),
            MapOp::Put(180, 18),
            MapOp::Put(190, 19),
        ],
        "empty empty empty empty empty empty empty empty empty empty \
empty empty empty empty empty empty empty empty empty empty",
    ),
    (
        &[
            MapOp::Rank(10),
            MapOp::Rank(20),
            MapOp::Rank(30),
            MapOp::Rank(40),
            MapOp::Rank(50),
            MapOp::Rank(60),
            MapOp::Rank(70),
            MapOp::Rank(80),
            MapOp::Rank(90),
            MapOp::Rank(100),
            MapOp::Rank(110),
            MapOp::Rank(120),
            MapOp::Rank(130),
            MapOp::Rank(140),
            MapOp::Rank(150),
            MapOp::Rank(160),
            MapOp::Rank(170),
            MapOp::Nth(19),
            MapOp::Nth(0),
            MapOp::Del(105),
            MapOp::Nth(10),
            MapOp::Nth(20),
            MapOp::Del(100),
        ],
        "1 2 3 4 5 6 7 8 9 10 11 12 13 14 15 16 17 190 0 100 empty 10 empty",
    ),
    (
        &[MapOp::Nth(9), MapOp::Nth(10), MapOp::Nth(19)],
        "90 110 empty",
    ),
];

#[test]
fn threads_make_no_difference(rt: HostRuntime) -> Result<(), Fail> {
    let lists = [FEW, KEYLESS, ORDERED, EDGES, RANGES];
    all_hold(first_wrong::<RankBook, _>(&rt, rt.alloc(), &lists)?)
}
