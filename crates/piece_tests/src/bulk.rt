//! The set whose calls carry many keys, in one thread and in several.

use crate::script::{Served, first_wrong};
use bulk_calls::{BulkCall, BulkKind, BulkOp, BulkSet, Replies, in_batch_order};
use limits::{MOST_BULK_KEYS, MOST_WORKERS};
use std::alloc::{AllocError, Global};
use std::test::Fail;
use std::thread::Threads;
use test_rows::all_hold;

const INSERT: BulkKind = BulkKind::Insert;

const REMOVE: BulkKind = BulkKind::Remove;

const FIND: BulkKind = BulkKind::Find;

/// The calls of a batch by worker, and the replies in batch order.
type Row = (&'static [(BulkKind, &'static [u32])], &'static str);

/// Finds before inserts and removes, whatever their workers; one key in several calls, and several times in one.
const FEW: &[Row] = &[
    (
        &[(INSERT, &[5, 7, 5]), (REMOVE, &[7, 9]), (FIND, &[5, 7])],
        "no no; yes yes no; yes no",
    ),
    (&[], ""),
    (&[(FIND, &[5, 7, 9])], "yes no no"),
    (
        &[
            (INSERT, &[9, 1]),
            (REMOVE, &[1, 9, 1]),
            (INSERT, &[1]),
            (FIND, &[1, 9]),
        ],
        "no no; yes yes; yes yes no; yes",
    ),
    (&[(INSERT, &[3, 1, 2, 3, 1])], "yes no yes no no"),
    (
        &[
            (REMOVE, &[5]),
            (INSERT, &[5]),
            (REMOVE, &[5]),
            (FIND, &[5]),
            (INSERT, &[5]),
        ],
        "yes; yes; yes; yes; yes",
    ),
    (&[(REMOVE, &[2]), (INSERT, &[2])], "yes; yes"),
    (
        &[(INSERT, &[30, 10, 20]), (INSERT, &[20, 40, 10])],
        "yes yes yes; no yes no",
    ),
    (
        &[(FIND, &[]), (INSERT, &[4294967295, 0, 0])],
        "; yes yes no",
    ),
];

/// Keys of all ranges in one call, out of order; then each range has keys of several calls.
const WIDE: &[Row] = &[
    (
        &[(
            INSERT,
            &[
                170, 160, 150, 140, 130, 120, 110, 100, 90, 80, 70, 60, 50, 40, 30, 20, 10, 170, 10,
            ],
        )],
        "yes yes yes yes yes yes yes yes yes yes yes yes yes yes yes yes yes no no",
    ),
    (
        &[
            (REMOVE, &[170, 20, 90, 20]),
            (FIND, &[10, 15, 20, 90, 170, 175]),
            (
                INSERT,
                &[175, 165, 155, 145, 135, 125, 115, 105, 95, 85, 20, 170, 175],
            ),
        ],
        "yes no yes yes yes no; yes yes yes no; yes yes yes yes yes yes yes yes yes yes yes yes no",
    ),
    (&[(FIND, &[170, 20, 90, 175])], "yes yes no yes"),
];

/// Appends the answers of one reply in words, behind those of another where there is one.
fn push_answers(words: &mut String, first: bool, answers: &[bool]) -> Result<(), AllocError> {
    if !first {
        words.push_str("; ")?;
    }
    for (place, answer) in answers.iter().enumerate() {
        if place > 0 {
            words.push(' ')?;
        }
        words.push_str(if *answer { "yes" } else { "no" })?;
    }
    Ok(())
}

/// Appends replies in words.
fn push_replies(words: &mut String, replies: &[Replies]) -> Result<(), AllocError> {
    for (place, reply) in replies.iter().enumerate() {
        push_answers(words, place == 0, reply.answers())?;
    }
    Ok(())
}

/// Adds a key to an operation that has fewer than `MOST_BULK_KEYS`.
fn push_key(operation: &mut BulkOp, key: u32) {
    if operation.keys().len() < MOST_BULK_KEYS {
        operation.push(key);
    }
}

/// The operations of a row.
fn operations_of(
    alloc: Global,
    calls: &[(BulkKind, &'static [u32])],
) -> Result<Vec<BulkOp>, AllocError> {
    let mut operations = Vec::new(alloc);
    for (kind, keys) in calls {
        let mut operation = BulkOp::new(*kind);
        for key in keys.iter() {
            push_key(&mut operation, *key);
        }
        operations.push(operation)?;
    }
    Ok(operations)
}

impl Served for BulkSet {
    type Call = (BulkKind, &'static [u32]);

    fn empty(alloc: Global) -> Result<BulkSet, AllocError> {
        BulkSet::new(alloc)
    }

    fn serve<R: Threads + Sync>(
        self,
        rt: &R,
        alloc: Global,
        threads: usize,
        calls: &[(BulkKind, &'static [u32])],
        words: &mut String,
    ) -> Result<BulkSet, AllocError> {
        let operations = operations_of(alloc, calls)?;
        if operations.len() > MOST_WORKERS as usize {
            return Ok(self);
        }
        let calls = in_batch_order(alloc, &operations)?;
        let (next, replies) = self.batch_in_threads(rt, alloc, &calls, threads)?;
        push_replies(words, &replies)?;
        Ok(next)
    }
}

#[test]
fn threads_make_no_difference(rt: HostRuntime) -> Result<(), Fail> {
    all_hold(first_wrong::<BulkSet, _>(&rt, rt.alloc(), &[FEW, WIDE])?)
}

/// Whether there is one reply, with these answers.
fn is_one_with(replies: &[Replies], answers: &[bool]) -> bool {
    replies.len() == 1 && replies[0].answers() == answers
}

#[test]
fn a_literal_call_has_its_keys_in_front(rt: HostRuntime) -> Result<(), Fail> {
    let what = BulkOp {
        kind: INSERT,
        keys: [8; MOST_BULK_KEYS],
        count: 2,
    };
    let calls = [BulkCall { worker: 40, what }];
    let set = BulkSet::new(rt.alloc())?;
    let (_set, replies) = set.batch(&rt, rt.alloc(), &calls)?;
    assert!(rt; is_one_with(&replies, &[true, false]));
    Ok(())
}
