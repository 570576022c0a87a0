//! The shop, which serves batches over all structures.
ghost use Rattle.std.specs.Prelude.{◌<◌, ◌≤◌, length, IfOk};
ghost use Rattle.seq_objects.specs.Pieces.{AllMeet};
ghost use Rattle.launch_batch.specs.Pieces.{Meets};
ghost use Rattle.structure_tests.specs.Shops.{AreFrom};
ghost use Rattle.limits.specs.declared.TheConstants.{MOST_WORKERS};

use batch_history::Batch;
use launch_batch::{PieceIn, PieceOut, Shop, run_piece};
use limits::MOST_WORKERS;
use seq_objects::{Call, Op, Reply};
use std::alloc::{AllocError, Global};
use std::test::Fail;
use test_rows::all_hold;

/// The calls of workers 0, 1, .. at the leaves 0, 1, ...
fn calls_from(alloc: Global, ops: &[Op]) -> Result<Vec<Call>, AllocError>
    requires { length ops.now ≤ MOST_WORKERS }
    ensures { IfOk result (λ v. AreFrom 0 (length ops.now) v.items) }
{
    let mut calls = Vec::with_capacity(alloc, ops.len())?;
    let mut worker = 0;
    for op in ops {
        calls.push(Call {
            worker,
            leaf: worker,
            op: *op,
        })?;
        worker += 1;
    }
    Ok(calls)
}

/// The operations of workers 0, 1, .., the places of the pieces of a first batch of them, and its entries: the worker and
/// the reply of each.
type Row = (&'static [Op], &'static [u32], &'static [(u32, Reply)]);

/// The places of pieces.
fn places_of(alloc: Global, pieces: &[PieceIn]) -> Result<Vec<u32>, AllocError> {
    let mut places = Vec::with_capacity(alloc, pieces.len())?;
    for piece in pieces {
        places.push(piece.place())?;
    }
    Ok(places)
}

/// Whether a batch has these entries.
fn has_entries(batch: &Batch, entries: &[(u32, Reply)]) -> bool {
    for (at, entry) in batch.entries().iter().enumerate() {
        match entries.get(at) {
            Some((worker, reply)) if entry.worker == *worker && entry.reply == *reply => {}
            _ => return false,
        }
    }
    batch.entries().len() == entries.len()
}

/// The outs of pieces that are run from the last to the first, in the order of the pieces.
fn run_backwards(alloc: Global, pieces: Vec<PieceIn>) -> Result<Vec<PieceOut>, AllocError>
    ensures { IfOk result (λ outs. AllMeet Meets pieces.items outs.items) }
{
    let mut pieces = pieces;
    match pieces.pop() {
        None => Ok(Vec::new(alloc)),
        Some(last) => {
            let out = run_piece(alloc, last)?;
            let mut outs = run_backwards(alloc, pieces)?;
            outs.push(out)?;
            Ok(outs)
        }
    }
}

/// A first batch, whose pieces are run from the last to the first, with their places and how many batches the shop has
/// then.
pub(crate) fn first_batch(alloc: Global, ops: &[Op]) -> Result<(Batch, Vec<u32>, usize), AllocError>
    requires some { 0 < length ops.now }
    requires few { length ops.now ≤ MOST_WORKERS }
{
    let shop = Shop::new(alloc)?;
    let calls = calls_from(alloc, ops)?;
    let (opened, pieces) = shop.begin(alloc, calls)?;
    let places = places_of(alloc, &pieces)?;
    let outs = run_backwards(alloc, pieces)?;
    let (shop, batch) = opened.end(alloc, outs)?;
    let kept = shop.into_history().batches().len();
    Ok((batch, places, kept))
}

/// Pushes before pops, a batch of all kinds, one of 32 takes, and batches on several objects: pops of two empty stacks,
/// 17 additions to a counter and one to another, takes of two queues, a tree and a stack of one number, two stacks whose
/// pieces go together, and 32 objects.
const BACKWARDS: &[Row] = &[
    (
        &[
            Op::Pop(0),
            Op::Pop(0),
            Op::Pop(0),
            Op::Pop(0),
            Op::Push(0, 10),
            Op::Push(0, 20),
        ],
        &[16, 17],
        &[
            (4, Reply::Unit),
            (5, Reply::Unit),
            (0, Reply::Number(20)),
            (1, Reply::Number(10)),
            (2, Reply::Empty),
            (3, Reply::Empty),
        ],
    ),
    (
        &[
            Op::PqTake(0),
            Op::TreeFind(0, 7),
            Op::Pop(0),
            Op::CounterAdd(0, 5),
            Op::TreeInsert(0, 7),
            Op::PqInsert(0, 9),
            Op::Push(0, 3),
            Op::CounterAdd(0, 2),
        ],
        &[0, 1, 16, 32, 48, 49, 50, 51, 52, 53, 54, 55],
        &[
            (3, Reply::Number(5)),
            (7, Reply::Number(7)),
            (6, Reply::Unit),
            (2, Reply::Number(3)),
            (1, Reply::No),
            (4, Reply::Yes),
            (5, Reply::Unit),
            (0, Reply::Number(9)),
        ],
    ),
    (
        &[Op::PqTake(0); 32],
        &[48, 49, 50, 51, 52, 53, 54, 55],
        &[
            (0, Reply::Empty),
            (1, Reply::Empty),
            (2, Reply::Empty),
            (3, Reply::Empty),
            (4, Reply::Empty),
            (5, Reply::Empty),
            (6, Reply::Empty),
            (7, Reply::Empty),
            (8, Reply::Empty),
            (9, Reply::Empty),
            (10, Reply::Empty),
            (11, Reply::Empty),
            (12, Reply::Empty),
            (13, Reply::Empty),
            (14, Reply::Empty),
            (15, Reply::Empty),
            (16, Reply::Empty),
            (17, Reply::Empty),
            (18, Reply::Empty),
            (19, Reply::Empty),
            (20, Reply::Empty),
            (21, Reply::Empty),
            (22, Reply::Empty),
            (23, Reply::Empty),
            (24, Reply::Empty),
            (25, Reply::Empty),
            (26, Reply::Empty),
            (27, Reply::Empty),
            (28, Reply::Empty),
            (29, Reply::Empty),
            (30, Reply::Empty),
            (31, Reply::Empty),
        ],
    ),
    (
        &[Op::Pop(1), Op::Pop(2)],
        &[16],
        &[(0, Reply::Empty), (1, Reply::Empty)],
    ),
    (
        &[
            Op::CounterAdd(0, 1),
            Op::CounterAdd(0, 1),
            Op::CounterAdd(0, 1),
            Op::CounterAdd(0, 1),
            Op::CounterAdd(0, 1),
            Op::CounterAdd(0, 1),
            Op::CounterAdd(0, 1),
            Op::CounterAdd(0, 1),
            Op::CounterAdd(0, 1),
            Op::CounterAdd(0, 1),
            Op::CounterAdd(0, 1),
            Op::CounterAdd(0, 1),
            Op::CounterAdd(0, 1),
            Op::CounterAdd(0, 1),
            Op::CounterAdd(0, 1),
            Op::CounterAdd(0, 1),
            Op::CounterAdd(0, 1),
            Op::CounterAdd(1, 1),
        ],
        &[0, 1, 2, 3, 4, 5, 6, 7, 8],
        &[
            (0, Reply::Number(1)),
            (1, Reply::Number(2)),
            (2, Reply::Number(3)),
            (3, Reply::Number(4)),
            (4, Reply::Number(5)),
            (5, Reply::Number(6)),
            (6, Reply::Number(7)),
            (7, Reply::Number(8)),
            (8, Reply::Number(9)),
            (9, Reply::Number(10)),
            (10, Reply::Number(11)),
            (11, Reply::Number(12)),
            (12, Reply::Number(13)),
            (13, Reply::Number(14)),
            (14, Reply::Number(15)),
            (15, Reply::Number(16)),
            (16, Reply::Number(17)),
            (17, Reply::Number(1)),
        ],
    ),
    (
        &[Op::PqTake(1), Op::PqTake(2)],
        &[48, 49, 50, 51, 52, 53, 54, 55],
        &[(0, Reply::Empty), (1, Reply::Empty)],
    ),
    (
        &[
            Op::TreeInsert(3, 5),
            Op::Push(3, 9),
            Op::TreeFind(3, 5),
            Op::Pop(3),
        ],
        &[16, 32],
        &[
            (1, Reply::Unit),
            (3, Reply::Number(9)),
            (2, Reply::No),
            (0, Reply::Yes),
        ],
    ),
    (
        &[Op::Pop(1), Op::Push(0, 3), Op::Push(1, 7)],
        &[16],
        &[(1, Reply::Unit), (2, Reply::Unit), (0, Reply::Number(7))],
    ),
    (
        &[
            Op::CounterAdd(0, 5),
            Op::CounterAdd(1, 6),
            Op::CounterAdd(2, 7),
            Op::CounterAdd(3, 8),
            Op::CounterAdd(4, 9),
            Op::CounterAdd(5, 10),
            Op::CounterAdd(6, 11),
            Op::CounterAdd(7, 12),
            Op::Push(0, 1),
            Op::Push(1, 1),
            Op::Push(2, 1),
            Op::Push(3, 1),
            Op::Push(4, 1),
            Op::Push(5, 1),
            Op::Push(6, 1),
            Op::Push(7, 1),
            Op::TreeFind(0, 1),
            Op::TreeFind(1, 1),
            Op::TreeFind(2, 1),
            Op::TreeFind(3, 1),
            Op::TreeFind(4, 1),
            Op::TreeFind(5, 1),
            Op::TreeFind(6, 1),
            Op::TreeFind(7, 1),
            Op::PqInsert(0, 1),
            Op::PqInsert(1, 1),
            Op::PqInsert(2, 1),
            Op::PqInsert(3, 1),
            Op::PqInsert(4, 1),
            Op::PqInsert(5, 1),
            Op::PqInsert(6, 1),
            Op::PqInsert(7, 1),
        ],
        &[0, 16, 32, 48, 49, 50, 51, 52, 53, 54, 55],
        &[
            (0, Reply::Number(5)),
            (1, Reply::Number(6)),
            (2, Reply::Number(7)),
            (3, Reply::Number(8)),
            (4, Reply::Number(9)),
            (5, Reply::Number(10)),
            (6, Reply::Number(11)),
            (7, Reply::Number(12)),
            (8, Reply::Unit),
            (9, Reply::Unit),
            (10, Reply::Unit),
            (11, Reply::Unit),
            (12, Reply::Unit),
            (13, Reply::Unit),
            (14, Reply::Unit),
            (15, Reply::Unit),
            (16, Reply::No),
            (17, Reply::No),
            (18, Reply::No),
            (19, Reply::No),
            (20, Reply::No),
            (21, Reply::No),
            (22, Reply::No),
            (23, Reply::No),
            (24, Reply::Unit),
            (25, Reply::Unit),
            (26, Reply::Unit),
            (27, Reply::Unit),
            (28, Reply::Unit),
            (29, Reply::Unit),
            (30, Reply::Unit),
            (31, Reply::Unit),
        ],
    ),
];

/// The place of the first batch that has other pieces or entries, if there is one.
fn first_wrong(alloc: Global, rows: &[Row]) -> Result<Option<usize>, AllocError> {
    for (place, row) in rows.iter().enumerate() {
        let (ops, places, entries) = *row;
        if ops.is_empty() || ops.len() > MOST_WORKERS as usize {
            return Ok(Some(place));
        }
        let (batch, found, kept) = first_batch(alloc, ops)?;
        if found.as_slice() != places || !has_entries(&batch, entries) || kept != 1 {
            return Ok(Some(place));
        }
    }
    Ok(None)
}

#[test]
fn pieces_may_be_run_backwards(rt: HostRuntime) -> Result<(), Fail> {
    all_hold(first_wrong(rt.alloc(), BACKWARDS)?)
}
