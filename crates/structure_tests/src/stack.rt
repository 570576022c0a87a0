//! The stack and its rooms.

use crate::batch::{Row, are_of, calls_of, first_wrong};
use batched_stack::Stack;
use limits::MOST_WORKERS;
use seq_objects::{Batched, Op, Reply, serve_batch};
use std::alloc::{AllocError, Global};
use std::test::Fail;
use test_rows::all_hold;

/// Pushes before pops, pops of later batches, and pops of an empty stack.
const ROWS: &[Row] = &[
    (&[Op::Pop(0); 4], &[Reply::Empty; 4]),
    (
        &[
            Op::Pop(0),
            Op::Push(0, 10),
            Op::Push(0, 20),
            Op::Push(0, 30),
        ],
        &[Reply::Unit, Reply::Unit, Reply::Unit, Reply::Number(30)],
    ),
    (&[Op::Push(0, 4294967295)], &[Reply::Unit]),
    (
        &[Op::Pop(0), Op::Pop(0), Op::Pop(0), Op::Pop(0)],
        &[
            Reply::Number(4294967295),
            Reply::Number(20),
            Reply::Number(10),
            Reply::Empty,
        ],
    ),
];

#[test]
fn pushes_come_before_pops(rt: HostRuntime) -> Result<(), Fail> {
    let stack = Stack::new(rt.alloc())?;
    all_hold(first_wrong(rt.alloc(), stack, Op::Pop(0), ROWS)?)
}

/// How many pieces four pops of an empty stack have.
fn pieces_of_empty_pops(alloc: Global) -> Result<usize, AllocError> {
    let calls = calls_of(alloc, &[Op::Pop(0); 4])?;
    if !are_of(&calls, Op::Pop(0)) {
        return Ok(0);
    }
    let (_rest, pieces) = Stack::new(alloc)?.begin(alloc, &calls)?;
    Ok(pieces.len())
}

#[test]
fn pops_of_an_empty_stack_are_one_piece(rt: HostRuntime) -> Result<(), Fail> {
    assert!(rt; pieces_of_empty_pops(rt.alloc())? == 1);
    Ok(())
}

/// The stack after some batches of up to 32 equal operations.
fn after(alloc: Global, stack: Stack, batches: u32, ops: &[Op]) -> Result<Stack, AllocError> {
    let mut stack = stack;
    for _ in 0..batches {
        if ops.is_empty() || ops.len() > MOST_WORKERS as usize {
            return Ok(stack);
        }
        let calls = calls_of(alloc, ops)?;
        if !are_of(&calls, Op::Pop(0)) {
            return Ok(stack);
        }
        let (next, _replies) = serve_batch(alloc, stack, &calls)?;
        stack = next;
    }
    Ok(stack)
}

/// How many batches of which operations come before the first stripe has a room.
const ROOMS: &[(u32, &[Op], u64)] = &[
    (8, &[Op::Push(0, 1); 32], 16),
    (1, &[Op::Push(0, 1)], 64),
    (4, &[Op::Pop(0); 32], 64),
    (1, &[Op::Pop(0)], 64),
    (1, &[Op::Pop(0); 16], 16),
];

/// The place of the first row after which the first stripe has another room, if there is one.
fn first_other_room(alloc: Global) -> Result<Option<usize>, AllocError> {
    let mut stack = Stack::new(alloc)?;
    for (place, row) in ROOMS.iter().enumerate() {
        let (batches, ops, room) = *row;
        stack = after(alloc, stack, batches, ops)?;
        if stack.rooms().first() != Some(&room) {
            return Ok(Some(place));
        }
    }
    Ok(None)
}

#[test]
fn a_room_grows_and_shrinks_by_the_rule(rt: HostRuntime) -> Result<(), Fail> {
    all_hold(first_other_room(rt.alloc())?)
}
