//! Cuts a batch into one piece for each shard.
ghost use Rattle.std.specs.Prelude.{◌≡◌, ◌<◌, ◌≤◌, length, IfOk};
ghost use Rattle.batched_pq.specs.Calls.{item_of, takes_in, inserts_of, takes_of, inserts_for};
ghost use Rattle.batched_pq.specs.Pieces.{ArePieces, shards_in};

use crate::piece::Piece;
use crate::shard::Shard;
use seq_objects::{Call, Op};
use std::alloc::{AllocError, Global};

/// The item that an operation inserts, if it is an insert.
fn item_of(op: Op) -> Option<u32>
    ensures { result ≡ item_of op }
{
    match op {
        Op::PqInsert(_, item) => Some(item),
        _ => None,
    }
}

/// 1 for a take, 0 for any other operation.
fn takes_in(op: Op) -> usize
    ensures is { result ≡ takes_in op }
    ensures small { result ≤ 1 }
{
    match op {
        Op::PqTake(_) => 1,
        _ => 0,
    }
}

/// The inserted items, in call order. The capacity is the number of calls less `takes`.
pub(crate) fn inserts_of(
    alloc: Global,
    calls: &[Call],
    takes: usize,
) -> Result<Vec<u32>, AllocError>
    ensures { IfOk result (λ v. v.items ≡ inserts_of calls.now) }
{
    let mut inserts = Vec::with_capacity(alloc, calls.len().saturating_sub(takes))?;
    for call in calls {
        if let Some(item) = item_of(call.op) {
            inserts.push(item)?;
        }
    }
    Ok(inserts)
}

/// How many of the calls are takes.
pub(crate) fn takes_of(calls: &[Call]) -> usize
    ensures { result ≡ takes_of calls.now }
{
    let mut takes = 0;
    for call in calls {
        takes += takes_in(call.op);
    }
    takes
}

/// The inserts of shard `number`: every eighth, starting at that index. It allocates nothing if there are none.
fn inserts_for(alloc: Global, number: usize, inserts: &[u32]) -> Result<Vec<u32>, AllocError>
    requires { number < 8 }
    ensures { IfOk result (λ v. v.items ≡ inserts_for number 0 inserts.now) }
{
    let mut own = Vec::with_capacity(alloc, inserts.len().saturating_sub(number).div_ceil(8))?;
    let mut i = number;
    while i < inserts.len() {
        own.push(inserts[i])?;
        i += 8;
    }
    Ok(own)
}

/// One piece for each shard, in shard order.
pub(crate) fn pieces_of(
    alloc: Global,
    shards: Vec<Shard>,
    inserts: &[u32],
    takes: usize,
) -> Result<Vec<Piece>, AllocError>
    requires { length shards.items ≡ 8 }
    ensures pieces { IfOk result (λ v. ArePieces 0 inserts.now takes v.items) }
    ensures shards { IfOk result (λ v. shards_in v.items ≡ shards.items) }
{
    let mut pieces = Vec::with_capacity(alloc, shards.len())?;
    let mut number = 0;
    for shard in shards {
        let own = inserts_for(alloc, number, inserts)?;
        pieces.push(Piece {
            shard,
            inserts: own,
            takes,
        })?;
        number += 1;
    }
    Ok(pieces)
}
