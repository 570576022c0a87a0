//! Serves the calls of a batch on one thread.
ghost use Rattle.std.specs.Prelude.{◌≡◌, ◌<◌, [], length, List, IfOk};
ghost use Rattle.object_rows.specs.Contents.{store_of, MayServeOwn};
ghost use Rattle.object_rows.specs.Contexts.{HasServed};
ghost use Rattle.object_rows.specs.Code.Closing.{ClosesOne};
ghost use Rattle.seq_objects.specs.declared.call.Call.{Call as CallOf};
ghost use Rattle.seq_objects.specs.Batches.{AreOneBatch, calls_at};

use crate::by_number::ByNumber;
use crate::close::close_row;
use crate::dealt::are_all_at;
use crate::fresh::Fresh;
use crate::open::{open_row, taken_or_fresh};
use crate::row::Row;
use crate::run::run_rows;
use seq_objects::{Batched, Call, Reply, serve_batch};
use std::alloc::{AllocError, Global};

/// Serves calls that are all of one number, and returns the replies to them.
fn serve_one<T: Batched, F: Fresh<T>>(
    alloc: Global,
    structures: &mut ByNumber<T>,
    number: u32,
    own: &[Call],
) -> Result<Vec<Reply>, AllocError>
    requires batch { AreOneBatch own.now }
    requires one { calls_at number own.now ≡ own.now }
    requires may { (structure : T) → T.content structure ≡ store_of T.content structures.old number
        → T.may_serve structure own.now }
    ensures { IfOk result (λ v. (calls : List CallOf) → calls_at number calls ≡ own.now
        → ClosesOne T.content structures.old structures.new number (store_of T.content structures.old) calls v.items) }
{
    let structure = taken_or_fresh::<T, F>(alloc, structures, number)?;
    let (served, replies) = serve_batch::<T>(alloc, structure, own)?;
    structures.put(number, served)?;
    Ok(replies)
}

/// Serves the calls, and returns the replies in their order. Where they call one structure, its pieces run as they are
/// cut; where they call several, place by place, those of one place one after another. A structure is made at its first
/// call.
pub fn serve_row<T: Batched, F: Fresh<T>>(
    alloc: Global,
    row: &mut Row<T, T::Rest>,
    calls: &[Call],
) -> Result<Vec<Reply>, AllocError>
    requires some { 0 < length calls.now }
    requires batch { AreOneBatch calls.now }
    requires closed { row.old.called.items ≡ [] }
    requires may { MayServeOwn T.content T.may_serve (store_of T.content row.old.closed) calls.now }
    ensures { IfOk result (λ v. HasServed T.content row.new (store_of T.content row.old.closed) calls.now v.items) }
{
    let first = calls[0].op.number();
    if are_all_at(calls, first) {
        let told = serve_one::<T, F>(alloc, &mut row.closed, first, calls)?;
        return Ok(told);
    }
    let ins = open_row::<T, F>(alloc, row, calls)?;
    let outs = run_rows::<T>(alloc, ins)?;
    close_row(alloc, row, calls, outs)
}
