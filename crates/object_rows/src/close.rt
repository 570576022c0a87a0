//! Closes the structures that a batch has called.
ghost use Rattle.std.specs.Prelude.{◌≡◌, ◌==◌, ◌<◌, Some, List, length, IfOk};
ghost use Rattle.seq_objects.specs.Stores.{Store};
ghost use Rattle.seq_objects.specs.Pieces.{AllMeet};
ghost use Rattle.seq_objects.specs.declared.call.Call.{Call as CallOf};
ghost use Rattle.object_rows.specs.Rows.{MembersMeet};
ghost use Rattle.object_rows.specs.Contexts.{IsOpenFor, RowContext, IsRowContextOf, HasServed};
ghost use Rattle.object_rows.specs.Code.Closing.{ClosesOne};

use crate::by_number::ByNumber;
use crate::dealt::deal;
use crate::replies::{empty_replies, put_last};
use crate::row::{Called, Row};
use crate::row_list::RowList;
use crate::rows::take_lasts;
use seq_objects::{Batched, Call, Reply};
use std::alloc::{AllocError, Global};

/// Closes an open structure with the outs of its pieces, and returns the replies to its calls.
fn close_one<T: Batched>(
    alloc: Global,
    closed: &mut ByNumber<T>,
    called: Called<T::Rest>,
    outs: Vec<T::Out>,
) -> Result<Vec<Reply>, AllocError>
    requires { (store : Store) × (calls : List CallOf) × (ins : List T.In)
        × IsOpenFor T.content T.is_context_of store calls called ins × AllMeet T.meets ins outs.items }
    ensures { IfOk result (λ v. (store : Store) (calls : List CallOf) (ins : List T.In)
        → IsOpenFor T.content T.is_context_of store calls called ins → AllMeet T.meets ins outs.items
        → ClosesOne T.content closed.old closed.new called.number store calls v.items) }
{
    let number = called.number;
    let (structure, replies) = T::end(alloc, called.rest, outs)?;
    closed.put(number, structure)?;
    Ok(replies)
}

/// Closes the only structure that a batch has opened, with the outs of each place, and returns the replies to its
/// calls.
fn close_only<T: Batched>(
    alloc: Global,
    row: &mut Row<T, T::Rest>,
    outs: RowList<T::Out>,
) -> Result<Vec<Reply>, AllocError>
    requires one { length row.old.called.items ≡ 1 }
    requires met { (o : RowContext T.In) × IsRowContextOf T.content T.is_context_of row.old o
        × AllMeet (MembersMeet T.meets) o.ins outs.items }
    ensures { IfOk result (λ v. (o : RowContext T.In) → IsRowContextOf T.content T.is_context_of row.old o
        → AllMeet (MembersMeet T.meets) o.ins outs.items
        → HasServed T.content row.new o.before o.calls v.items) }
{
    let Some(called) = row.called.pop() else {
        unreachable!()
    };
    let own = outs.into_lasts(alloc, called.count)?;
    let told = close_one(alloc, &mut row.closed, called, own)?;
    Ok(told)
}

/// Closes the structures that a batch of these calls has opened, with the outs of each place, and returns the replies
/// in the order of the calls.
pub fn close_row<T: Batched>(
    alloc: Global,
    row: &mut Row<T, T::Rest>,
    calls: &[Call],
    outs: RowList<T::Out>,
) -> Result<Vec<Reply>, AllocError>
    requires met { (o : RowContext T.In) × IsRowContextOf T.content T.is_context_of row.old o × (o.calls ≡ calls.now)
        × AllMeet (MembersMeet T.meets) o.ins outs.items }
    ensures { IfOk result (λ v. (o : RowContext T.In) → IsRowContextOf T.content T.is_context_of row.old o
        → o.calls ≡ calls.now → AllMeet (MembersMeet T.meets) o.ins outs.items
        → HasServed T.content row.new o.before o.calls v.items) }
{
    if row.called.len() == 1 {
        let only = close_only(alloc, row, outs)?;
        return Ok(only);
    }
    let mut rows = outs.into_rows(alloc)?;
    let mut replies = empty_replies(alloc, calls)?;
    let mut dealt = deal(alloc, calls)?;
    while let Some(called) = row.called.pop() {
        let own = take_lasts(alloc, &mut rows, called.count)?;
        let told = close_one(alloc, &mut row.closed, called, own)?;
        put_last(&mut replies, &mut dealt, &told);
    }
    Ok(replies)
}
