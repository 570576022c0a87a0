//! The structures of one kind, which share a row of places.
ghost use Rattle.std.specs.Prelude.{◌≡◌, ◌+◌, ◌^◌, ◌<◌, ◌++◌, [], length, map, IfOk, OnOk};
ghost use Rattle.seq_objects.specs.Batches.{AreOneBatch, calls_of};
ghost use Rattle.seq_objects.specs.Pieces.{AllMeet};
ghost use Rattle.object_rows.specs.declared.members.Members.TheVariants.{One as OneOf};
ghost use Rattle.object_rows.specs.Rows.{MembersMeet};
ghost use Rattle.object_rows.specs.Contents.{store_of, MayServeOwn};
ghost use Rattle.object_rows.specs.Contexts.{RowContext, IsRowContextOf};
ghost use Rattle.launch_batch.specs.ByStructure.{placed};
ghost use Rattle.launch_batch.specs.Code.Committing.{ServesOwn};
ghost use Rattle.launch_batch.specs.Code.Outs.{rows_of};
ghost use Rattle.launch_batch.specs.Code.Rows.{OpensOwn};

use crate::kind::{Kind, Maker};
use crate::outs::take_rows;
use crate::piece::PieceIn;
use object_rows::close::close_row;
use object_rows::open::open_row;
use object_rows::serve::serve_row;
use object_rows::{Members, Row, RowList};
use seq_objects::{Batched, Call, Reply};
use std::alloc::{AllocError, Global};

/// The structures of one kind.
pub type RowOf<T> = Row<T, <T as Batched>::Rest>;

/// How many calls belong to the row.
fn count_of<T: Kind>(calls: &[Call]) -> usize
    ensures { result ≡ length (calls_of T.kind calls.now) }
{
    let mut count = 0;
    for place in 0..calls.len() {
        if T::has(calls[place].op) {
            count += 1;
        }
    }
    count
}

/// The calls that belong to the row, in their order: all that are given, or those that it puts into `own`, which is
/// empty.
fn calls_of<'a, T: Kind>(
    calls: &'a [Call],
    own: &'a mut Vec<Call>,
) -> Result<&'a [Call], AllocError>
    requires { own.old.items ≡ [] }
    ensures { IfOk result (λ v. v.now ≡ calls_of T.kind calls.now) }
{
    let count = count_of::<T>(calls);
    if count == calls.len() {
        return Ok(calls);
    }
    if count == 0 {
        return Ok(own.as_slice());
    }
    own.reserve_exact(count)?;
    for place in 0..calls.len() {
        let call = calls[place];
        if T::has(call.op) {
            own.push(call)?;
        }
    }
    Ok(own.as_slice())
}

/// Appends pieces of one input each, at consecutive places from `first` on, and returns the place behind them.
fn place_ones<T: Kind>(
    pieces: &mut Vec<PieceIn>,
    ones: Vec<T::In>,
    first: u32,
) -> Result<u32, AllocError>
    requires { first + length ones.items < 2 ^ 32 }
    ensures behind { IfOk result (λ place. place ≡ first + length ones.items) }
    ensures pieces { OnOk result (pieces.new.items ≡ pieces.old.items ++ placed T.at first (map OneOf ones.items)) }
{
    let mut place = first;
    for input in ones {
        pieces.push(T::at(place, Members::One(input)))?;
        place += 1;
    }
    Ok(place)
}

/// Appends pieces at consecutive places from `first` on.
fn place_others<T: Kind>(
    pieces: &mut Vec<PieceIn>,
    ins: Vec<Members<T::In>>,
    first: u32,
) -> Result<(), AllocError>
    requires { first + length ins.items < 2 ^ 32 }
    ensures { OnOk result (pieces.new.items ≡ pieces.old.items ++ placed T.at first ins.items) }
{
    let mut place = first;
    for input in ins {
        pieces.push(T::at(place, input))?;
        place += 1;
    }
    Ok(())
}

/// Appends the pieces of a row, at consecutive places from `first` on.
fn place<T: Kind>(
    pieces: &mut Vec<PieceIn>,
    ins: RowList<T::In>,
    first: u32,
) -> Result<(), AllocError>
    requires { first + length ins.items < 2 ^ 32 }
    ensures { OnOk result (pieces.new.items ≡ pieces.old.items ++ placed T.at first ins.items) }
{
    pieces.reserve_exact(ins.len())?;
    let (ones, others) = ins.into_parts();
    let behind = place_ones::<T>(pieces, ones, first)?;
    place_others::<T>(pieces, others, behind)?;
    Ok(())
}

/// Opens the structures of a row that a batch calls, and appends their pieces, at consecutive places from `first` on.
pub(crate) fn open<T: Kind>(
    alloc: Global,
    row: &mut RowOf<T>,
    calls: &[Call],
    first: u32,
    pieces: &mut Vec<PieceIn>,
) -> Result<(), AllocError>
    requires batch { AreOneBatch calls.now }
    requires closed { row.old.called.items ≡ [] }
    requires may { MayServeOwn T.content T.may_serve (store_of T.content row.old.closed) (calls_of T.kind calls.now) }
    requires fit { first + T.MOST < 2 ^ 32 }
    ensures { OnOk result (OpensOwn T.content T.is_context_of T.cut T.MOST T.at first row.old row.new
        (calls_of T.kind calls.now) pieces.old.items pieces.new.items) }
{
    let mut own = Vec::new(alloc);
    let calls = calls_of::<T>(calls, &mut own)?;
    if calls.is_empty() {
        return Ok(());
    }
    let ins = open_row::<T, Maker>(alloc, row, calls)?;
    place::<T>(pieces, ins, first)?;
    Ok(())
}

/// Appends replies. Where there are no others, they are taken as they are.
fn put_behind(replies: &mut Vec<Reply>, more: Vec<Reply>) -> Result<(), AllocError>
    ensures { OnOk result (replies.new.items ≡ replies.old.items ++ more.items) }
{
    if replies.is_empty() {
        *replies = more;
        return Ok(());
    }
    replies.extend_from_slice(more.as_slice())?;
    Ok(())
}

/// Closes the structures of a row that a batch has called, with the outs of each place, which are taken out, and appends
/// the replies to its calls.
pub(crate) fn close<T: Kind>(
    alloc: Global,
    row: &mut RowOf<T>,
    calls: &[Call],
    outs: &mut Option<RowList<T::Out>>,
    replies: &mut Vec<Reply>,
) -> Result<(), AllocError>
    requires met { (o : RowContext T.In) × IsRowContextOf T.content T.is_context_of row.old o
        × (o.calls ≡ calls_of T.kind calls.now) × AllMeet (MembersMeet T.meets) o.ins (rows_of outs.old) }
    ensures { OnOk result ((o : RowContext T.In) → IsRowContextOf T.content T.is_context_of row.old o
        → o.calls ≡ calls_of T.kind calls.now → AllMeet (MembersMeet T.meets) o.ins (rows_of outs.old)
        → ServesOwn T.content row.new o.before o.calls replies.old.items replies.new.items) }
{
    if row.called.is_empty() {
        return Ok(());
    }
    let mut own = Vec::new(alloc);
    let calls = calls_of::<T>(calls, &mut own)?;
    let outs = take_rows(alloc, outs);
    let told = close_row(alloc, row, calls, outs)?;
    put_behind(replies, told)?;
    Ok(())
}

/// Serves the calls of a row on one thread. Appends the replies.
pub(crate) fn serve<T: Kind>(
    alloc: Global,
    row: &mut RowOf<T>,
    calls: &[Call],
    replies: &mut Vec<Reply>,
) -> Result<(), AllocError>
    requires batch { AreOneBatch calls.now }
    requires closed { row.old.called.items ≡ [] }
    requires may { MayServeOwn T.content T.may_serve (store_of T.content row.old.closed) (calls_of T.kind calls.now) }
    ensures { OnOk result (ServesOwn T.content row.new (store_of T.content row.old.closed)
        (calls_of T.kind calls.now) replies.old.items replies.new.items) }
{
    let mut own = Vec::new(alloc);
    let calls = calls_of::<T>(calls, &mut own)?;
    if calls.is_empty() {
        return Ok(());
    }
    let told = serve_row::<T, Maker>(alloc, row, calls)?;
    put_behind(replies, told)?;
    Ok(())
}
