//! Opens the structures that a batch calls.
ghost use Rattle.std.specs.Prelude.{◌≡◌, ◌==◌, ◌≤◌, ◌<◌, ℕ, [], List, length, None, if◌then◌else◌, IfOk};
ghost use Rattle.seq_objects.specs.declared.call.Call.{Call as CallOf};
ghost use Rattle.seq_objects.specs.Batches.{AreOneBatch, calls_at};
ghost use Rattle.object_rows.specs.Contents.{structure_at, store_of, MayServeOwn};
ghost use Rattle.object_rows.specs.Contexts.{IsRowContextOf};
ghost use Rattle.object_rows.specs.Code.Opening.{OpensOne};
ghost use Rattle.object_rows.specs.Cuts.{IsCutOf, AreCut};

use crate::by_number::ByNumber;
use crate::dealt::{are_all_at, deal, take_leading};
use crate::fresh::Fresh;
use crate::row::{Called, Row};
use crate::row_list::RowList;
use crate::rows::add_to_rows;
use seq_objects::{Batched, Call};
use std::alloc::{AllocError, Global};

/// Takes the structure of a number out, or makes it.
#[inline(always)]
pub(crate) fn taken_or_fresh<T: Batched, F: Fresh<T>>(
    alloc: Global,
    structures: &mut ByNumber<T>,
    number: u32,
) -> Result<T, AllocError>
    ensures content { IfOk result (λ structure. T.content structure ≡ store_of T.content structures.old number) }
    ensures others { IfOk result (λ structure. (other : ℕ) → structure_at structures.new other
        ≡ (if other == number then None else structure_at structures.old other)) }
{
    match structures.take(number) {
        Some(structure) => Ok(structure),
        None => F::fresh(alloc),
    }
}

/// Opens the structure of one number for calls that are all its own, and returns its pieces.
fn open_one<T: Batched, F: Fresh<T>>(
    alloc: Global,
    row: &mut Row<T, T::Rest>,
    number: u32,
    own: &[Call],
) -> Result<Vec<T::In>, AllocError>
    requires batch { AreOneBatch own.now }
    requires one { calls_at number own.now ≡ own.now }
    requires may { (structure : T) → T.content structure ≡ store_of T.content row.old.closed number
        → T.may_serve structure own.now }
    ensures count { IfOk result (λ v. (1 ≤ length v.items) × (length v.items ≤ T.MOST)) }
    ensures cut { IfOk result (λ v. (calls : List CallOf) → calls_at number calls ≡ own.now
        → IsCutOf T.content T.cut (store_of T.content row.old.closed) calls number v.items) }
    ensures opens { IfOk result (λ v. (calls : List CallOf) → calls_at number calls ≡ own.now
        → OpensOne T.content T.is_context_of row.old row.new number calls v.items) }
{
    let structure = taken_or_fresh::<T, F>(alloc, &mut row.closed, number)?;
    let (rest, ins) = structure.begin(alloc, own)?;
    row.called.push(Called {
        number,
        count: ins.len(),
        rest,
    })?;
    Ok(ins)
}

/// Opens the structures that the calls call, number after number.
fn open_several<T: Batched, F: Fresh<T>>(
    alloc: Global,
    row: &mut Row<T, T::Rest>,
    calls: &[Call],
) -> Result<RowList<T::In>, AllocError>
    requires batch { AreOneBatch calls.now }
    requires closed { row.old.called.items ≡ [] }
    requires may { MayServeOwn T.content T.may_serve (store_of T.content row.old.closed) calls.now }
    ensures most { IfOk result (λ v. length v.items ≤ T.MOST) }
    ensures some { IfOk result (λ v. 1 ≤ length v.items) }
    ensures cut { IfOk result (λ v. AreCut T.content T.cut (store_of T.content row.old.closed) calls.now v.items) }
    ensures context { IfOk result (λ v. IsRowContextOf T.content T.is_context_of row.new
        (record { before = store_of T.content row.old.closed; calls = calls.now; ins = v.items })) }
{
    let dealt = deal(alloc, calls)?;
    let mut own = Vec::with_capacity(alloc, calls.len())?;
    let mut rows = Vec::new(alloc);
    let mut from = 0;
    while from < dealt.len() {
        let number = dealt[from].call.op.number();
        from = take_leading(&dealt, from, number, &mut own)?;
        let ins = open_one::<T, F>(alloc, row, number, own.as_slice())?;
        add_to_rows(alloc, &mut rows, ins)?;
    }
    Ok(RowList::of_rows(alloc, rows))
}

/// Opens the structures that the calls call, each for its own, and returns the pieces of each place. A structure is
/// made at its first call.
pub fn open_row<T: Batched, F: Fresh<T>>(
    alloc: Global,
    row: &mut Row<T, T::Rest>,
    calls: &[Call],
) -> Result<RowList<T::In>, AllocError>
    requires batch { 0 < length calls.now → AreOneBatch calls.now }
    requires closed { row.old.called.items ≡ [] }
    requires may { MayServeOwn T.content T.may_serve (store_of T.content row.old.closed) calls.now }
    ensures most { IfOk result (λ v. length v.items ≤ T.MOST) }
    ensures some { IfOk result (λ v. 0 < length calls.now → 1 ≤ length v.items) }
    ensures cut { IfOk result (λ v. AreCut T.content T.cut (store_of T.content row.old.closed) calls.now v.items) }
    ensures context { IfOk result (λ v. IsRowContextOf T.content T.is_context_of row.new
        (record { before = store_of T.content row.old.closed; calls = calls.now; ins = v.items })) }
{
    if calls.is_empty() {
        return Ok(RowList::new(alloc));
    }
    let first = calls[0].op.number();
    if are_all_at(calls, first) {
        let pieces = open_one::<T, F>(alloc, row, first, calls)?;
        return Ok(RowList::of_ones(alloc, pieces));
    }
    open_several::<T, F>(alloc, row, calls)
}
