//! Runs the pieces of structures of one kind.
ghost use Rattle.std.specs.Prelude.{IfOk};
ghost use Rattle.seq_objects.specs.Pieces.{AllMeet};
ghost use Rattle.object_rows.specs.Rows.{MembersMeet};

use crate::members::Members;
use crate::row_list::RowList;
use seq_objects::{Batched, run_in_turn};
use std::alloc::{AllocError, Global};

/// Runs the pieces of one place one after another.
pub fn run_all<T: Batched>(
    alloc: Global,
    ins: Members<T::In>,
) -> Result<Members<T::Out>, AllocError>
    ensures { IfOk result (λ outs. MembersMeet T.meets ins outs) }
{
    let outs = match ins {
        Members::One(input) => Members::One(T::piece(alloc, input)?),
        Members::Many(all) => Members::Many(run_in_turn::<T>(alloc, all)?),
    };
    Ok(outs)
}

/// Runs the pieces of several places, place after place.
fn run_others<T: Batched>(
    alloc: Global,
    rows: Vec<Members<T::In>>,
) -> Result<Vec<Members<T::Out>>, AllocError>
    ensures { IfOk result (λ outs. AllMeet (MembersMeet T.meets) rows.items outs.items) }
{
    let mut outs = Vec::with_capacity(alloc, rows.len())?;
    for row in rows {
        outs.push(run_all::<T>(alloc, row)?)?;
    }
    Ok(outs)
}

/// Runs the pieces of all places, place after place.
pub fn run_rows<T: Batched>(
    alloc: Global,
    rows: RowList<T::In>,
) -> Result<RowList<T::Out>, AllocError>
    ensures { IfOk result (λ outs. AllMeet (MembersMeet T.meets) rows.items outs.items) }
{
    let (first, behind) = rows.into_parts();
    let ones = run_in_turn::<T>(alloc, first)?;
    let others = run_others::<T>(alloc, behind)?;
    Ok(RowList::of_parts(ones, others))
}
