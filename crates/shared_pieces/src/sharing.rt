//! A structure, and a board for the pieces of its batches, that the same callers share.
ghost use Rattle.std.specs.Prelude.{◌≡◌, ℕ, ◌<◌, ◌≤◌, length, slice_index_or, zip, IfOk};
ghost use Rattle.shared_calls.specs.Serial.{SerialObject};
ghost use Rattle.shared_calls.specs.Views.{IsNewCaller, number_of_callers};
ghost use Rattle.piece_board.specs.Boards.{desk_view, IsDeskOf};
ghost use Rattle.piece_board.specs.Desks.{fresh_desk};
ghost use Rattle.limits.specs.declared.TheConstants.{MOST_WORKERS};

use crate::in_pieces::InPieces;
use crate::work::Pieces;
use piece_board::{Board, Desk};
use shared_calls::{Caller, Shared};
use std::alloc::{AllocError, Global};

/// The items of two vectors of one length, in pairs.
fn pairs_of<A: Drop, B: Drop>(
    alloc: Global,
    firsts: Vec<A>,
    seconds: Vec<B>,
) -> Result<Vec<(A, B)>, AllocError>
    requires { length firsts.items ≡ length seconds.items }
    ensures { IfOk result (λ pairs. pairs.items ≡ zip firsts.items seconds.items) }
{
    let mut pairs = Vec::with_capacity(alloc, firsts.len())?;
    let mut rest = seconds.into_iter();
    for first in firsts {
        match rest.next() {
            Some(second) => pairs.push((first, second))?,
            None => return Err(AllocError),
        }
    }
    Ok(pairs)
}

/// A structure with its board, and each caller with its desk.
pub type SharedInPieces<T> = (
    Shared<T>,
    Board<Pieces<T>>,
    Vec<(Caller<T>, Desk<Pieces<T>>)>,
);

/// Shares a structure among this many callers, with a board for the pieces of its batches: each caller has the desk of its
/// number.
///
/// Memory: proportional to the callers.
pub fn share_in_pieces<T: InPieces>(
    alloc: Global,
    structure: T,
    callers: usize,
) -> Result<SharedInPieces<T>, AllocError>
    requires count { (1 ≤ callers) × (callers ≤ MOST_WORKERS) }
    requires opening { T.content structure ≡ SerialObject.opening T.object }
    ensures all { IfOk result (λ r. (number_of_callers r.0 ≡ callers) × (length r.2.items ≡ callers)) }
    ensures callers { IfOk result (λ r. (k : ℕ) (s : _) → k < callers → s ≡ slice_index_or r.2.items k s → IsNewCaller r.0 k s.0) }
    ensures desks { IfOk result (λ r. (k : ℕ) (s : _) → k < callers → s ≡ slice_index_or r.2.items k s → IsDeskOf r.1 s.1 × (desk_view s.1 ≡ fresh_desk k)) }
{
    let (shared, all) = Shared::share(alloc, structure, callers)?;
    let (board, desks) = Board::<Pieces<T>>::make(alloc, callers as u32)?;
    let pairs = pairs_of(alloc, all, desks)?;
    Ok((shared, board, pairs))
}
