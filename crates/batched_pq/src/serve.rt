//! Serves a piece: adds its inserts, and moves the least items to the front.
ghost use Rattle.std.specs.Prelude.{IfOk};
ghost use Rattle.batched_pq.specs.Pieces.{Meets};

use crate::piece::{Piece, Served};
use crate::shard::prepare;
use std::alloc::{AllocError, Global};

/// Adds the inserts of a piece to its shard, and fills the front for all takes of the batch.
pub(crate) fn serve_piece(alloc: Global, piece: Piece) -> Result<Served, AllocError>
    ensures { IfOk result (λ out. Meets piece out) }
{
    let Piece {
        shard,
        inserts,
        takes,
    } = piece;
    let out = prepare(alloc, shard, &inserts, takes)?;
    Ok(out)
}
