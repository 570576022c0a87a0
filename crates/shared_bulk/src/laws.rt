//! Threads can share a set that serves its batches in pieces.
//!
//! The search for `Sync` on a whole shared set exceeds its budget, so its parts are shown first.
ghost use denote.Param.Send.{IsSend, IsSync};
ghost use Rattle.bulk_calls.specs.contracts.op.BulkOp.{the_row as op_row};
ghost use Rattle.bulk_calls.specs.contracts.piece.Piece.{the_row as piece_row};
ghost use Rattle.bulk_calls.specs.contracts.piece.Served.{the_row as served_row};
ghost use Rattle.bulk_calls.specs.contracts.replies.Replies.{the_row as replies_row};
ghost use Rattle.shared_bulk.specs.contracts.bulk.BulkInPieces.{the_row as set_row};
ghost use Rattle.shared_bulk.specs.contracts.shared_set.SharedBulkSetInPieces.{the_row as shared_row};

use crate::bulk::BulkInPieces;
use crate::shared_set::SharedBulkSetInPieces;
use bulk_calls::{BulkOp, Piece, Replies, Served};

/// The row of a `Send` type satisfies `IsSend`. For proofs only; it does nothing.
fn is_sent<T: Send>()
    ensures { IsSend T.row }
{}

/// The row of a `Sync` type satisfies `IsSync`. For proofs only; it does nothing.
fn is_shared<T: Sync>()
    ensures { IsSync T.row }
{}

/// A set, its operations, its replies and its pieces can be sent. For proofs only; it does nothing.
pub fn parts_are_sent()
    ensures set { IsSend set_row }
    ensures op { IsSend op_row }
    ensures replies { IsSend replies_row }
    ensures piece { IsSend piece_row }
    ensures served { IsSend served_row }
{
    is_sent::<BulkInPieces>();
    is_sent::<BulkOp>();
    is_sent::<Replies>();
    is_sent::<Piece>();
    is_sent::<Served>();
}

/// Threads can share a set. For proofs only; it does nothing.
pub fn threads_share_sets_in_pieces()
    ensures { IsSync shared_row }
{
    parts_are_sent();
    is_shared::<SharedBulkSetInPieces>();
}
