//! What the calls of a queue come to, and that threads can share a set.
//!
//! The search for `Sync` on a whole shared set exceeds its budget, so its parts are shown first.
ghost use denote.Param.Send.{IsSend, IsSync};
ghost use Rattle.std.specs.Prelude.{◌≡◌, List, ◌++◌, map};
ghost use Rattle.shared_calls.specs.declared.view.Entry.{Entry as EntryOf};
ghost use Rattle.shared_calls.specs.Logs.{IsSerial, state_after};
ghost use Rattle.shared_collections.specs.declared.fifo.FifoOp.{FifoOp};
ghost use Rattle.shared_collections.specs.declared.fifo.FifoReply.{FifoReply};
ghost use Rattle.shared_collections.specs.Fifos.{fifo, items_got, items_put};
ghost use Rattle.bulk_calls.specs.contracts.op.BulkOp.{the_row as op_row};
ghost use Rattle.bulk_calls.specs.contracts.replies.Replies.{the_row as replies_row};
ghost use Rattle.shared_collections.specs.contracts.bulk.Bulk.{the_row as set_row};
ghost use Rattle.shared_collections.specs.contracts.shared_bulk.SharedBulkSet.{the_row as shared_row};

use crate::bulk::Bulk;
use crate::shared_bulk::SharedBulkSet;
use bulk_calls::{BulkOp, Replies};

/// The row of a `Send` type satisfies `IsSend`. For proofs only; it does nothing.
fn is_sent<T: Send>()
    ensures { IsSend T.row }
{}

/// The row of a `Sync` type satisfies `IsSync`. For proofs only; it does nothing.
fn is_shared<T: Sync>()
    ensures { IsSync T.row }
{}

/// A set, its operations and its replies can be sent. For proofs only; it does nothing.
fn parts_are_sent()
    ensures set { IsSend set_row }
    ensures op { IsSend op_row }
    ensures replies { IsSend replies_row }
{
    is_sent::<Bulk>();
    is_sent::<BulkOp>();
    is_sent::<Replies>();
}

/// Threads can share a set. For proofs only; it does nothing.
pub fn threads_share_sets()
    ensures { IsSync shared_row }
{
    parts_are_sent();
    is_shared::<SharedBulkSet>();
}

/// The items that were taken, followed by those that are left, are those that were put: none is lost, none is taken twice,
/// and they leave in the order in which they came.
pub fn items_leave_in_the_order_in_which_they_came()
    ensures { (log : List (EntryOf FifoOp FifoReply)) → IsSerial fifo log
        → items_got (map (λ e. e.reply) log) ++ state_after fifo log ≡ items_put (map (λ e. e.op) log) }
{}
