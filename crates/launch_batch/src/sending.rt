//! A shop is `Send`.
//!
//! The search for `Send` on the whole shop exceeds its budget, so its parts are shown first.
ghost use denote.Param.Send.{IsSend};
ghost use Rattle.batched_tree.specs.contracts.tree_set.TreeSet.{the_row as tree_row};
ghost use Rattle.batched_tree.specs.contracts.piece.Rest.{the_row as tree_rest_row};
ghost use Rattle.batched_pq.specs.contracts.queue.Queue.{the_row as queue_row};
ghost use Rattle.launch_batch.specs.contracts.piece.PieceOut.{the_row as out_row};
ghost use Rattle.launch_batch.specs.contracts.shop.Shop.{the_row as shop_row};

use crate::piece::PieceOut;
use crate::shop::Shop;
use batched_pq::Queue;
use batched_tree::{Rest, TreeSet};

/// States that `T` is `Send`. For proofs only; does nothing at run time.
fn is_sent<T: Send>()
    ensures { IsSend T.row }
{}

/// The parts of a shop that are deepest are `Send`. For proofs only; does nothing at run time.
fn parts_are_sent()
    ensures tree { IsSend tree_row }
    ensures tree_rest { IsSend tree_rest_row }
    ensures queue { IsSend queue_row }
    ensures out { IsSend out_row }
{
    is_sent::<TreeSet>();
    is_sent::<Rest>();
    is_sent::<Queue>();
    is_sent::<PieceOut>();
}

/// A shop can be sent to another thread. For proofs only; does nothing at run time.
pub fn shops_go_to_threads()
    ensures { IsSend shop_row }
{
    parts_are_sent();
    is_sent::<Shop>();
}
