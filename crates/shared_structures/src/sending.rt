//! Structures whose parts are deep can be shared between threads (`Sync`).
//!
//! The proof search on a whole structure exceeds its budget, so its parts are shown first.
ghost use denote.Param.Send.{IsSend, IsSync};
ghost use Rattle.batched_pq.specs.contracts.queue.Queue.{the_row as queue_row};
ghost use Rattle.batched_tree.specs.contracts.tree_set.TreeSet.{the_row as tree_row};
ghost use Rattle.shared_structures.specs.contracts.queue.SharedQueue.{the_row as shared_queue_row};
ghost use Rattle.shared_structures.specs.contracts.set.CombinedSet.{the_row as set_row};
ghost use Rattle.shared_structures.specs.contracts.set.SharedSet.{the_row as shared_set_row};

use crate::queue::SharedQueue;
use crate::set::{CombinedSet, SharedSet};
use batched_pq::Queue;
use batched_tree::TreeSet;

/// Proof only: turns the bound `T: Send` into a fact about the type's row.
fn is_sent<T: Send>()
    ensures { IsSend T.row }
{}

/// Proof only: turns the bound `T: Sync` into a fact about the type's row.
fn is_shared<T: Sync>()
    ensures { IsSync T.row }
{}

/// Proof only: the batched structures can be sent to another thread.
fn structures_are_sent()
    ensures tree { IsSend tree_row }
    ensures queue { IsSend queue_row }
{
    is_sent::<TreeSet>();
    is_sent::<Queue>();
}

/// Threads can share a set, and what its callers hold can be sent. For proofs only; does nothing at run time.
pub fn sets_go_to_threads()
    ensures shared { IsSync shared_set_row }
    ensures sent { IsSend set_row }
{
    structures_are_sent();
    is_sent::<CombinedSet>();
    is_shared::<SharedSet>();
}

/// Threads can share a queue. For proofs only; does nothing at run time.
pub fn queues_go_to_threads()
    ensures { IsSync shared_queue_row }
{
    structures_are_sent();
    is_shared::<SharedQueue>();
}
