//! Serves a whole batch on one thread.
ghost use Rattle.std.specs.Prelude.{◌≡◌, [], ◌∷◌, ◌++◌, List, IfOk, OnOk};
ghost use Rattle.seq_objects.specs.Batches.{AreInBatchOrder};
ghost use Rattle.batch_history.specs.declared.batch.Entry.{Entry as EntryOf};
ghost use Rattle.launch_batch.specs.Calls.{MayServe, ArePermutations, IsServiceOf};

use crate::commit::commit;
use crate::order::put_in_batch_order;
use crate::row;
use crate::shop::Shop;
use batched_counter::Counter;
use batched_pq::Queue;
use batched_stack::Stack;
use batched_tree::TreeSet;
use seq_objects::Call;
use std::alloc::{AllocError, Global};

/// Serves the calls as one batch, kind by kind, running the pieces of each one after another. The batch becomes the
/// last of the shop's history, and the calls are put in its order. If memory runs out, the shop is lost, and nothing is
/// said of the calls.
pub fn serve(alloc: Global, shop: Shop, calls: &mut Vec<Call>) -> Result<Shop, AllocError>
    requires { MayServe shop calls.old.items }
    ensures history { IfOk result (λ s. (batch : List EntryOf)
        × IsServiceOf shop calls.old.items batch × (s ≡ shop ++ batch ∷ [])) }
    ensures same { OnOk result (ArePermutations calls.old.items calls.new.items) }
    ensures order { OnOk result (AreInBatchOrder calls.new.items) }
{
    let Shop {
        mut structures,
        history,
    } = shop;
    put_in_batch_order(alloc, calls)?;
    let all = calls.as_slice();
    let inner = &mut *structures;
    let mut replies = Vec::new(alloc);
    row::serve::<Counter>(alloc, &mut inner.counter, all, &mut replies)?;
    row::serve::<Stack>(alloc, &mut inner.stack, all, &mut replies)?;
    row::serve::<TreeSet>(alloc, &mut inner.tree, all, &mut replies)?;
    row::serve::<Queue>(alloc, &mut inner.queue, all, &mut replies)?;
    let next = commit(alloc, structures, history, all, replies.as_slice())?;
    Ok(next)
}
