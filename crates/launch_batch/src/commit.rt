//! Moves a served batch into the history.
ghost use Rattle.std.specs.Prelude.{◌≡◌, [], ◌∷◌, ◌++◌, List, IfOk};
ghost use Rattle.seq_objects.specs.declared.call.Call.{Call as CallOf};
ghost use Rattle.batch_history.specs.declared.batch.Entry.{Entry as EntryOf};
ghost use Rattle.launch_batch.specs.Calls.{IsServiceOf};
ghost use Rattle.launch_batch.specs.Code.Committing.{HaveServed};

use crate::entries::batch_of;
use crate::shop::Shop;
use crate::structures::Structures;
use batch_history::{Batch, History};
use seq_objects::{Call, Reply};
use std::alloc::{AllocError, Global};

/// The shop after a batch, made from the structures, the history before the batch, its calls, and the replies to them.
/// The entries are built once, directly for the history.
pub(crate) fn commit(
    alloc: Global,
    structures: Box<Structures>,
    mut history: History,
    calls: &[Call],
    replies: &[Reply],
) -> Result<Shop, AllocError>
    requires { (given : List CallOf) × HaveServed structures.value history calls.now replies.now given }
    ensures { IfOk result (λ shop. (given : List CallOf)
        → HaveServed structures.value history calls.now replies.now given
        → (batch : List EntryOf) × IsServiceOf history given batch × (shop ≡ history ++ batch ∷ [])) }
{
    let batch = batch_of(alloc, calls, replies)?;
    history.batches();
    history.append(batch)?;
    Ok(Shop {
        structures,
        history,
    })
}

/// A copy of the last batch of a history, which must have one.
pub(crate) fn last_batch(alloc: Global, history: &History) -> Result<Batch, AllocError>
    requires { (book : List (List EntryOf)) × (batch : List EntryOf) × (history.now ≡ book ++ batch ∷ []) }
    ensures { IfOk result (λ b. (book : List (List EntryOf)) (batch : List EntryOf)
        → history.now ≡ book ++ batch ∷ [] → b ≡ batch) }
{
    let batches = history.batches();
    let last = &batches[batches.len() - 1];
    last.copied(alloc)
}
