//! Whether the replies are those of the serial objects: the operations are served one after another.
ghost use Rattle.std.specs.Prelude.{◌≡◌, ◌↔◌, ◌≤◌, ◌^◌, true, false, length, IsTrue, IfOk};
ghost use Rattle.seq_objects.specs.Stores.{store_after, store_reply};
ghost use Rattle.seq_objects.specs.Kept.{store_in};
ghost use Rattle.batch_history.specs.Book.{flat, IsLegal, IsLegalFrom};
ghost use Rattle.batch_history.specs.Serving.{served};
ghost use Rattle.report_walks.specs.Code.Rooms.{HasRoom, GrowsWithin};

use batch_history::{Batch, Entry};
use seq_objects::{Op, Plain, Reply};
use std::alloc::{AllocError, Global};

/// Serves an operation. The addend of a counter add is matched, since it fits 32 bits.
fn serve(objects: &mut Plain, op: Op) -> Result<Reply, AllocError>
    requires { HasRoom (store_in objects.old) 1 }
    ensures reply { IfOk result (λ reply. reply ≡ store_reply (store_in objects.old) op) }
    ensures after { IfOk result (λ reply. store_in objects.new ≡ store_after (store_in objects.old) op) }
    ensures most { IfOk result (λ reply. GrowsWithin (store_in objects.old) (store_in objects.new) 1) }
{
    match op {
        Op::CounterAdd(number, addend) => objects.serve(Op::CounterAdd(number, addend)),
        _ => objects.serve(op),
    }
}

/// Serves the operations of the entries one after another, as long as each reply is the entry's.
fn serve_batch(objects: &mut Plain, entries: &[Entry]) -> Result<bool, AllocError>
    requires { HasRoom (store_in objects.old) (length entries.now) }
    ensures most { IfOk result (λ same.
        GrowsWithin (store_in objects.old) (store_in objects.new) (length entries.now)) }
    ensures same { IfOk result (λ same. same ≡ true → IsLegalFrom (store_in objects.old) entries.now
        × (store_in objects.new ≡ served (store_in objects.old) entries.now)) }
    ensures not { IfOk result (λ same. same ≡ false → IsLegalFrom (store_in objects.old) entries.now → ⊥) }
{
    for entry in entries {
        if serve(objects, entry.op)? != entry.reply {
            return Ok(false);
        }
    }
    Ok(true)
}

/// Whether each reply is that of the serial objects, from the opening objects on. Few calls cannot add up to a sum of
/// a counter that needs more than 64 bits.
pub fn are_legal(alloc: Global, book: &[Batch]) -> Result<bool, AllocError>
    requires { length (flat book.now) ≤ 2 ^ 32 }
    ensures { IfOk result (λ legal. IsTrue legal ↔ IsLegal book.now) }
{
    let mut objects = Plain::new(alloc);
    for batch in book {
        if !serve_batch(&mut objects, batch.entries())? {
            return Ok(false);
        }
    }
    Ok(true)
}
