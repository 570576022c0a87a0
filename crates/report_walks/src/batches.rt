//! Whether the batches are in batch order: each entry comes before the next one.
ghost use Rattle.std.specs.Prelude.{◌≡◌, ◌↔◌, ℕ, IsTrue};
ghost use Rattle.std.specs.List.{AllByRecursion};
ghost use Rattle.sp_order.specs.Jobs.{JobValue, IsJob};
ghost use Rattle.batch_history.specs.Book.{IsBatch};
ghost use Rattle.batch_history.specs.Lawful.{HasRows, KeepsOrder, HasCalls, KeepsTicks};
ghost use Rattle.batch_history.specs.Serving.{call_in};
ghost use Rattle.batch_history.specs.declared.report.Report.{Report};
ghost use Rattle.report_walks.specs.Code.Neighbours.{AreInOrder};

use batch_history::{Batch, Entry};
use seq_objects::{Call, comes_first};

/// The call of an entry.
fn call_of(entry: &Entry) -> Call
    ensures { result ≡ call_in entry.now }
{
    Call {
        worker: entry.worker,
        leaf: entry.leaf,
        op: entry.op,
    }
}

/// Whether the entries are not empty and each comes before the next one in batch order.
fn is_in_order(entries: &[Entry]) -> bool
    ensures { IsTrue result ↔ AreInOrder entries.now }
{
    if entries.is_empty() {
        return false;
    }
    for place in 0..entries.len() - 1 {
        let call = call_of(&entries[place]);
        let next = call_of(&entries[place + 1]);
        if !comes_first(&call, &next) {
            return false;
        }
    }
    true
}

/// Whether all batches are in order.
fn are_in_order(book: &[Batch]) -> bool
    ensures { IsTrue result ↔ AllByRecursion AreInOrder book.now }
{
    for batch in book {
        if !is_in_order(batch.entries()) {
            return false;
        }
    }
    true
}

/// Whether each batch has entries, in batch order, of distinct workers, for a report that keeps the parts before this
/// one. Neighbours are enough: the order is transitive, and two calls of one worker in one batch would break the order
/// of the leaves or the ticks.
///
/// Memory: none.
pub fn are_batches(book: &[Batch]) -> bool
    ensures { (job : JobValue) (report : Report) → report.history ≡ book.now → IsJob job
        → HasRows job report.workers report → KeepsOrder job report → HasCalls job report → KeepsTicks report
        → (IsTrue result ↔ AllByRecursion IsBatch report.history) }
{
    are_in_order(book)
}
