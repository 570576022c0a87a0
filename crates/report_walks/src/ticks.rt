//! Whether the batches keep the ticks of the rows: one walk over the batches.
ghost use Rattle.std.specs.Prelude.{◌↔◌, ◌<◌, ℕ, length, IsTrue};
ghost use Rattle.batch_history.specs.declared.batch.Entry.{Entry as EntryOf};
ghost use Rattle.batch_history.specs.Lawful.{KeepsTicks, IsInBatch};
ghost use Rattle.report_walks.specs.Parts.{of_calls};
ghost use Rattle.report_walks.specs.Code.Ticks.{HaveRows, IsLatest, EndFrom};

use batch_history::{Batch, Entry, Row};

/// The greatest start of these entries' leaves, or `latest` where that is greater.
fn latest_start(entries: &[Entry], rows: &[Row], latest: u64) -> u64
    requires { HaveRows rows.now entries.now }
    ensures { IsLatest rows.now entries.now (length entries.now) latest result }
{
    let mut greatest = latest;
    for entry in entries {
        greatest = greatest.max(rows[entry.leaf as usize].start);
    }
    greatest
}

/// Whether no leaf of these entries ends before the tick.
fn all_end_from(entries: &[Entry], rows: &[Row], tick: u64) -> bool
    requires { HaveRows rows.now entries.now }
    ensures { IsTrue result ↔ EndFrom rows.now entries.now (length entries.now) tick }
{
    for entry in entries {
        if rows[entry.leaf as usize].end < tick {
            return false;
        }
    }
    true
}

/// Whether each call whose leaf ended before the leaf of another one started stands in an earlier batch: no leaf of a
/// batch ends before the latest start of the leaves of this batch and those before it.
///
/// Memory: none.
pub fn keeps_ticks(book: &[Batch], rows: &[Row]) -> bool
    requires { (number : ℕ) (entry : EntryOf)
        → IsInBatch (of_calls book.now rows.now) number entry → entry.leaf < length rows.now }
    ensures { IsTrue result ↔ KeepsTicks (of_calls book.now rows.now) }
{
    let mut latest = 0;
    for batch in book {
        let entries = batch.entries();
        latest = latest_start(entries, rows, latest);
        if !all_end_from(entries, rows, latest) {
            return false;
        }
    }
    true
}
