//! Whether a report has a row for each leaf, and each tick once: one walk over the rows, with marks for the ticks.
ghost use Rattle.std.specs.Prelude.{◌≡◌, ◌↔◌, ◌<◌, ◌^◌, true, false, length, IsTrue, IfOk, [], slice_index_or};
ghost use Rattle.sp_order.specs.Jobs.{IsJob};
ghost use Rattle.batch_history.specs.Lawful.{HasRows};
ghost use Rattle.report_walks.specs.Parts.{report_of};
ghost use Rattle.report_walks.specs.Code.Rows.{IsRowOf, IsFree, with_taken, AllTaken};

use batch_history::Row;
use sp_order::Job;
use std::alloc::{AllocError, Global};

/// Whether the row is that of the leaf, has one of the workers, and starts before it ends.
fn is_row_of(row: &Row, leaf: usize, workers: u32) -> bool
    ensures { IsTrue result ↔ IsRowOf workers leaf row.now }
{
    row.leaf as usize == leaf && row.worker < workers && row.start < row.end
}

/// Marks a tick as taken, and answers whether it is one of the ticks and was not taken before.
fn take_tick(taken: &mut Vec<bool>, tick: u64) -> bool
    ensures free { result ≡ true → IsFree taken.old.items tick
        × (taken.new.items ≡ with_taken taken.old.items tick) }
    ensures not { result ≡ false → IsFree taken.old.items tick → ⊥ }
{
    if tick >= taken.len() as u64 {
        return false;
    }
    let tick = tick as usize;
    if taken[tick] {
        return false;
    }
    taken[tick] = true;
    true
}

/// Whether each tick is taken.
fn all_taken(taken: &[bool]) -> bool
    ensures { IsTrue result ↔ AllTaken taken.now }
{
    for taken in taken {
        if !*taken {
            return false;
        }
    }
    true
}

/// Whether the rows are those of the job's leaves, in order, with workers below the number of workers, and whether they
/// start and end at the numbers below twice the leaves, each once.
///
/// Memory: linear in the leaves.
pub fn has_rows(alloc: Global, job: &Job, workers: u32, rows: &[Row]) -> Result<bool, AllocError>
    ensures rows { IfOk result (λ has.
        IsTrue has ↔ HasRows job.now workers (report_of workers [] rows.now)) }
    ensures job { IsJob job.now }
{
    let leaves = job.acts().len();
    if rows.len() != leaves {
        return Ok(false);
    }
    let mut taken = vec![in alloc; false; 2 * leaves]?;
    for (leaf, row) in rows.iter().enumerate() {
        if !is_row_of(row, leaf, workers) {
            return Ok(false);
        }
        if !take_tick(&mut taken, row.start) {
            return Ok(false);
        }
        if !take_tick(&mut taken, row.end) {
            return Ok(false);
        }
    }
    Ok(all_taken(taken.as_slice()))
}
