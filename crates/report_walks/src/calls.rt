//! Whether the calls are those of the job's leaves: one walk that notes the value of each leaf's reply, and one that
//! compares the operations.
ghost use Rattle.std.specs.Prelude.{◌≡◌, ◌↔◌, ◌<◌, true, false, length, map, Some, IsTrue, IfOk, IfSome, IfNone};
ghost use Rattle.std.specs.List.{AllByRecursion};
ghost use Rattle.seq_objects.specs.Pairs.{IsEnumerationOf};
ghost use Rattle.sp_order.specs.Precedence.{leaf_count};
ghost use Rattle.sp_order.specs.Sources.{IsCallLeaf, TakeReplies};
ghost use Rattle.batch_history.specs.Book.{flat};
ghost use Rattle.batch_history.specs.Lawful.{HasCalls};
ghost use Rattle.report_walks.specs.Parts.{of_calls};
ghost use Rattle.report_walks.specs.Code.Calls.{CanNote, noted, all_noted, CanNoteAll, HaveValues, op_by, IsServed, AreValuesOf};

use batch_history::{Batch, Entry, Row};
use seq_objects::{Act, Op, value};
use sp_order::{Job, with_value};
use std::alloc::{AllocError, Global};

/// Notes the value of the entry's reply at its leaf, and answers whether the leaf calls and has no value yet.
fn note(acts: &[Act], values: &mut Vec<Option<u64>>, entry: &Entry) -> bool
    requires { length values.old.items ≡ length acts.now }
    ensures can { result ≡ true → CanNote acts.now values.old.items entry.now
        × (values.new.items ≡ noted values.old.items entry.now) }
    ensures not { result ≡ false → CanNote acts.now values.old.items entry.now → ⊥ }
{
    let leaf = entry.leaf as usize;
    if leaf >= acts.len() {
        return false;
    }
    if let Act::Work(_) = acts[leaf] {
        return false;
    }
    if values[leaf].is_some() {
        return false;
    }
    values[leaf] = Some(value(entry.reply));
    true
}

/// Notes the values of all entries, as long as it can.
fn note_batch(acts: &[Act], values: &mut Vec<Option<u64>>, entries: &[Entry]) -> bool
    requires { length values.old.items ≡ length acts.now }
    ensures can { result ≡ true → CanNoteAll acts.now values.old.items entries.now
        × (values.new.items ≡ all_noted values.old.items entries.now) }
    ensures not { result ≡ false → CanNoteAll acts.now values.old.items entries.now → ⊥ }
{
    for entry in entries {
        if !note(acts, values, entry) {
            return false;
        }
    }
    true
}

/// Whether each leaf that calls has a value.
fn have_values(acts: &[Act], values: &[Option<u64>]) -> bool
    requires { length values.now ≡ length acts.now }
    ensures { IsTrue result ↔ HaveValues acts.now values.now }
{
    for (leaf, act) in acts.iter().enumerate() {
        if let Act::Call(_) = act {
            if values[leaf].is_none() {
                return false;
            }
        }
    }
    true
}

/// The operation that a leaf calls, by the values of the leaves that have replied.
fn op_of(job: &Job, values: &[Option<u64>], leaf: u32) -> Option<Op>
    requires leaf { leaf < length job.now.acts }
    requires values { length values.now ≡ length job.now.acts }
    ensures { result ≡ op_by job.now values.now leaf }
{
    let Act::Call(op) = job.acts()[leaf as usize] else {
        return None;
    };
    match job.source(leaf) {
        None => Some(op),
        Some(source) => Some(with_value(op, values[source as usize]?)),
    }
}

/// Whether there is an operation, and it is this one.
fn is_op(found: Option<Op>, op: Op) -> bool
    ensures { IsTrue result ↔ (found ≡ Some op) }
{
    match found {
        None => false,
        Some(found) => found == op,
    }
}

/// Whether the entry has the operation of its leaf and the worker of its leaf's row.
fn is_served(job: &Job, values: &[Option<u64>], rows: &[Row], entry: &Entry) -> bool
    requires leaf { entry.now.leaf < length job.now.acts }
    requires values { length values.now ≡ length job.now.acts }
    requires rows { length rows.now ≡ length job.now.acts }
    ensures { IsTrue result ↔ IsServed job.now values.now rows.now entry.now }
{
    is_op(op_of(job, values, entry.leaf), entry.op)
        && rows[entry.leaf as usize].worker == entry.worker
}

/// Whether all entries have the operations of their leaves and the workers of their leaves' rows.
fn are_served(job: &Job, values: &[Option<u64>], rows: &[Row], entries: &[Entry]) -> bool
    requires leaves { AllByRecursion (λ entry. entry.leaf < length job.now.acts) entries.now }
    requires values { length values.now ≡ length job.now.acts }
    requires rows { length rows.now ≡ length job.now.acts }
    ensures { IsTrue result ↔ AllByRecursion (IsServed job.now values.now rows.now) entries.now }
{
    for entry in entries {
        if !is_served(job, values, rows, entry) {
            return false;
        }
    }
    true
}

/// The values of the leaves that have replied, or `None` where the batches do not have each leaf that calls once.
fn values_of(
    alloc: Global,
    acts: &[Act],
    book: &[Batch],
) -> Result<Option<Vec<Option<u64>>>, AllocError>
    ensures some { IfOk result (λ found. IfSome found (λ values.
        AreValuesOf acts.now (flat book.now) values.items)) }
    ensures none { IfOk result (λ found. IfNone found
        (IsEnumerationOf (IsCallLeaf acts.now) (map (λ entry. entry.leaf) (flat book.now)) → ⊥)) }
{
    let mut values = vec![in alloc; None; acts.len()]?;
    for batch in book {
        if !note_batch(acts, &mut values, batch.entries()) {
            return Ok(None);
        }
    }
    if !have_values(acts, values.as_slice()) {
        return Ok(None);
    }
    Ok(Some(values))
}

/// Whether the batches have each leaf that calls once, with its operation under the replies of these batches and with
/// the worker of its row. The leaves of the job take replies alone. A source may stand behind its use: then the ticks
/// are not kept.
///
/// Memory: linear in the leaves.
pub fn has_calls(alloc: Global, job: &Job, book: &[Batch], rows: &[Row]) -> Result<bool, AllocError>
    requires rows { length rows.now ≡ leaf_count job.now.shape }
    requires replies { TakeReplies job.now.acts job.now.sources }
    ensures { IfOk result (λ has. IsTrue has ↔ HasCalls job.now (of_calls book.now rows.now)) }
{
    let Some(values) = values_of(alloc, job.acts(), book)? else {
        return Ok(false);
    };
    for batch in book {
        if !are_served(job, values.as_slice(), rows, batch.entries()) {
            return Ok(false);
        }
    }
    Ok(true)
}
