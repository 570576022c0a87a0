//! The text of a report, and the replay of its history, for tests.
//!
//! `text` of `batch_history` asks that a report has a row for each leaf of its job, and only objects for which the job
//! has names. A test that holds any report asks for the text here, and gets an empty one where that does not hold.
//! `are_legal` of `report_walks` asks that a book has few calls, as each history has.
#![tactic(auto)]

ghost use Rattle.std.specs.Prelude.{◌≡◌, nat_le};
ghost use Rattle.std.specs.List.{list_all};
ghost use Rattle.seq_objects.specs.Objects.{number_of};

use batch_history::{Batch, Entry, History, Report, text};
use report_walks::are_legal;
use sp_order::Job;
use std::alloc::{AllocError, Global};

/// Whether each entry's object number is at most `most`.
fn are_within(most: usize, entries: &[Entry]) -> bool
    ensures { result ≡ list_all (λ entry. nat_le (number_of entry.op) most) entries.now }
{
    entries
        .iter()
        .all(|entry| entry.op.number() as usize <= most)
}

/// Whether that holds in each batch.
fn are_all_within(most: usize, book: &[Batch]) -> bool
    ensures { result ≡ list_all (λ batch. list_all (λ entry. nat_le (number_of entry.op) most) batch) book.now }
{
    book.iter().all(|batch| are_within(most, batch.entries()))
}

/// The text of a report, or nothing where it has other rows than the job has leaves, or an object for which the job has
/// no name.
pub fn text_of(alloc: Global, job: &Job, report: &Report) -> Result<Vec<u8>, AllocError> {
    if report.rows.list().len() != job.acts().len() {
        return Ok(Vec::new(alloc));
    }
    if !are_all_within(job.names().len(), report.history.batches()) {
        return Ok(Vec::new(alloc));
    }
    text(alloc, job, report)
}

/// How many calls a history has, where the serial objects give the reply of each, one call after another.
pub fn replayed(alloc: Global, history: &History) -> Result<Option<usize>, AllocError> {
    let batches = history.batches();
    if !are_legal(alloc, batches)? {
        return Ok(None);
    }
    let mut calls = 0usize;
    for batch in batches {
        calls = calls.saturating_add(batch.entries().len());
    }
    Ok(Some(calls))
}
