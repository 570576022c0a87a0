//! The check of a report, part after part.
ghost use Rattle.std.specs.Prelude.{ℕ, List, IfOk, IfSome, IfNone};
ghost use Rattle.sp_order.specs.Sources.{TakeReplies};
ghost use Rattle.batch_history.specs.Lawful.{Lawful};
ghost use Rattle.report_reader.specs.Texts.{HasText};
ghost use Rattle.report_check.specs.Flaws.{FailsFirst, IsFlawOf};

use crate::flaw::Flaw;
use report_reader::RawReport;
use report_walks::{
    are_batches, are_legal, has_calls, has_rows, has_values, keeps_order, keeps_ticks,
};
use sp_order::Job;
use std::alloc::{AllocError, Global};

/// The first flaw of the report for the job, or `None` where the report is lawful for the job and its own number of
/// workers. Each part is looked at only where those before it hold. The leaves of the job take replies alone, as those
/// of all jobs of the language do.
///
/// Time: linear in the job and the report, but that the calls of the tree and the queue are served in logarithmic time.
/// Memory: linear in the leaves of the job.
pub fn check(alloc: Global, job: &Job, raw: &RawReport) -> Result<Option<Flaw>, AllocError>
    requires replies { TakeReplies job.now.acts job.now.sources }
    ensures lawful { IfOk result (λ flaw. IfNone flaw (Lawful job.now raw.now.workers raw.now)) }
    ensures flaw { IfOk result (λ flaw. IfSome flaw (FailsFirst job.now raw.now)) }
    ensures text { (text : List ℕ) → HasText job.now text raw.now → IfOk result (IsFlawOf job.now text) }
{
    let (book, rows) = (raw.batches(), raw.rows());
    if !has_rows(alloc, job, raw.workers(), rows)? {
        return Ok(Some(Flaw::Rows));
    }
    if !keeps_order(alloc, job, rows)? {
        return Ok(Some(Flaw::Order));
    }
    if !has_calls(alloc, job, book, rows)? {
        return Ok(Some(Flaw::Calls));
    }
    if !are_legal(alloc, book)? {
        return Ok(Some(Flaw::Replies));
    }
    if !keeps_ticks(book, rows) {
        return Ok(Some(Flaw::Ticks));
    }
    if !are_batches(book) {
        return Ok(Some(Flaw::Batches));
    }
    if !has_values(job, book, rows) {
        return Ok(Some(Flaw::Values));
    }
    Ok(None)
}
