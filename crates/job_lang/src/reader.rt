//! The reader, stage by stage: bytes, words, items, limits, copies.
ghost use Rattle.std.specs.Prelude.{◌≡◌, ◌≤◌, ◌⊎◌, Ok, Err, IfOk, length};
ghost use Rattle.limits.specs.declared.TheConstants.{MOST_JOB_BYTES};
ghost use Rattle.sp_order.specs.Jobs.{JobValue};
ghost use Rattle.sp_order.specs.Sources.{TakeReplies};
ghost use Rattle.job_lang.specs.Language.{IsJobOf, IsFaultOf};
ghost use Rattle.job_syntax.specs.declared.fault.JobFault.{JobFault};
ghost use Rattle.job_syntax.specs.declared.error.JobErr.TheVariants.{Bad, Memory};

use crate::expand::expand;
use crate::text_limits::{argument_line, leaves_line};
use job_syntax::{JobErr, JobFault, forbidden_line, read_items};
use sp_order::Job;
use std::alloc::Global;

/// Reads a text, and gives its job or its fault.
#[tactic(auto, using(crate::proofs::ReaderLemmas::ReadingFaults::reading_fault, crate::proofs::ReaderLemmas::Spelled::objects_spelled, crate::proofs::LimitLemmas::Arguments::numbers_fit))]
fn read(alloc: Global, text: &[u8]) -> Result<Job, JobErr>
    requires { length text.now ≤ MOST_JOB_BYTES }
    ensures job { IfOk result (λ job. IsJobOf text.now job) }
    ensures fault { (fault : JobFault) → result ≡ Err (Bad fault) → IsFaultOf text.now fault }
{
    if let Some(line) = forbidden_line(text) {
        return Err(JobErr::Bad(JobFault::Byte { line }));
    }
    let items = read_items(alloc, text)?;
    if let Some(line) = leaves_line(text, &items) {
        return Err(JobErr::Bad(JobFault::Leaves { line }));
    }
    if let Some(line) = argument_line(text, &items) {
        return Err(JobErr::Bad(JobFault::Argument { line }));
    }
    let job = expand(alloc, items)?;
    Ok(job)
}

/// The job of a text, whose leaves take replies alone, or its fault. Where memory runs out, and only there, the answer is
/// `Memory`.
pub fn read_job(alloc: Global, text: &[u8]) -> Result<Job, JobErr>
    requires { length text.now ≤ MOST_JOB_BYTES }
    ensures job { IfOk result (λ job. IsJobOf text.now job) }
    ensures replies { IfOk result (λ job. TakeReplies job.acts job.sources) }
    ensures fault { (fault : JobFault) → result ≡ Err (Bad fault) → IsFaultOf text.now fault }
    ensures accepts { (job : JobValue) → IsJobOf text.now job → (result ≡ Ok job) ⊎ (result ≡ Err Memory) }
    ensures refuses { (fault : JobFault) → IsFaultOf text.now fault
        → (result ≡ Err (Bad fault)) ⊎ (result ≡ Err Memory) }
{
    read(alloc, text)
}
