//! Jobs of texts.
ghost use Rattle.std.specs.Prelude.{IfSome, IsSome};

use job_lang::read_job;
use limits::MOST_JOB_BYTES;
use sp_order::Job;
use std::alloc::Global;

/// The job of a text, if it has leaves.
pub(crate) fn job_of(alloc: Global, text: &[u8]) -> Option<Job>
    ensures { IfSome result (λ job. IsSome job.shape) }
{
    if text.len() > MOST_JOB_BYTES {
        return None;
    }
    let job = read_job(alloc, text).ok()?;
    if job.shape().is_none() {
        return None;
    }
    Some(job)
}
