//! Two additions in threads: each is told the sum that it made.
ghost use Rattle.std.specs.Prelude.{◌≡◌, ◌+◌, ◌<◌, ◌≤◌, ◌⊎◌, IfOk, IfErr, ℕ, Some, slice_get};
ghost use Rattle.job_builder.specs.declared.error.BuildError.TheVariants.{Memory};
ghost use Rattle.job_results.specs.Results.{calls_of};
ghost use Rattle.job_uses.specs.Adds.{AddsTwo};
ghost use Rattle.job_uses.specs.Sums.{add_of};
ghost use Rattle.limits.specs.declared.TheConstants.{MOST_WORKERS};
ghost use Rattle.seq_objects.specs.declared.reply.Reply.TheVariants.{Number};
ghost use Rattle.serial_runs.specs.SerialRuns.{IsReplyTo};
ghost use Rattle.sp_order.specs.Phases.{HasNoSources};

use job_builder::{BuildError, Builder, Handle, Order};
use job_results::Ran;
use job_runs::run_in_threads;
use seq_objects::{Op, Reply};
use sp_order::Job;
use std::alloc::Global;
use std::sync::Wait;
use std::thread::Threads;

/// A job that adds both numbers to one counter, in parallel; with its leaves.
fn add_job(alloc: Global, a: u32, b: u32) -> Result<(Job, Handle, Handle), BuildError>
    ensures job { IfOk result (λ made. AddsTwo a b made.0) }
    ensures leaves { IfOk result (λ made. (made.1.leaf ≡ 0) × (made.2.leaf ≡ 1)) }
    ensures cause { IfErr result (λ error. error ≡ Memory) }
{
    let mut job = Builder::new(alloc, 0);
    job.open(Order::Parallel)?;
    let first = job.call(Op::CounterAdd(0, a))?;
    let second = job.call(Op::CounterAdd(0, b))?;
    job.close()?;
    Ok((job.finish()?, first, second))
}

/// What the counter replied to a leaf that adds a number.
fn sum_told(ran: &Ran, leaf: Handle) -> u64
    requires adds { (number : ℕ) × (slice_get ran.now.job.acts leaf.leaf ≡ Some (add_of number)) }
    requires plain { HasNoSources ran.now.job }
    ensures { IsReplyTo (calls_of ran.now) leaf.leaf (Number result) }
{
    ran.is_serial();
    match ran.reply_of(leaf) {
        Reply::Number(sum) => sum,
        _ => unreachable!(),
    }
}

/// Adds two numbers to one counter, in as many threads as there are workers. Gives the sum that each addition is told:
/// whichever is first is told its own number, and the other one the sum of both.
pub fn two_adds_in_threads<R: Threads + Wait + Sync>(
    rt: &R,
    alloc: Global,
    a: u32,
    b: u32,
    workers: u32,
) -> Result<(u64, u64), BuildError>
    requires some_workers { 0 < workers }
    requires few_workers { workers ≤ MOST_WORKERS }
    ensures sums { IfOk result (λ sums. (sums ≡ (a, a + b)) ⊎ (sums ≡ (a + b, b))) }
    ensures cause { IfErr result (λ error. error ≡ Memory) }
{
    let (job, first, second) = add_job(alloc, a, b)?;
    let ran = run_in_threads(rt, alloc, job, workers)?;
    Ok((sum_told(&ran, first), sum_told(&ran, second)))
}
