//! A sum in threads: each leaf adds the sum of a chunk to one counter, and the last leaf asks it.
ghost use Rattle.std.specs.Prelude.{◌≡◌, ◌+◌, ◌^◌, ◌<◌, ◌≤◌, IfErr, IfOk, length, sum};
ghost use Rattle.std.specs.Int.{div_ceil};
ghost use Rattle.job_uses.specs.Refusals.{IsNotBuilt};
ghost use Rattle.job_uses.specs.Sums.{IsSumJob};
ghost use Rattle.limits.specs.declared.TheConstants.{MOST_LEAVES, MOST_WORKERS};

use job_builder::{BuildError, Builder, Handle, Order};
use job_results::Ran;
use job_runs::run_in_threads;
use seq_objects::{Op, Reply};
use sp_order::Job;
use std::alloc::Global;
use std::sync::Wait;
use std::thread::Threads;

/// The sum of a chunk.
pub(crate) fn sum_of(items: &[u32]) -> u32
    requires { sum items.now < 2 ^ 32 }
    ensures { result ≡ sum items.now }
{
    let mut total = 0;
    for item in items {
        total += *item;
    }
    total
}

/// A job that adds each chunk's sum to the counter, all of them in parallel, and then adds 0; with the last leaf.
fn sum_job(alloc: Global, items: &[u32], width: usize) -> Result<(Job, Handle), BuildError>
    requires width { 0 < width }
    requires small { sum items.now < 2 ^ 32 }
    ensures job { IfOk result (λ made. IsSumJob (sum items.now) made.0 made.1.leaf) }
    ensures room { IfOk result (λ _. div_ceil (length items.now) width < MOST_LEAVES) }
    ensures cause { IfErr result (IsNotBuilt (div_ceil (length items.now) width + 1)) }
{
    let mut job = Builder::new(alloc, 0);
    job.open(Order::Parallel)?;
    let mut rest = items;
    while !rest.is_empty() {
        let (chunk, behind) = rest.split_at(width.min(rest.len()));
        job.call(Op::CounterAdd(0, sum_of(chunk)))?;
        rest = behind;
    }
    job.close()?;
    let last = job.call(Op::CounterAdd(0, 0))?;
    Ok((job.finish()?, last))
}

/// What the counter replied to the last leaf.
fn last_sum(ran: &Ran, last: Handle, items: &[u32]) -> u64
    requires { IsSumJob (sum items.now) ran.now.job last.leaf }
    ensures { result ≡ sum items.now }
{
    let _report = ran.report();
    match ran.reply_of(last) {
        Reply::Number(number) => number,
        _ => unreachable!(),
    }
}

/// The sum of the items, of which each leaf adds `width`, in as many threads as there are workers. The job has a leaf for
/// each chunk, and one that asks the counter.
pub fn sum_in_threads<R: Threads + Wait + Sync>(
    rt: &R,
    alloc: Global,
    items: &[u32],
    width: usize,
    workers: u32,
) -> Result<u64, BuildError>
    requires width { 0 < width }
    requires small { sum items.now < 2 ^ 32 }
    requires some_workers { 0 < workers }
    requires few_workers { workers ≤ MOST_WORKERS }
    ensures room { IfOk result (λ _. div_ceil (length items.now) width < MOST_LEAVES) }
    ensures cause { IfErr result (IsNotBuilt (div_ceil (length items.now) width + 1)) }
    ensures total { IfOk result (λ total. total ≡ sum items.now) }
{
    let (job, last) = sum_job(alloc, items, width)?;
    let ran = run_in_threads(rt, alloc, job, workers)?;
    Ok(last_sum(&ran, last, items))
}
