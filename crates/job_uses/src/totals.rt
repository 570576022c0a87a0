//! A sum in threads whose values flow: each leaf of work adds up a chunk, a call adds what it found to one counter, and
//! the last leaf asks the counter.
ghost use Rattle.std.specs.Prelude.{◌≡◌, ◌+◌, ◌*◌, ◌^◌, ◌<◌, ◌≤◌, IfErr, IfOk, length, sum};
ghost use Rattle.std.specs.Int.{div_ceil};
ghost use Rattle.job_uses.specs.Refusals.{IsNotBuilt};
ghost use Rattle.job_uses.specs.Totals.{AddsChunks};
ghost use Rattle.limits.specs.declared.TheConstants.{MOST_LEAVES, MOST_WORKERS};

use crate::chunks::Chunks;
use job_builder::{BuildError, Builder, Handle, Order};
use job_results::RanWith;
use job_runs::run_in_threads_with;
use seq_objects::{Op, Reply};
use sp_order::Job;
use std::alloc::Global;
use std::sync::Wait;
use std::thread::Threads;

/// A job with a leaf of work for each chunk, all of them in parallel, behind them a call for each, which adds its value
/// to the counter, and behind these a call that adds 0; with the last leaf.
fn total_job(alloc: Global, chunks: usize) -> Result<(Job, Handle), BuildError>
    ensures job { IfOk result (λ made. AddsChunks chunks made.0 made.1.leaf) }
    ensures room { IfOk result (λ _. 2 * chunks < MOST_LEAVES) }
    ensures cause { IfErr result (IsNotBuilt (2 * chunks + 1)) }
{
    let mut job = Builder::new(alloc, 0);
    let mut leaves = Vec::new(alloc);
    job.open(Order::Parallel)?;
    for chunk in 0..chunks {
        leaves.push(job.work(chunk as u32)?)?;
    }
    job.close()?;
    job.open(Order::Parallel)?;
    for leaf in leaves.as_slice() {
        job.call_with(Op::CounterAdd(0, 0), *leaf)?;
    }
    job.close()?;
    let last = job.call(Op::CounterAdd(0, 0))?;
    Ok((job.finish()?, last))
}

/// What the counter replied to the last leaf.
fn total_told<'a>(ran: &RanWith<Chunks<'a>>, last: Handle) -> u64
    requires width { 0 < ran.now.work.width }
    requires chunks { AddsChunks (div_ceil (length ran.now.work.items.now) ran.now.work.width) ran.now.job
        last.leaf }
    ensures { result ≡ sum ran.now.work.items.now }
{
    ran.is_serial();
    match ran.reply_of(last) {
        Reply::Number(total) => total,
        _ => unreachable!(),
    }
}

/// The sum of the items, of which each leaf of work adds up `width`, in as many threads as there are workers. The job
/// has a leaf of work and a call for each chunk, and one call that asks the counter.
pub fn total_in_threads<R: Threads + Wait + Sync>(
    rt: &R,
    alloc: Global,
    items: &[u32],
    width: usize,
    workers: u32,
) -> Result<u64, BuildError>
    requires width { 0 < width }
    requires small { sum items.now < 2 ^ 32 }
    requires some_workers { 0 < workers }
    requires few_workers { workers ≤ MOST_WORKERS }
    ensures room { IfOk result (λ _. 2 * div_ceil (length items.now) width < MOST_LEAVES) }
    ensures cause { IfErr result (IsNotBuilt (2 * div_ceil (length items.now) width + 1)) }
    ensures total { IfOk result (λ total. total ≡ sum items.now) }
{
    let (job, last) = total_job(alloc, items.len().div_ceil(width))?;
    let work = Chunks { items, width };
    let ran = run_in_threads_with(rt, alloc, job, workers, &work)?;
    Ok(total_told(&ran, last))
}
