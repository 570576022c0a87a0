//! A sum in threads without an object: each leaf adds up a chunk of its own, and the caller adds up what they found.
ghost use Rattle.std.specs.Prelude.{◌≡◌, ◌^◌, ◌<◌, ◌≤◌, IfErr, IfOk, length, sum};
ghost use Rattle.std.specs.Int.{div_ceil};
ghost use Rattle.job_uses.specs.Chunks.{HasChunks, chunk_of};
ghost use Rattle.job_uses.specs.Refusals.{IsNotBuilt};
ghost use Rattle.limits.specs.declared.TheConstants.{MOST_LEAVES, MOST_WORKERS};

use crate::sums::sum_of;
use job_builder::{BuildError, Builder, Handle, Order};
use job_results::RanWith;
use job_runs::run_in_threads_with;
use leaf_work::LeafWork;
use sp_order::Job;
use std::alloc::{AllocError, Global};
use std::sync::Wait;
use std::thread::Threads;

/// A slice in chunks of this width. A leaf with the number `n` adds up chunk `n`.
#[derive(Drop)]
pub(crate) struct Chunks<'a> {
    pub(crate) items: &'a [u32],
    pub(crate) width: usize,
    ghost small: { sum items.now < 2 ^ 32 },
}

impl<'a> LeafWork for Chunks<'a> {
    ghost meaning = { λ chunks number. sum (chunk_of chunks.width chunks.items.now number) };

    /// The sum of a chunk. It takes no memory.
    fn run(&self, _alloc: Global, number: u32) -> Result<u32, AllocError> {
        let start = (number as usize).saturating_mul(self.width);
        let (_, rest) = self.items.split_at(start.min(self.items.len()));
        let (chunk, _) = rest.split_at(self.width.min(rest.len()));
        Ok(sum_of(chunk))
    }
}

/// A job with a leaf of work for each chunk, all of them in parallel; with its leaves.
fn chunk_job(alloc: Global, chunks: usize) -> Result<(Job, Vec<Handle>), BuildError>
    ensures job { IfOk result (λ made. HasChunks chunks made.0 made.1.items) }
    ensures room { IfOk result (λ _. chunks ≤ MOST_LEAVES) }
    ensures cause { IfErr result (IsNotBuilt chunks) }
{
    let mut job = Builder::new(alloc, 0);
    let mut leaves = Vec::new(alloc);
    job.open(Order::Parallel)?;
    for chunk in 0..chunks {
        leaves.push(job.work(chunk as u32)?)?;
    }
    job.close()?;
    Ok((job.finish()?, leaves))
}

/// What the values of the leaves come to.
fn total_of<'a>(ran: &RanWith<Chunks<'a>>, leaves: &[Handle]) -> u64
    requires width { 0 < ran.now.work.width }
    requires chunks { HasChunks (div_ceil (length ran.now.work.items.now) ran.now.work.width) ran.now.job
        leaves.now }
    ensures { result ≡ sum ran.now.work.items.now }
{
    let _acts = ran.job().acts();
    let mut total = 0;
    for leaf in leaves {
        total += ran.value_of(*leaf);
    }
    total
}

/// The sum of the items, of which each leaf of a job adds up `width` by itself, in as many threads as there are workers.
pub fn chunks_in_threads<R: Threads + Wait + Sync>(
    rt: &R,
    alloc: Global,
    items: &[u32],
    width: usize,
    workers: u32,
) -> Result<u64, BuildError>
    requires width { 0 < width }
    requires small { sum items.now < 2 ^ 32 }
    requires some_workers { 0 < workers }
    requires few_workers { workers ≤ MOST_WORKERS }
    ensures room { IfOk result (λ _. div_ceil (length items.now) width ≤ MOST_LEAVES) }
    ensures cause { IfErr result (IsNotBuilt (div_ceil (length items.now) width)) }
    ensures total { IfOk result (λ total. total ≡ sum items.now) }
{
    let (job, leaves) = chunk_job(alloc, items.len().div_ceil(width))?;
    let work = Chunks { items, width };
    let ran = run_in_threads_with(rt, alloc, job, workers, &work)?;
    Ok(total_of(&ran, leaves.as_slice()))
}
