//! A parallel sum: each thread adds the sum of a chunk to one counter, which then has the sum of all numbers.
ghost use Rattle.std.specs.Prelude.{◌≡◌, ℕ, ◌%◌, ◌^◌, ◌<◌, ◌≤◌, [], ◌∷◌, false, length, map, sum, slice_index_or, Ok, IfOk};
ghost use Rattle.shared_calls.specs.Views.{IsCallerOf, number_of, made, is_lost};
ghost use Rattle.shared_uses.specs.declared.sums.Job.{Job as JobOf};
ghost use Rattle.shared_uses.specs.Adding.{AreJobs, sum_between};
ghost use Rattle.limits.specs.declared.TheConstants.{MOST_WORKERS};

use shared_calls::Caller;
use shared_structures::{Counter, SharedCounter};
use std::alloc::{AllocError, Global};
use std::sync::Wait;
use std::thread;
use std::thread::Threads;

/// A caller, and where its chunk begins and ends.
#[derive(Drop)]
pub struct Job {
    pub caller: Caller<Counter>,
    pub from: usize,
    pub to: usize,
}

/// The sum of the numbers, modulo 2^64.
fn sum_of(numbers: &[u64]) -> u64
    ensures { result ≡ sum numbers.now % 2 ^ 64 }
{
    let mut total = 0u64;
    for i in 0..numbers.len() {
        total = total.wrapping_add(numbers[i]);
    }
    total
}

/// A chunk for each caller, of about the same length, from place 0 to the end.
fn jobs_of(alloc: Global, callers: Vec<Caller<Counter>>, end: usize) -> Result<Vec<Job>, AllocError>
    requires { 0 < length callers.items }
    ensures { IfOk result (λ jobs. AreJobs (λ job. job.caller) 0 end jobs.items callers.items) }
{
    let mut jobs = Vec::with_capacity(alloc, callers.len())?;
    let mut left = callers.len();
    let mut from = 0;
    for caller in callers {
        let to = from + (end - from) / left;
        jobs.push(Job { caller, from, to })?;
        from = to;
        left -= 1;
    }
    Ok(jobs)
}

/// Adds the sum of a chunk.
fn add_chunk<R: Wait>(
    rt: &R,
    counter: &SharedCounter,
    job: Job,
    numbers: &[u64],
) -> Result<Caller<Counter>, AllocError>
    requires caller { IsCallerOf counter.now.shared job.caller × (is_lost job.caller ≡ false) × (made job.caller ≡ []) }
    requires chunk { (job.from ≤ job.to) × (job.to ≤ length numbers.now) }
    ensures caller { IfOk result (λ back. IsCallerOf counter.now.shared back × (number_of back ≡ number_of job.caller)) }
    ensures added { IfOk result (λ back. map (λ e. e.op) (made back) ≡ sum_between numbers.now job.from job.to ∷ []) }
{
    let Job { caller, from, to } = job;
    let mut caller = caller;
    counter.add(rt, &mut caller, sum_of(&numbers[from..to]))?;
    Ok(caller)
}

/// Each chunk is added in a thread of its own.
fn add_each<R: Wait + Threads + Sync>(
    rt: &R,
    counter: &SharedCounter,
    jobs: Vec<Job>,
    numbers: &[u64],
) -> Result<Vec<Result<Caller<Counter>, AllocError>>, AllocError>
    requires jobs { (i : ℕ) (j : JobOf) → i < length jobs.items → j ≡ slice_index_or jobs.items i j
        → IsCallerOf counter.now.shared j.caller × (is_lost j.caller ≡ false) × (made j.caller ≡ []) × (j.from ≤ j.to) × (j.to ≤ length numbers.now) }
    ensures count { IfOk result (λ backs. length backs.items ≡ length jobs.items) }
    ensures each { IfOk result (λ backs. (i : ℕ) (j : JobOf) (b : _) → i < length jobs.items → j ≡ slice_index_or jobs.items i j → b ≡ slice_index_or backs.items i b
        → IfOk b (λ back. IsCallerOf counter.now.shared back × (number_of back ≡ number_of j.caller) × (map (λ e. e.op) (made back) ≡ sum_between numbers.now j.from j.to ∷ []))) }
{
    thread::map_vec(rt, jobs, &|job: Job| add_chunk(rt, counter, job, numbers))
}

/// The callers, if each has added its chunk.
fn all_of(
    alloc: Global,
    backs: Vec<Result<Caller<Counter>, AllocError>>,
) -> Result<Vec<Caller<Counter>>, AllocError>
    ensures { IfOk result (λ callers. backs.items ≡ map Ok callers.items) }
{
    let mut callers = Vec::with_capacity(alloc, backs.len())?;
    for back in backs {
        let caller = back?;
        callers.push(caller)?;
    }
    Ok(callers)
}

/// The sum of the numbers, modulo 2^64, by so many threads.
pub fn sum_in_threads<R: Wait + Threads + Sync>(
    rt: &R,
    alloc: Global,
    numbers: &[u64],
    threads: usize,
) -> Result<u64, AllocError>
    requires threads { (1 ≤ threads) × (threads ≤ MOST_WORKERS) }
    ensures { IfOk result (λ total. total ≡ sum numbers.now % 2 ^ 64) }
{
    let (counter, callers) = SharedCounter::new(alloc, threads)?;
    let jobs = jobs_of(alloc, callers, numbers.len())?;
    let backs = add_each(rt, &counter, jobs, numbers)?;
    let callers = all_of(alloc, backs)?;
    Ok(counter.close(callers))
}
