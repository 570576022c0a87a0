//! Runs by turns and in threads.
ghost use Rattle.std.specs.Prelude.{◌≡◌, ◌<◌, ◌≤◌, [], IfOk};
ghost use Rattle.batch_history.specs.Lawful.{Lawful};
ghost use Rattle.core_model.specs.Reports.{IsDrivenReport, IsRunReport};
ghost use Rattle.job_results.specs.Results.{calls_of};
ghost use Rattle.limits.specs.declared.TheConstants.{MOST_WORKERS};
ghost use Rattle.serial_runs.specs.SerialRuns.{IsSerialRun};

use crate::runs_with::{run_by_turns_with, run_in_threads_with};
use job_results::Ran;
use leaf_work::Spin;
use sp_order::Job;
use std::alloc::{AllocError, Global};
use std::sync::Wait;
use std::thread::Threads;

/// Runs a job on the caller's thread. All workers take turns, round robin.
pub fn run_by_turns(alloc: Global, job: Job, workers: u32) -> Result<Ran, AllocError>
    requires some_workers { 0 < workers }
    requires few_workers { workers ≤ MOST_WORKERS }
    ensures job { IfOk result (λ ran. ran.job ≡ job) }
    ensures driven { IfOk result (λ ran. IsDrivenReport job workers [] ran.report) }
    ensures run { IfOk result (λ ran. IsRunReport job workers ran.report) }
    ensures lawful { IfOk result (λ ran. Lawful job workers ran.report) }
    ensures serial { IfOk result (λ ran. IsSerialRun job (calls_of ran)) }
{
    run_by_turns_with(alloc, job, workers, &Spin)
}

/// Runs a job in threads, one for each worker. That it ends is not promised.
pub fn run_in_threads<R: Threads + Wait + Sync>(
    rt: &R,
    alloc: Global,
    job: Job,
    workers: u32,
) -> Result<Ran, AllocError>
    requires some_workers { 0 < workers }
    requires few_workers { workers ≤ MOST_WORKERS }
    ensures job { IfOk result (λ ran. ran.job ≡ job) }
    ensures run { IfOk result (λ ran. IsRunReport job workers ran.report) }
    ensures lawful { IfOk result (λ ran. Lawful job workers ran.report) }
    ensures serial { IfOk result (λ ran. IsSerialRun job (calls_of ran)) }
{
    run_in_threads_with(rt, alloc, job, workers, &Spin)
}
