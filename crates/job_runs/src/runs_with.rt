//! Runs by turns and in threads, where each leaf of work runs a function of the caller's.
ghost use Rattle.std.specs.Prelude.{◌≡◌, ◌<◌, ◌≤◌, [], IfOk};
ghost use Rattle.batch_history.specs.Lawful.{LawfulWith};
ghost use Rattle.core_model.specs.Reports.{IsDrivenReportWith, IsRunReportWith};
ghost use Rattle.job_results.specs.Results.{calls_of};
ghost use Rattle.limits.specs.declared.TheConstants.{MOST_WORKERS};
ghost use Rattle.serial_runs.specs.SerialRuns.{IsSerialRunWith};

use batcher_core::turns;
use job_results::RanWith;
use leaf_work::LeafWork;
use serial_runs::lawful_reports_with_work_are_serial;
use sp_order::Job;
use std::alloc::{AllocError, Global};
use std::sync::Wait;
use std::thread::Threads;
use worker_loop::run_table_with;

/// Runs a job on the caller's thread, where each leaf of work runs `work`. All workers take turns, round robin.
pub fn run_by_turns_with<W: LeafWork>(
    alloc: Global,
    job: Job,
    workers: u32,
    work: &W,
) -> Result<RanWith<W>, AllocError>
    requires some_workers { 0 < workers }
    requires few_workers { workers ≤ MOST_WORKERS }
    ensures job { IfOk result (λ ran. ran.job ≡ job) }
    ensures work { IfOk result (λ ran. ran.work ≡ work.now) }
    ensures driven { IfOk result
        (λ ran. IsDrivenReportWith (W.meaning work.now) job workers [] ran.report) }
    ensures run { IfOk result (λ ran. IsRunReportWith (W.meaning work.now) job workers ran.report) }
    ensures lawful { IfOk result (λ ran. LawfulWith (W.meaning work.now) job workers ran.report) }
    ensures serial { IfOk result (λ ran. IsSerialRunWith (W.meaning work.now) job (calls_of ran)) }
{
    lawful_reports_with_work_are_serial();
    let report = turns::run_by_turns_with(alloc, &job, workers, work, &[])?;
    Ok(RanWith::of(job, report, work))
}

/// Runs a job in threads, one for each worker, where each leaf of work runs `work`. That it ends is not promised.
pub fn run_in_threads_with<R: Threads + Wait + Sync, W: LeafWork + Sync>(
    rt: &R,
    alloc: Global,
    job: Job,
    workers: u32,
    work: &W,
) -> Result<RanWith<W>, AllocError>
    requires some_workers { 0 < workers }
    requires few_workers { workers ≤ MOST_WORKERS }
    ensures job { IfOk result (λ ran. ran.job ≡ job) }
    ensures work { IfOk result (λ ran. ran.work ≡ work.now) }
    ensures run { IfOk result (λ ran. IsRunReportWith (W.meaning work.now) job workers ran.report) }
    ensures lawful { IfOk result (λ ran. LawfulWith (W.meaning work.now) job workers ran.report) }
    ensures serial { IfOk result (λ ran. IsSerialRunWith (W.meaning work.now) job (calls_of ran)) }
{
    lawful_reports_with_work_are_serial();
    let report = run_table_with(rt, alloc, &job, workers, work)?;
    Ok(RanWith::of(job, report, work))
}
